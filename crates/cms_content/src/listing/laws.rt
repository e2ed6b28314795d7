//! Laws on listings.

ghost use Rattle.std.specs.Prelude.{◌≡◌, ℕ, ℤ, List};
ghost use Rattle.cms_content.specs.declared.ctl_entry.CTLEntry.{CTLEntry};
ghost use Rattle.der_core.specs.Rules.{IsFirstBroken};
ghost use Rattle.cms_content.specs.Listing.{IsListed, listing_rules};
ghost use Rattle.cms_content.specs.declared.listing.error.ListingError.{ListingError};

/// A name that is listed breaks no rule, and the first broken rule for one that isn't is reported
/// by one error. So `expect_listed` has one result.
pub fn listing_has_one_answer()
    ensures unbroken { (entries : List CTLEntry) (name : List ℕ) (now : ℤ) (e : ListingError)
        → IsListed entries name now → IsFirstBroken (listing_rules entries name now) e → ⊥ }
    ensures once { (entries : List CTLEntry) (name : List ℕ) (now : ℤ) (a b : ListingError)
        → IsFirstBroken (listing_rules entries name now) a
        → IsFirstBroken (listing_rules entries name now) b → a ≡ b }
{}
