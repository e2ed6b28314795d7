//! Laws on images.

ghost use Rattle.std.specs.Prelude.{◌≡◌, ◌≢◌, ◌⊎◌, ◌<◌, ◌++◌, ℕ, List, [], IsTrue};
ghost use Rattle.std.specs.List.{AllByRecursion};
ghost use Rattle.der_core.specs.Rules.{IsFirstBroken};
ghost use Rattle.pe_core.specs.Bound.{HaveSameParts, bound_octets, head_of, is_bound, middle_of, rest_of};
ghost use Rattle.pe_core.specs.Entries.{IsEntry, IsTable, written_table};
ghost use Rattle.pe_core.specs.Image.{IsSignedImage, image_rules};
ghost use Rattle.pe_core.specs.Layout.{IsInSection, IsLeftOut, IsWhole, layout_rules, size_of_headers};
ghost use Rattle.pe_core.specs.declared.error.PeError.{PeError};
ghost use Rattle.pe_core.specs.declared.layout_error.LayoutError.{LayoutError};

/// An image breaks no rule, and the first broken rule for a file that is none is reported by one
/// error. So `PeImage::parse` has one result.
pub fn image_has_one_answer()
    ensures unbroken { (octets : List ℕ) (e : PeError)
        → IsSignedImage octets → IsFirstBroken (image_rules octets) e → ⊥ }
    ensures once { (octets : List ℕ) (a b : PeError)
        → IsFirstBroken (image_rules octets) a → IsFirstBroken (image_rules octets) b → a ≡ b }
{}

/// The octets of an image that its signature is about are those that `head`, `middle` and `rest`
/// borrow, one part after the other.
pub fn bound_octets_are_parts()
    ensures { (octets : List ℕ) → IsSignedImage octets
        → bound_octets octets ≡ head_of octets ++ middle_of octets ++ rest_of octets }
{}

/// Images with the same octets that their signature is about have the checksum, the entry and the
/// table at the same offsets, and differ there alone.
pub fn bound_octets_fix_the_image()
    ensures { (a b : List ℕ) → IsSignedImage a → IsSignedImage b
        → bound_octets a ≡ bound_octets b → HaveSameParts a b }
{}

/// An image that is whole breaks no rule for layouts, and the first broken rule is reported by one
/// error. So `PeImage::expect_whole` has one result.
pub fn layout_has_one_answer()
    ensures unbroken { (octets : List ℕ) (e : LayoutError)
        → IsWhole octets → IsFirstBroken (layout_rules octets) e → ⊥ }
    ensures once { (octets : List ℕ) (a b : LayoutError)
        → IsFirstBroken (layout_rules octets) a → IsFirstBroken (layout_rules octets) b → a ≡ b }
{}

/// The signature of a whole image is about each octet of the headers, but for those of the checksum
/// and of the table's entry, and about each octet of a section's data.
pub fn whole_image_is_bound()
    ensures headers { (octets : List ℕ) → IsSignedImage octets → IsWhole octets → (offset : ℕ)
        → offset < size_of_headers octets
        → IsTrue (is_bound octets offset) ⊎ IsLeftOut octets offset }
    ensures sections { (octets : List ℕ) → IsSignedImage octets → IsWhole octets
        → (section offset : ℕ) → IsInSection octets section offset
        → IsTrue (is_bound octets offset) }
{}

/// A certificate table has one list of entries. So `PeImage::entries` has one result.
pub fn table_has_one_list()
    ensures { (octets : List ℕ) (a b : List (List ℕ))
        → IsTable octets a → IsTable octets b → a ≡ b }
{}

/// Entries one after another, each with zeros up to a multiple of eight octets, are the certificate
/// table of these entries.
pub fn written_table_is_its_entries()
    ensures { (entries : List (List ℕ)) → entries ≢ [] → AllByRecursion IsEntry entries
        → IsTable (written_table entries) entries }
{}
