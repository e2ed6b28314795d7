//! Whether the name of a CA is listed on a certificate trust list at a time, rule by rule (Microsoft,
//! wincrypt.h: CTL_INFO, CTL_ENTRY and the properties CERT_SUBJECT_NAME_MD5_HASH,
//! CERT_DISALLOWED_FILETIME, CERT_NOT_BEFORE_FILETIME and CERT_NOT_BEFORE_ENHKEY_USAGE). Nothing is
//! allocated.

ghost use Rattle.std.specs.Prelude.{◌↔◌, IsTrue, MatchResult};
ghost use Rattle.der_core.specs.Rules.{IsFirstBroken};
ghost use Rattle.cms_content.specs.Listing.{BeginsWell, EndsWell, IsListed, IsForOthers, beginning_rules, end_rules, listing_rules};

mod attributes;
mod entries;
pub(crate) mod error;
mod file_time;
pub(crate) mod laws;

use crate::ctl_entry::CTLEntry;
use crate::listing::attributes::{begins_of, ends_of, is_for_code_signing, usages_of};
use crate::listing::entries::entry_of;
use crate::listing::error::ListingError;
use crate::listing::file_time::seconds_of;
use md5::{Digest as _, Md5};

/// Checks that the name of a CA, given as its encoding, is listed in the entries of a trust list at
/// a time, in whole seconds since 1601-01-01, UTC. Fails with the first of these that doesn't hold:
/// an entry has the MD5 of the name; the first such entry hasn't ended; it has begun, or its
/// not-before time doesn't apply to code signing.
pub fn expect_listed(entries: &[CTLEntry], name: &[u8], now: i64) -> Result<(), ListingError>
    ensures { MatchResult result (λ _. IsListed entries.now name.now now)
        (IsFirstBroken (listing_rules entries.now name.now now)) }
{
    let digest = Md5::digest(name);
    let Some(entry) = entry_of(entries, &digest) else {
        return Err(ListingError::NotListed);
    };
    expect_lasting(entry, now)?;
    expect_begun(entry, now)
}

/// Checks that the not-after time, if the entry has one, is at least now.
fn expect_lasting(entry: &CTLEntry, now: i64) -> Result<(), ListingError>
    ensures { MatchResult result (λ _. EndsWell entry.now now)
        (IsFirstBroken (end_rules entry.now now)) }
{
    let Some(times) = ends_of(entry) else {
        return Ok(());
    };
    let Some(first) = times.first() else {
        return Err(ListingError::MalformedEntry);
    };
    let Some(not_after) = seconds_of(first.as_slice()) else {
        return Err(ListingError::Revoked);
    };
    if not_after < now {
        return Err(ListingError::Expired { not_after, now });
    }
    Ok(())
}

/// Checks that the not-before time, if the entry has one, is at most now, or doesn't apply to code
/// signing.
fn expect_begun(entry: &CTLEntry, now: i64) -> Result<(), ListingError>
    ensures { MatchResult result (λ _. BeginsWell entry.now now)
        (IsFirstBroken (beginning_rules entry.now now)) }
{
    let Some(times) = begins_of(entry) else {
        return Ok(());
    };
    let Some(first) = times.first() else {
        return Err(ListingError::MalformedEntry);
    };
    let Some(not_before) = seconds_of(first.as_slice()) else {
        return Err(ListingError::MalformedEntry);
    };
    if not_before > now && !is_for_others(entry) {
        return Err(ListingError::NotYetValid { not_before, now });
    }
    Ok(())
}

/// Whether the not-before time applies to extended key usages without code signing.
fn is_for_others(entry: &CTLEntry) -> bool
    ensures { IsTrue result ↔ IsForOthers entry.now }
{
    let Some(usages) = usages_of(entry) else {
        return false;
    };
    match usages.first() {
        Some(first) => !is_for_code_signing(first.purposes()),
        None => false,
    }
}
