//! Entries of a trust list by the name of their subject.

ghost use Rattle.std.specs.Prelude.{◌↔◌, IsTrue, MatchOption};
ghost use Rattle.cms_content.specs.Attributes.{HasDigest, IsDigest};
ghost use Rattle.cms_content.specs.First.{HoldsOfNone, HoldsOfSome, IsFirst};

use crate::ctl_attribute::CTLEntryAttribute;
use crate::ctl_entry::CTLEntry;
use crate::listing::attributes::is_digest;

/// The first entry with this digest of a name.
pub(crate) fn entry_of<'a>(entries: &'a [CTLEntry], digest: &[u8]) -> Option<&'a CTLEntry>
    ensures { MatchOption result
        (HoldsOfNone (HasDigest digest.now) entries.now)
        (λ entry. IsFirst (HasDigest digest.now) entries.now entry.now) }
{
    for entry in entries {
        if has_digest(entry.attributes.as_slice(), digest) {
            return Some(entry);
        }
    }
    None
}

/// Whether some attribute is this digest of a name, by its first value.
fn has_digest(attributes: &[CTLEntryAttribute], digest: &[u8]) -> bool
    ensures { IsTrue result ↔ HoldsOfSome (IsDigest digest.now) attributes.now }
{
    for attribute in attributes {
        if is_digest(attribute, digest) {
            return true;
        }
    }
    false
}
