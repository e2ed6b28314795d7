//! Attributes of entries of a trust list.

ghost use Rattle.std.specs.Prelude.{◌↔◌, List, ℕ, IsTrue, MatchOption};
ghost use Rattle.cms_content.specs.declared.held_purposes.HeldPurposes.{HeldPurposes};
ghost use Rattle.cms_content.specs.Attributes.{HasBegins, HasEnds, HasUsages, IsDigest, IsOfKind};
ghost use Rattle.cms_content.specs.First.{HoldsOfNone, HoldsOfSome, IsFirst};
ghost use Rattle.cms_content.specs.Listing.{IsCodeSigning};

use crate::ctl_attribute::CTLEntryAttribute;
use crate::ctl_entry::CTLEntry;
use crate::ctl_kind::CtlKind;
use crate::ctl_values::CTLEntryAttributeValues;
use crate::held_purposes::HeldPurposes;
use asn1_types::ObjectIdentifier;
use asn1_types::oids::KP_CODE_SIGNING;
use der_core::{Octets, is_same};

/// The values of the first not-after time of the entry, if it has one.
pub(crate) fn ends_of(entry: &CTLEntry) -> Option<&[Octets]>
    ensures { MatchOption result
        ((times : List (List ℕ)) → HasEnds entry.now times → ⊥)
        (λ times. HasEnds entry.now times.now) }
{
    let attribute = first_of(
        entry.attributes.as_slice(),
        CtlKind::CertDisallowedFileTimePropId,
    )?;
    match &attribute.value {
        CTLEntryAttributeValues::CertDisallowedFileTimePropId(times) => Some(times.as_slice()),
        _ => None,
    }
}

/// The values of the first not-before time of the entry, if it has one.
pub(crate) fn begins_of(entry: &CTLEntry) -> Option<&[Octets]>
    ensures { MatchOption result
        ((times : List (List ℕ)) → HasBegins entry.now times → ⊥)
        (λ times. HasBegins entry.now times.now) }
{
    let attribute = first_of(
        entry.attributes.as_slice(),
        CtlKind::UnknownReservedPropId126,
    )?;
    match &attribute.value {
        CTLEntryAttributeValues::UnknownReservedPropId126(times) => Some(times.as_slice()),
        _ => None,
    }
}

/// The extended key usages to which the not-before time applies, if the entry has such.
pub(crate) fn usages_of(entry: &CTLEntry) -> Option<&[HeldPurposes]>
    ensures { MatchOption result
        ((usages : List HeldPurposes) → HasUsages entry.now usages → ⊥)
        (λ usages. HasUsages entry.now usages.now) }
{
    let attribute = first_of(
        entry.attributes.as_slice(),
        CtlKind::UnknownReservedPropId127,
    )?;
    match &attribute.value {
        CTLEntryAttributeValues::UnknownReservedPropId127(usages) => Some(usages.as_slice()),
        _ => None,
    }
}

/// The first attribute of a kind.
fn first_of(attributes: &[CTLEntryAttribute], kind: CtlKind) -> Option<&CTLEntryAttribute>
    ensures { MatchOption result
        (HoldsOfNone (IsOfKind kind) attributes.now)
        (λ attribute. IsFirst (IsOfKind kind) attributes.now attribute.now) }
{
    for attribute in attributes {
        if is_of_kind(attribute, kind) {
            return Some(attribute);
        }
    }
    None
}

/// Whether the attribute is of the kind.
fn is_of_kind(attribute: &CTLEntryAttribute, kind: CtlKind) -> bool
    ensures { IsTrue result ↔ IsOfKind kind attribute.now }
{
    attribute.value.kind() == kind
}

/// Whether the attribute is the digest of a name, and its first value this one.
pub(crate) fn is_digest(attribute: &CTLEntryAttribute, digest: &[u8]) -> bool
    ensures { IsTrue result ↔ IsDigest digest.now attribute.now }
{
    let CTLEntryAttributeValues::CertSubjectNameMd5HashPropId(digests) = &attribute.value else {
        return false;
    };
    match digests.as_slice() {
        [first, ..] => is_same(first.as_slice(), digest),
        [] => false,
    }
}

/// Whether one of the extended key usages is code signing (RFC 5280 4.2.1.12).
pub(crate) fn is_for_code_signing(purposes: &[ObjectIdentifier]) -> bool
    ensures { IsTrue result ↔ HoldsOfSome IsCodeSigning purposes.now }
{
    for purpose in purposes {
        if is_code_signing(purpose) {
            return true;
        }
    }
    false
}

/// Whether the extended key usage is code signing.
fn is_code_signing(purpose: &ObjectIdentifier) -> bool
    ensures { IsTrue result ↔ IsCodeSigning purpose.now }
{
    is_same(purpose.as_bytes(), KP_CODE_SIGNING)
}
