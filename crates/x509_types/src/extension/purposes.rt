//! The KeyPurposeIds of borrowed extended key usages.

ghost use Rattle.std.specs.Prelude.{◌↔◌, IsTrue, MatchOption};
ghost use Rattle.der_core.specs.DerElement.{DerElement};
ghost use Rattle.x509_types.specs.Purposes.{HasSome, IsPurpose, HoldsPurpose, IsUsage, IsUsageFor};

use crate::extension::first::octets_named;
use asn1_types::oids::CE_EXT_KEY_USAGE;
use der_core::tag::{OBJECT_IDENTIFIER, SEQUENCE};
use der_core::{Elem, Kids, expect_leaf, whole_element};

/// Whether one of the extensions is an extended key usage with this KeyPurposeId, given as contents
/// octets.
pub(crate) fn has_usage_for(mut kids: Kids<'_>, oid: &[u8]) -> bool
    ensures { IsTrue result ↔ HasSome (IsUsageFor oid.now) kids.entry.are.0 }
{
    while let Some(kid) = kids.next() {
        if is_usage_for(kid, oid) {
            return true;
        }
    }
    false
}

/// Whether the extension is an extended key usage with this KeyPurposeId.
fn is_usage_for(extension: Elem<'_>, oid: &[u8]) -> bool
    ensures { IsTrue result ↔ IsUsageFor oid.now extension.entry.is.0 }
{
    match usage_at(extension) {
        Some(usage) => holds_purpose(usage, oid),
        None => false,
    }
}

/// The element in an extended key usage.
fn usage_at<'a>(extension: Elem<'a>) -> Option<Elem<'a>>
    ensures { MatchOption result
        ((element : DerElement) → IsUsage extension.entry.is.0 element → ⊥)
        (λ usage. IsUsage extension.entry.is.0 usage.is.0) }
{
    let octets = octets_named(extension, CE_EXT_KEY_USAGE)?;
    whole_element(octets)
}

/// Whether the element holds this KeyPurposeId.
fn holds_purpose(usage: Elem<'_>, oid: &[u8]) -> bool
    ensures { IsTrue result ↔ HoldsPurpose oid.now usage.entry.is.0 }
{
    match Kids::of(usage, SEQUENCE) {
        Some(kids) => has_identifier(kids, oid),
        None => false,
    }
}

/// Whether one of the elements is this OID.
fn has_identifier(mut kids: Kids<'_>, oid: &[u8]) -> bool
    ensures { IsTrue result ↔ HasSome (IsPurpose oid.now) kids.entry.are.0 }
{
    while let Some(kid) = kids.next() {
        if let Some(()) = expect_leaf(kid, OBJECT_IDENTIFIER, oid) {
            return true;
        }
    }
    false
}
