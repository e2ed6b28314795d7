//! Borrowed extensions (RFC 5280 4.1).
//!
//! ```text
//! Extension  ::=  SEQUENCE  {
//!      extnID      OBJECT IDENTIFIER,
//!      critical    BOOLEAN DEFAULT FALSE,
//!      extnValue   OCTET STRING
//!                  -- contains the DER encoding of an ASN.1 value
//!                  -- corresponding to the extension type identified
//!                  -- by extnID
//!      }
//! ```
//!
//! Also accepted: an explicit FALSE, and TRUE as any octet but 00.

ghost use Rattle.std.specs.Prelude.{◌≡◌, ◌≢◌, ℕ, Bool, List, MatchOption};
ghost use Rattle.der_core.specs.DerElement.{DerElement};
ghost use Rattle.asn1_types.specs.Elements.{object_identifier};
ghost use Rattle.asn1_types.specs.Values.{identifier_contents};
ghost use Rattle.asn1_types.specs.declared.oid.ObjectIdentifier.{ObjectIdentifier};
ghost use Rattle.x509_types.specs.ExtensionFields.{IsExtensionOf};
ghost use Rattle.x509_types.specs.ExtensionView.{named_kind};

use crate::extension::view::ExtensionKind;
use asn1_types::ObjectIdentifier;
use der_core::tag::{OBJECT_IDENTIFIER, OCTET_STRING, SEQUENCE};
use der_core::{Elem, Kids, leaf_at};

/// The fields of an Extension: its OID as any element, its flag, and the octets of its value.
#[derive(Clone, Copy)]
pub struct ExtensionFields<'a> {
    pub oid: Elem<'a>,
    pub critical: bool,
    pub value: &'a [u8],
}

impl<'a> ExtensionFields<'a> {
    /// The fields of the element.
    #[inline(always)]
    pub fn of(elem: Elem<'a>) -> Option<ExtensionFields<'a>>
        ensures { MatchOption result
            ((oid : DerElement) (critical : Bool) (octets : List ℕ)
            → IsExtensionOf elem.entry.is.0 oid critical octets → ⊥)
            (λ fields. IsExtensionOf elem.entry.is.0 fields.oid.is.0 fields.critical
            fields.value.now) }
    {
        let mut kids = Kids::of(elem, SEQUENCE)?;
        let oid = kids.next()?;
        let critical = kids.next_default_false()?;
        let value = leaf_at(kids.next()?, OCTET_STRING)?;
        kids.end()?;
        Some(ExtensionFields {
            oid,
            critical,
            value,
        })
    }
}

/// The kind that the element of an OID identifies.
pub(crate) fn kind_at(oid: Elem<'_>) -> Option<ExtensionKind>
    ensures { MatchOption result ((id : ObjectIdentifier) → oid.entry.is.0 ≢ object_identifier id)
        (λ kind. (id : ObjectIdentifier) × (oid.entry.is.0 ≡ object_identifier id)
        × (kind ≡ named_kind (identifier_contents id))) }
{
    let contents = leaf_at(oid, OBJECT_IDENTIFIER)?;
    if ObjectIdentifier::is_content(contents) {
        Some(ExtensionKind::named(contents))
    } else {
        None
    }
}
