//! Unsigned attributes and signed data by the elements in them, borrowed.

ghost use Rattle.std.specs.Prelude.{◌≡◌, ◌≢◌, [], ◌∷◌, List, MatchOption};
ghost use Rattle.der_core.specs.DerElement.{DerElement};
ghost use Rattle.der_core.specs.Elements.{sequence, set};
ghost use Rattle.cms_types.specs.Levels.{IsUnsignedOf};
ghost use Rattle.cms_types.specs.Pkcs7Elements.{pkcs7_of};
ghost use Rattle.cms_types.specs.declared.unsigned_attribute.kind.UnsignedKind.{UnsignedKind};

use crate::unsigned_attribute::kind::UnsignedKind;
use asn1_types::ObjectIdentifier;
use asn1_types::oids::SIGNED_DATA;
use der_core::tag::{OBJECT_IDENTIFIER, SEQUENCE, SET};
use der_core::{Elem, Kids, expect_leaf, explicit_at, leaf_at, two_kids};

pub(crate) const SIGNED: u8 = 0xA0;

/// The fields of an unsigned attribute, borrowed: its OID, the kind that this names, and its
/// values, any elements.
#[derive(Clone, Copy)]
pub(crate) struct UnsignedFields<'a> {
    pub ty: Elem<'a>,
    pub kind: UnsignedKind,
    pub values: Kids<'a>,
}

impl<'a> UnsignedFields<'a> {
    /// The fields of the element.
    pub fn of(elem: Elem<'a>) -> Option<UnsignedFields<'a>>
        ensures { MatchOption result
            ((kind : UnsignedKind) (values : List DerElement)
            → IsUnsignedOf elem.entry.is.0 kind values → ⊥)
            (λ fields. IsUnsignedOf elem.entry.is.0 fields.kind fields.values.are.0
            × (elem.entry.is.0 ≡ sequence (fields.ty.is.0 ∷ set fields.values.are.0 ∷ []))) }
    {
        let (ty, values) = two_kids(elem, SEQUENCE)?;
        let contents = leaf_at(ty, OBJECT_IDENTIFIER)?;
        if !ObjectIdentifier::is_content(contents) {
            return None;
        }
        let kind = UnsignedKind::named(contents);
        let values = Kids::of(values, SET)?;
        Some(UnsignedFields { ty, kind, values })
    }
}

/// The signed data in an element.
pub(crate) fn signed_data_in<'a>(elem: Elem<'a>) -> Option<Elem<'a>>
    ensures { MatchOption result
        ((signed_data : DerElement) → elem.entry.is.0 ≢ pkcs7_of signed_data)
        (λ signed_data. elem.entry.is.0 ≡ pkcs7_of signed_data.is.0) }
{
    let (ty, content) = two_kids(elem, SEQUENCE)?;
    expect_leaf(ty, OBJECT_IDENTIFIER, SIGNED_DATA)?;
    explicit_at(content, SIGNED)
}
