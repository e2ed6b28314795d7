//! Unsigned attributes of other types.

ghost use Rattle.std.specs.Prelude.{◌≡◌, ◌≢◌, ◌↔◌, [], IfOk, IsTrue, MatchOption, MatchResult};
ghost use Rattle.der_core.specs.Encoding.{IsWellFormed};
ghost use Rattle.der_core.specs.Refusals.{RefusesInner};
ghost use Rattle.asn1_types.specs.Values.{identifier_contents};
ghost use Rattle.cms_types.specs.Members.{elements_of_kept};
ghost use Rattle.cms_types.specs.AttributeElement.{attribute_of};
ghost use Rattle.cms_types.specs.UnsignedKind.{named_unsigned};
ghost use Rattle.cms_types.specs.Facts.UnsignedKinds.{same_unsigned_kinds};
ghost use Rattle.cms_types.specs.declared.unsigned_attribute.kind.UnsignedKind.TheVariants as kinds;

use crate::list_fields::push_values;
use crate::unsigned_attribute::kind::UnsignedKind;
use asn1_types::ObjectIdentifier;
use der_core::tag::{OBJECT_IDENTIFIER, SEQUENCE, SET};
use der_core::{DerError, ListOf, NewKids, Raw, Tree, leaf};
use std::alloc::{AllocError, Global};

/// Raw elements in order.
pub type RawList = ListOf<Raw>;

/// An unsigned attribute that is no counter-signature, with raw values.
#[derive(Debug, Drop)]
pub struct RawUnsignedAttribute {
    pub ty: ObjectIdentifier,
    pub values: RawList,
    pub ghost other: { named_unsigned (identifier_contents ty) ≡ kinds.Other } by { same_unsigned_kinds (named_unsigned (identifier_contents ty)) kinds.Other },
}

impl RawUnsignedAttribute {
    /// The attribute with this OID and these values. None exactly where the OID is one of
    /// counter-signatures.
    pub fn new(ty: ObjectIdentifier, values: RawList) -> Option<RawUnsignedAttribute>
        ensures { MatchOption result
            (named_unsigned (identifier_contents ty) ≢ kinds.Other)
            (λ attribute. (attribute.ty ≡ ty) × (attribute.values ≡ values)) }
    {
        if UnsignedKind::named(ty.as_bytes()) == UnsignedKind::Other {
            Some(RawUnsignedAttribute { ty, values })
        } else {
            None
        }
    }

    /// A copy of the attribute.
    pub fn try_clone(&self, alloc: Global) -> Result<RawUnsignedAttribute, AllocError>
        ensures { IfOk result (λ copy. copy ≡ self.now) }
    {
        Ok(RawUnsignedAttribute {
            ty: self.ty.try_clone(alloc)?,
            values: self.values.try_clone(alloc)?,
        })
    }

    /// Whether OID and values are the same.
    pub(crate) fn is_same(&self, other: &RawUnsignedAttribute) -> bool
        ensures { IsTrue result ↔ (self.now ≡ other.now) }
    {
        self.ty == other.ty && are_same_elements(&self.values, &other.values)
    }
}

/// Whether the elements are the same, one by one.
pub(crate) fn are_same_elements(a: &RawList, b: &RawList) -> bool
    ensures { IsTrue result ↔ (a.now ≡ b.now) }
{
    a == b
}

/// The element of an attribute with this OID, given by its contents octets, and these values.
pub(crate) fn write_attribute(alloc: Global, ty: &[u8], values: &RawList) -> Result<Tree, DerError>
    ensures { MatchResult result
        (λ tree. (tree ≡ attribute_of ty.now (elements_of_kept values.now)) × IsWellFormed tree)
        (RefusesInner []) }
{
    let mut kids = NewKids::new(alloc);
    kids.push(leaf(alloc, OBJECT_IDENTIFIER, ty)?)?;
    push_values(alloc, &mut kids, SET, values)?;
    Ok(kids.into_branch(SEQUENCE))
}
