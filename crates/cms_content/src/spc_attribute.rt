//! Authenticode attributes with an optional value.

ghost use Rattle.std.specs.Prelude.{◌≡◌, ◌≢◌, ◌↔◌, IsTrue, Option, MatchOption};
ghost use Rattle.der_core.specs.DerElement.{DerElement};
ghost use Rattle.der_core.specs.BorrowedOption.{at_option};
ghost use Rattle.cms_content.specs.SpcAttribute.{spc_attribute, spc_attribute_of};

use asn1_types::ObjectIdentifier;
use der_core::tag::SEQUENCE;
use der_core::{DerError, Elem, Kids, NewKids, Raw, Structure, Tree};
use std::alloc::{AllocError, Global};

/// A type, and a value of that type, any element, or none (Windows Authenticode Portable Executable
/// Signature Format): the kind of the signed file, and which part of it is signed.
#[derive(Debug, Drop)]
pub struct SpcAttributeTypeAndOptionalValue {
    pub ty: ObjectIdentifier,
    pub value: Option<Raw>,
}

/// The fields of an attribute, borrowed, each any element.
#[derive(Clone, Copy)]
struct Fields<'a> {
    ty: Elem<'a>,
    value: Option<Elem<'a>>,
}

impl<'a> Fields<'a> {
    /// The fields of the element.
    fn of(elem: Elem<'a>) -> Option<Fields<'a>>
        ensures { MatchOption result
            ((ty : DerElement) (value : Option DerElement)
            → elem.entry.is.0 ≢ spc_attribute_of ty value)
            (λ f. elem.entry.is.0 ≡ spc_attribute_of f.ty.is.0 (at_option f.value)) }
    {
        let mut kids = Kids::of(elem, SEQUENCE)?;
        let ty = kids.next()?;
        let value = kids.next();
        kids.end()?;
        Some(Fields { ty, value })
    }
}

impl Structure for SpcAttributeTypeAndOptionalValue {
    ghost use Rattle.cms_content.specs.Facts.SpcAttributes.{spc_attributes};

    ghost written = { spc_attribute };

    ghost spells = { λ element attribute. element ≡ spc_attribute attribute };

    fn has_shape(elem: Elem<'_>) -> bool {
        match Fields::of(elem) {
            Some(fields) => ObjectIdentifier::has_shape(fields.ty),
            None => false,
        }
    }

    fn read_at(
        alloc: Global,
        elem: Elem<'_>,
    ) -> Result<SpcAttributeTypeAndOptionalValue, DerError> {
        let Some(fields) = Fields::of(elem) else {
            return Err(DerError::Shape);
        };
        let ty = ObjectIdentifier::read_at(alloc, fields.ty)?;
        let value = match fields.value {
            Some(value) => Some(Raw::from_elem(alloc, value)?),
            None => None,
        };
        Ok(SpcAttributeTypeAndOptionalValue { ty, value })
    }

    fn write(&self, alloc: Global) -> Result<Tree, DerError> {
        let mut kids = NewKids::new(alloc);
        kids.push(self.ty.write(alloc)?)?;
        if let Some(value) = &self.value {
            kids.push(value.write(alloc)?)?;
        }
        Ok(kids.into_branch(SEQUENCE))
    }

    fn try_clone(&self, alloc: Global) -> Result<SpcAttributeTypeAndOptionalValue, AllocError> {
        let value = match &self.value {
            Some(value) => Some(value.try_clone(alloc)?),
            None => None,
        };
        Ok(SpcAttributeTypeAndOptionalValue {
            ty: self.ty.try_clone(alloc)?,
            value,
        })
    }

    ghost grammar = { spc_attributes };
}

/// Attributes are equal exactly where their encodings are.
impl PartialEq for SpcAttributeTypeAndOptionalValue {
    ghost use Rattle.der_core.specs.Equality.{same_octets};
    ghost use Rattle.der_core.specs.Facts.Equality.{same_octets_per};

    ghost eq = { same_octets spc_attribute };

    ghost laws = { same_octets_per spc_attribute };

    fn eq(&self, other: &SpcAttributeTypeAndOptionalValue) -> bool
        ensures octets { result ≡ same_octets spc_attribute self.now other.now }
        ensures same { IsTrue result ↔ (self.now ≡ other.now) }
    {
        self.ty == other.ty && self.value == other.value
    }
}

impl Eq for SpcAttributeTypeAndOptionalValue {
    ghost use Rattle.der_core.specs.Facts.Equality.{same_octets_equiv};

    ghost laws = { same_octets_equiv spc_attribute };
}
