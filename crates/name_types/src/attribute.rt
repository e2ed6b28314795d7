//! The attributes of names (RFC 5280 4.1.2.4).

ghost use Rattle.std.specs.Prelude.{◌≡◌, ◌↔◌, IsTrue};

use crate::attribute_value::AttributeValue;
use asn1_types::ObjectIdentifier;
use der_core::tag::SEQUENCE;
use der_core::{DerError, Elem, NewKids, Structure, Tree, two_kids};
use std::alloc::{AllocError, Global};

/// One attribute of a name: its type and its value (RFC 5280 4.1.2.4).
#[derive(Debug, Drop)]
pub struct AttributeTypeAndValue {
    pub ty: ObjectIdentifier,
    pub value: AttributeValue,
}

impl Structure for AttributeTypeAndValue {
    ghost use Rattle.name_types.specs.Name.{attribute_type_and_value};
    ghost use Rattle.name_types.specs.Facts.Names.{attributes};

    ghost written = { attribute_type_and_value };

    ghost spells = { λ element attribute. element ≡ attribute_type_and_value attribute };

    fn has_shape(elem: Elem<'_>) -> bool {
        match two_kids(elem, SEQUENCE) {
            Some((ty, value)) => ObjectIdentifier::has_shape(ty)
                && AttributeValue::has_shape(value),
            None => false,
        }
    }

    fn read_at(alloc: Global, elem: Elem<'_>) -> Result<AttributeTypeAndValue, DerError> {
        let Some((ty, value)) = two_kids(elem, SEQUENCE) else {
            return Err(DerError::Shape);
        };
        let ty = ObjectIdentifier::read_at(alloc, ty)?;
        let value = AttributeValue::read_at(alloc, value)?;
        Ok(AttributeTypeAndValue { ty, value })
    }

    fn write(&self, alloc: Global) -> Result<Tree, DerError> {
        let mut kids = NewKids::new(alloc);
        kids.push(self.ty.write(alloc)?)?;
        kids.push(self.value.write(alloc)?)?;
        Ok(kids.into_branch(SEQUENCE))
    }

    fn try_clone(&self, alloc: Global) -> Result<AttributeTypeAndValue, AllocError> {
        Ok(AttributeTypeAndValue {
            ty: self.ty.try_clone(alloc)?,
            value: self.value.try_clone(alloc)?,
        })
    }

    ghost grammar = { attributes };
}

/// Attributes are equal exactly if their encodings are.
impl PartialEq for AttributeTypeAndValue {
    ghost use Rattle.der_core.specs.Equality.{same_octets};
    ghost use Rattle.der_core.specs.Facts.Equality.{same_octets_per};
    ghost use Rattle.name_types.specs.Name.{attribute_type_and_value};

    ghost eq = { same_octets attribute_type_and_value };

    ghost laws = { same_octets_per attribute_type_and_value };

    fn eq(&self, other: &AttributeTypeAndValue) -> bool
        ensures octets { result ≡ same_octets attribute_type_and_value self.now other.now }
        ensures same { IsTrue result ↔ (self.now ≡ other.now) }
    {
        self.ty == other.ty && self.value == other.value
    }
}

impl Eq for AttributeTypeAndValue {
    ghost use Rattle.der_core.specs.Facts.Equality.{same_octets_equiv};
    ghost use Rattle.name_types.specs.Name.{attribute_type_and_value};

    ghost laws = { same_octets_equiv attribute_type_and_value };
}
