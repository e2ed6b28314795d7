//! The values of attributes in names.

ghost use Rattle.std.specs.Prelude.{◌≡◌, ◌↔◌, IsTrue};

use crate::directory_string::DirectoryString;
use crate::other_value::OtherValue;
use asn1_types::Ia5String;
use der_core::{DerError, Elem, Structure, Tree};
use std::alloc::{AllocError, Global};

/// The value of an attribute in a name (RFC 5280 4.1.2.4): a string of a known type, or any other
/// element.
#[derive(Debug, Drop)]
pub enum AttributeValue {
    /// A DirectoryString (RFC 5280 4.1.2.4).
    DirectoryString(DirectoryString),
    /// An IA5String, as in an email address or a domain component (RFC 5280 4.1.2.4, 4.1.2.6).
    Ia5String(Ia5String),
    /// Any other element, such as an IA5String with an octet above 127.
    Other(OtherValue),
}

impl Structure for AttributeValue {
    ghost use Rattle.name_types.specs.AttributeValue.{attribute_value};
    ghost use Rattle.name_types.specs.Facts.Names.{attribute_values};

    ghost written = { attribute_value };

    ghost spells = { λ element value. element ≡ attribute_value value };

    /// Any element is the value of some attribute.
    fn has_shape(_elem: Elem<'_>) -> bool {
        true
    }

    fn read_at(alloc: Global, elem: Elem<'_>) -> Result<AttributeValue, DerError> {
        if DirectoryString::has_shape(elem) {
            let string = DirectoryString::read_at(alloc, elem)?;
            return Ok(AttributeValue::DirectoryString(string));
        }
        if Ia5String::has_shape(elem) {
            let string = Ia5String::read_at(alloc, elem)?;
            return Ok(AttributeValue::Ia5String(string));
        }
        Ok(AttributeValue::Other(OtherValue::keep(alloc, elem)?))
    }

    fn write(&self, alloc: Global) -> Result<Tree, DerError> {
        match self {
            AttributeValue::DirectoryString(string) => string.write(alloc),
            AttributeValue::Ia5String(string) => string.write(alloc),
            AttributeValue::Other(value) => value.element().write(alloc),
        }
    }

    fn try_clone(&self, alloc: Global) -> Result<AttributeValue, AllocError> {
        Ok(match self {
            AttributeValue::DirectoryString(string) => {
                AttributeValue::DirectoryString(string.try_clone(alloc)?)
            }
            AttributeValue::Ia5String(string) => {
                AttributeValue::Ia5String(Structure::try_clone(string, alloc)?)
            }
            AttributeValue::Other(value) => AttributeValue::Other(value.try_clone(alloc)?),
        })
    }

    ghost grammar = { attribute_values };
}

/// Values are equal exactly if their encodings are.
impl PartialEq for AttributeValue {
    ghost use Rattle.der_core.specs.Equality.{same_octets};
    ghost use Rattle.der_core.specs.Facts.Equality.{same_octets_per};
    ghost use Rattle.name_types.specs.AttributeValue.{attribute_value};

    ghost eq = { same_octets attribute_value };

    ghost laws = { same_octets_per attribute_value };

    fn eq(&self, other: &AttributeValue) -> bool
        ensures octets { result ≡ same_octets attribute_value self.now other.now }
        ensures same { IsTrue result ↔ (self.now ≡ other.now) }
    {
        match (self, other) {
            (AttributeValue::DirectoryString(a), AttributeValue::DirectoryString(b)) => *a == *b,
            (AttributeValue::Ia5String(a), AttributeValue::Ia5String(b)) => *a == *b,
            (AttributeValue::Other(a), AttributeValue::Other(b)) => *a.element() == *b.element(),
            _ => false,
        }
    }
}

impl Eq for AttributeValue {
    ghost use Rattle.der_core.specs.Facts.Equality.{same_octets_equiv};
    ghost use Rattle.name_types.specs.AttributeValue.{attribute_value};

    ghost laws = { same_octets_equiv attribute_value };
}
