//! Names of forms that an OID identifies.

ghost use Rattle.std.specs.Prelude.{◌≡◌, ◌≢◌, ◌↔◌, IsTrue, MatchOption};
ghost use Rattle.der_core.specs.DerElement.{DerElement};
ghost use Rattle.name_types.specs.GeneralName.{other_name_of};

use asn1_types::ObjectIdentifier;
use der_core::{DerError, Elem, NewKids, Raw, Structure, Tree, explicit, explicit_at, two_kids};
use std::alloc::{AllocError, Global};

pub(crate) const OTHER_NAME: u8 = 0xA0;

const VALUE: u8 = 0xA0;

/// A name of a form that an OID identifies, with any element as its value (RFC 5280 4.2.1.6). Its
/// element is the alternative \[0\] of GeneralName.
#[derive(Debug, Drop)]
pub struct OtherName {
    pub type_id: ObjectIdentifier,
    pub value: Raw,
}

/// The OID and the value in the element of an OtherName.
fn fields_of<'a>(elem: Elem<'a>) -> Option<(Elem<'a>, Elem<'a>)>
    ensures { MatchOption result
        ((type_id value : DerElement) → elem.entry.is.0 ≢ other_name_of type_id value)
        (λ fields. elem.entry.is.0 ≡ other_name_of fields.0.is.0 fields.1.is.0) }
{
    let (type_id, tagged) = two_kids(elem, OTHER_NAME)?;
    let value = explicit_at(tagged, VALUE)?;
    Some((type_id, value))
}

impl Structure for OtherName {
    ghost use Rattle.name_types.specs.GeneralName.{other_name};
    ghost use Rattle.name_types.specs.Facts.GeneralNames.{other_names};

    ghost written = { other_name };

    ghost spells = { λ element name. element ≡ other_name name };

    fn has_shape(elem: Elem<'_>) -> bool {
        match fields_of(elem) {
            Some((type_id, _)) => ObjectIdentifier::has_shape(type_id),
            None => false,
        }
    }

    fn read_at(alloc: Global, elem: Elem<'_>) -> Result<OtherName, DerError> {
        let Some((type_id, value)) = fields_of(elem) else {
            return Err(DerError::Shape);
        };
        let type_id = ObjectIdentifier::read_at(alloc, type_id)?;
        let value = Raw::from_elem(alloc, value)?;
        Ok(OtherName { type_id, value })
    }

    fn write(&self, alloc: Global) -> Result<Tree, DerError> {
        let mut kids = NewKids::new(alloc);
        kids.push(self.type_id.write(alloc)?)?;
        kids.push(explicit(alloc, VALUE, self.value.write(alloc)?)?)?;
        Ok(kids.into_branch(OTHER_NAME))
    }

    fn try_clone(&self, alloc: Global) -> Result<OtherName, AllocError> {
        Ok(OtherName {
            type_id: self.type_id.try_clone(alloc)?,
            value: self.value.try_clone(alloc)?,
        })
    }

    ghost grammar = { other_names };
}

/// Names are equal exactly if their encodings are.
impl PartialEq for OtherName {
    ghost use Rattle.der_core.specs.Equality.{same_octets};
    ghost use Rattle.der_core.specs.Facts.Equality.{same_octets_per};
    ghost use Rattle.name_types.specs.GeneralName.{other_name};

    ghost eq = { same_octets other_name };

    ghost laws = { same_octets_per other_name };

    fn eq(&self, other: &OtherName) -> bool
        ensures octets { result ≡ same_octets other_name self.now other.now }
        ensures same { IsTrue result ↔ (self.now ≡ other.now) }
    {
        self.type_id == other.type_id && self.value == other.value
    }
}

impl Eq for OtherName {
    ghost use Rattle.der_core.specs.Facts.Equality.{same_octets_equiv};
    ghost use Rattle.name_types.specs.GeneralName.{other_name};

    ghost laws = { same_octets_equiv other_name };
}
