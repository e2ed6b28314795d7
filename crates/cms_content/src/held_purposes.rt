//! Extended key usages in a string, stored raw.

ghost use Rattle.cms_content.specs.HeldPurposes.{ArePurposesIn};

use asn1_types::ObjectIdentifier;
use der_core::tag::OCTET_STRING;
use der_core::{
    DerError, Elem, ListOf, Octets, Structure, Tree, has_within, leaf, leaf_at, read_within,
};
use std::alloc::{AllocError, Global};

/// An OCTET STRING that contains the encoding of a SEQUENCE OF OBJECT IDENTIFIER, each an extended
/// key usage (RFC 5280 4.2.1.12). Its octets are stored raw.
#[derive(Debug, Drop)]
pub struct HeldPurposes {
    octets: Octets,
    purposes: ListOf<ObjectIdentifier>,
    pub ghost are: { ∥ ArePurposesIn octets purposes ∥₁ },
}

impl HeldPurposes {
    ghost use Rattle.std.specs.Prelude.{◌≡◌};

    /// The octets of the string.
    pub fn octets(&self) -> &[u8]
        ensures { result.now ≡ self.now.octets }
    {
        self.octets.as_slice()
    }

    /// The extended key usages in order.
    pub fn purposes(&self) -> &[ObjectIdentifier]
        ensures { result.now ≡ self.now.purposes }
    {
        self.purposes.as_slice()
    }
}

impl Structure for HeldPurposes {
    ghost use Rattle.std.specs.Prelude.{◌≡◌};
    ghost use Rattle.cms_content.specs.HeldPurposesElement.{held_purposes};
    ghost use Rattle.cms_content.specs.Facts.HeldPurposes.{all_held_purposes};

    ghost written = { held_purposes };

    ghost spells = { λ element value. element ≡ held_purposes value };

    fn has_shape(elem: Elem<'_>) -> bool {
        match leaf_at(elem, OCTET_STRING) {
            Some(octets) => has_within::<ListOf<ObjectIdentifier>>(octets),
            None => false,
        }
    }

    fn read_at(alloc: Global, elem: Elem<'_>) -> Result<HeldPurposes, DerError> {
        let Some(octets) = leaf_at(elem, OCTET_STRING) else {
            return Err(DerError::Shape);
        };
        let purposes = read_within(alloc, octets)?;
        let octets = Octets::from_slice(alloc, octets)?;
        Ok(HeldPurposes { octets, purposes })
    }

    fn write(&self, alloc: Global) -> Result<Tree, DerError> {
        Ok(leaf(alloc, OCTET_STRING, self.octets.as_slice())?)
    }

    fn try_clone(&self, alloc: Global) -> Result<HeldPurposes, AllocError> {
        Ok(HeldPurposes {
            octets: self.octets.try_clone(alloc)?,
            purposes: self.purposes.try_clone(alloc)?,
        })
    }

    ghost grammar = { all_held_purposes };
}
