//! OCTET STRING as a structure (X.690 8.7).

ghost use Rattle.std.specs.Prelude.{◌≡◌};
ghost use Rattle.der_core.specs.Elements.{octet_string};
ghost use Rattle.der_core.specs.Facts.OctetStrings.{octet_strings};

use crate::elem::Elem;
use crate::error::DerError;
use crate::leaves::{leaf, leaf_at};
use crate::octets::Octets;
use crate::structure::Structure;
use crate::tag::OCTET_STRING;
use crate::tree::Tree;
use std::alloc::{AllocError, Global};

impl Structure for Octets {
    ghost written = { octet_string };

    ghost spells = { λ element octets. element ≡ octet_string octets };

    fn has_shape(elem: Elem<'_>) -> bool {
        match leaf_at(elem, OCTET_STRING) {
            Some(_) => true,
            None => false,
        }
    }

    fn read_at(alloc: Global, elem: Elem<'_>) -> Result<Octets, DerError> {
        match leaf_at(elem, OCTET_STRING) {
            Some(content) => Ok(Octets::from_slice(alloc, content)?),
            None => Err(DerError::Shape),
        }
    }

    fn write(&self, alloc: Global) -> Result<Tree, DerError> {
        Ok(leaf(alloc, OCTET_STRING, self.as_slice())?)
    }

    fn try_clone(&self, alloc: Global) -> Result<Octets, AllocError> {
        Octets::try_clone(self, alloc)
    }

    ghost grammar = { octet_strings };
}
