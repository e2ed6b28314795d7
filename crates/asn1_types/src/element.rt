//! The values as elements with their universal tags (X.690 8).

ghost use Rattle.std.specs.Prelude.{◌≡◌, []};

use crate::{BitString, GeneralizedTime, Ia5String, IntegerAsn1, ObjectIdentifier, UTCTime};
use der_core::tag::{
    BIT_STRING, GENERALIZED_TIME, IA5_STRING, INTEGER, OBJECT_IDENTIFIER, UTC_TIME,
};
use der_core::{DerError, Elem, Structure, Tree, leaf, leaf_at};
use std::alloc::{AllocError, Global};

impl Structure for ObjectIdentifier {
    ghost use Rattle.asn1_types.specs.Elements.{object_identifier};
    ghost use Rattle.asn1_types.specs.Facts.Elements.{identifiers};

    ghost written = { object_identifier };

    ghost spells = { λ element value. element ≡ object_identifier value };

    fn has_shape(elem: Elem<'_>) -> bool {
        match leaf_at(elem, OBJECT_IDENTIFIER) {
            Some(content) => ObjectIdentifier::is_content(content),
            None => false,
        }
    }

    fn read_at(alloc: Global, elem: Elem<'_>) -> Result<ObjectIdentifier, DerError> {
        match leaf_at(elem, OBJECT_IDENTIFIER) {
            Some(content) => ObjectIdentifier::from_content(alloc, content),
            None => Err(DerError::Shape),
        }
    }

    fn write(&self, alloc: Global) -> Result<Tree, DerError> {
        Ok(leaf(alloc, OBJECT_IDENTIFIER, self.as_bytes())?)
    }

    fn try_clone(&self, alloc: Global) -> Result<ObjectIdentifier, AllocError> {
        ObjectIdentifier::try_clone(self, alloc)
    }

    ghost grammar = { identifiers };
}

impl Structure for IntegerAsn1 {
    ghost use Rattle.asn1_types.specs.Elements.{integer};
    ghost use Rattle.asn1_types.specs.Facts.Elements.{integers};

    ghost written = { integer };

    ghost spells = { λ element value. element ≡ integer value };

    fn has_shape(elem: Elem<'_>) -> bool {
        match leaf_at(elem, INTEGER) {
            Some(content) => IntegerAsn1::is_content(content),
            None => false,
        }
    }

    fn read_at(alloc: Global, elem: Elem<'_>) -> Result<IntegerAsn1, DerError> {
        match leaf_at(elem, INTEGER) {
            Some(content) => IntegerAsn1::from_content(alloc, content),
            None => Err(DerError::Shape),
        }
    }

    fn write(&self, alloc: Global) -> Result<Tree, DerError> {
        Ok(leaf(alloc, INTEGER, self.as_signed_bytes_be())?)
    }

    fn try_clone(&self, alloc: Global) -> Result<IntegerAsn1, AllocError> {
        IntegerAsn1::try_clone(self, alloc)
    }

    ghost grammar = { integers };
}

impl Structure for Ia5String {
    ghost use Rattle.asn1_types.specs.Elements.{ia5_string};
    ghost use Rattle.asn1_types.specs.Facts.Elements.{ia5_strings};

    ghost written = { ia5_string };

    ghost spells = { λ element value. element ≡ ia5_string value };

    fn has_shape(elem: Elem<'_>) -> bool {
        match leaf_at(elem, IA5_STRING) {
            Some(content) => Ia5String::is_content(content),
            None => false,
        }
    }

    fn read_at(alloc: Global, elem: Elem<'_>) -> Result<Ia5String, DerError> {
        match leaf_at(elem, IA5_STRING) {
            Some(content) => Ia5String::from_content(alloc, content),
            None => Err(DerError::Shape),
        }
    }

    fn write(&self, alloc: Global) -> Result<Tree, DerError> {
        Ok(leaf(alloc, IA5_STRING, self.as_str().as_bytes())?)
    }

    fn try_clone(&self, alloc: Global) -> Result<Ia5String, AllocError> {
        Ia5String::try_clone(self, alloc)
    }

    ghost grammar = { ia5_strings };
}

impl Structure for BitString {
    ghost use Rattle.asn1_types.specs.Elements.{bit_string};
    ghost use Rattle.asn1_types.specs.Facts.Elements.{bit_strings};

    ghost written = { bit_string };

    ghost spells = { λ element value. element ≡ bit_string value };

    fn has_shape(elem: Elem<'_>) -> bool {
        match leaf_at(elem, BIT_STRING) {
            Some(content) => BitString::is_content(content),
            None => false,
        }
    }

    fn read_at(alloc: Global, elem: Elem<'_>) -> Result<BitString, DerError> {
        match leaf_at(elem, BIT_STRING) {
            Some(content) => BitString::from_content(alloc, content),
            None => Err(DerError::Shape),
        }
    }

    fn write(&self, alloc: Global) -> Result<Tree, DerError> {
        Ok(Tree::leaf(BIT_STRING, self.to_content(alloc)?))
    }

    fn try_clone(&self, alloc: Global) -> Result<BitString, AllocError> {
        BitString::try_clone(self, alloc)
    }

    ghost grammar = { bit_strings };
}

impl Structure for UTCTime {
    ghost use Rattle.asn1_types.specs.Elements.{utc_time};
    ghost use Rattle.asn1_types.specs.Facts.Elements.{utc_times};

    ghost written = { utc_time };

    ghost spells = { λ element time. element ≡ utc_time time };

    fn has_shape(elem: Elem<'_>) -> bool {
        match leaf_at(elem, UTC_TIME) {
            Some(content) => UTCTime::from_content(content).is_some(),
            None => false,
        }
    }

    fn read_at(_alloc: Global, elem: Elem<'_>) -> Result<UTCTime, DerError> {
        match leaf_at(elem, UTC_TIME) {
            Some(content) => UTCTime::from_content(content).ok_or(DerError::Shape),
            None => Err(DerError::Shape),
        }
    }

    fn write(&self, alloc: Global) -> Result<Tree, DerError> {
        Ok(leaf(alloc, UTC_TIME, &self.to_content())?)
    }

    fn try_clone(&self, _alloc: Global) -> Result<UTCTime, AllocError> {
        Ok(*self)
    }

    ghost grammar = { utc_times };
}

impl Structure for GeneralizedTime {
    ghost use Rattle.asn1_types.specs.Elements.{generalized_time};
    ghost use Rattle.asn1_types.specs.Facts.Elements.{generalized_times};

    ghost written = { generalized_time };

    ghost spells = { λ element time. element ≡ generalized_time time };

    fn has_shape(elem: Elem<'_>) -> bool {
        match leaf_at(elem, GENERALIZED_TIME) {
            Some(content) => GeneralizedTime::from_content(content).is_some(),
            None => false,
        }
    }

    fn read_at(_alloc: Global, elem: Elem<'_>) -> Result<GeneralizedTime, DerError> {
        match leaf_at(elem, GENERALIZED_TIME) {
            Some(content) => GeneralizedTime::from_content(content).ok_or(DerError::Shape),
            None => Err(DerError::Shape),
        }
    }

    fn write(&self, alloc: Global) -> Result<Tree, DerError> {
        Ok(leaf(alloc, GENERALIZED_TIME, &self.to_content())?)
    }

    fn try_clone(&self, _alloc: Global) -> Result<GeneralizedTime, AllocError> {
        Ok(*self)
    }

    ghost grammar = { generalized_times };
}
