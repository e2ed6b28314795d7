//! Algorithm identifiers.

ghost use Rattle.std.specs.Prelude.{◌≡◌, Some, IfOk, ◌↔◌, IsTrue};
ghost use Rattle.std.specs.Option.{option_copied};
ghost use Rattle.der_core.specs.Elements.{null};
ghost use Rattle.der_core.specs.BorrowedOption.{kept_option};

use crate::algorithm_fields::AlgorithmFields;
use asn1_types::ObjectIdentifier;
use der_core::tag::{NULL, SEQUENCE};
use der_core::{DerError, Elem, NewKids, Raw, Structure, Tree, leaf};
use std::alloc::{AllocError, Global};

/// An algorithm by its OID, with its parameters (RFC 5280 4.1.1.2).
#[derive(Debug, Drop)]
pub struct AlgorithmIdentifier {
    oid: ObjectIdentifier,
    parameters: Option<Raw>,
}

impl AlgorithmIdentifier {
    /// The algorithm with this OID and these parameters.
    pub fn new(oid: ObjectIdentifier, parameters: Option<Raw>) -> AlgorithmIdentifier
        ensures { (result.oid ≡ oid) × (result.parameters ≡ parameters) }
    {
        AlgorithmIdentifier { oid, parameters }
    }

    /// The algorithm with this OID and NULL parameters.
    pub fn with_null(
        alloc: Global,
        oid: ObjectIdentifier,
    ) -> Result<AlgorithmIdentifier, AllocError>
        ensures { IfOk result (λ a. (a.oid ≡ oid) × (kept_option a.parameters ≡ Some null)) }
    {
        let Ok(null) = Raw::from_tree(alloc, &leaf(alloc, NULL, &[])?) else {
            return Err(AllocError);
        };
        Ok(AlgorithmIdentifier {
            oid,
            parameters: Some(null),
        })
    }

    /// The OID of the algorithm.
    pub fn oid(&self) -> &ObjectIdentifier
        ensures { result.now ≡ self.now.oid }
    {
        &self.oid
    }

    /// The parameters of the algorithm, any element; `None` if they are absent.
    pub fn parameters(&self) -> Option<&Raw>
        ensures { option_copied result ≡ self.now.parameters }
    {
        self.parameters.as_ref()
    }
}

impl Structure for AlgorithmIdentifier {
    ghost use Rattle.key_types.specs.AlgorithmIdentifier.{algorithm_identifier};
    ghost use Rattle.key_types.specs.Facts.Algorithms.{algorithms};

    ghost written = { algorithm_identifier };

    ghost spells = { λ element a. element ≡ algorithm_identifier a };

    fn has_shape(elem: Elem<'_>) -> bool {
        match AlgorithmFields::of(elem) {
            Some(fields) => ObjectIdentifier::has_shape(fields.oid),
            None => false,
        }
    }

    fn read_at(alloc: Global, elem: Elem<'_>) -> Result<AlgorithmIdentifier, DerError> {
        let Some(fields) = AlgorithmFields::of(elem) else {
            return Err(DerError::Shape);
        };
        let oid = ObjectIdentifier::read_at(alloc, fields.oid)?;
        let parameters = match fields.parameters {
            Some(parameters) => Some(Raw::from_elem(alloc, parameters)?),
            None => None,
        };
        Ok(AlgorithmIdentifier { oid, parameters })
    }

    fn write(&self, alloc: Global) -> Result<Tree, DerError> {
        let mut kids = NewKids::new(alloc);
        kids.push(self.oid.write(alloc)?)?;
        if let Some(parameters) = &self.parameters {
            kids.push(parameters.write(alloc)?)?;
        }
        Ok(kids.into_branch(SEQUENCE))
    }

    fn try_clone(&self, alloc: Global) -> Result<AlgorithmIdentifier, AllocError> {
        let parameters = match &self.parameters {
            Some(parameters) => Some(parameters.try_clone(alloc)?),
            None => None,
        };
        Ok(AlgorithmIdentifier {
            oid: self.oid.try_clone(alloc)?,
            parameters,
        })
    }

    ghost grammar = { algorithms };
}

/// Algorithm identifiers are equal exactly if their encodings are.
impl PartialEq for AlgorithmIdentifier {
    ghost use Rattle.der_core.specs.Equality.{same_octets};
    ghost use Rattle.der_core.specs.Facts.Equality.{same_octets_per};
    ghost use Rattle.key_types.specs.AlgorithmIdentifier.{algorithm_identifier};

    ghost eq = { same_octets algorithm_identifier };

    ghost laws = { same_octets_per algorithm_identifier };

    fn eq(&self, other: &AlgorithmIdentifier) -> bool
        ensures octets { result ≡ same_octets algorithm_identifier self.now other.now }
        ensures same { IsTrue result ↔ (self.now ≡ other.now) }
    {
        self.oid == other.oid && self.parameters == other.parameters
    }
}

impl Eq for AlgorithmIdentifier {
    ghost use Rattle.der_core.specs.Facts.Equality.{same_octets_equiv};
    ghost use Rattle.key_types.specs.AlgorithmIdentifier.{algorithm_identifier};

    ghost laws = { same_octets_equiv algorithm_identifier };
}
