//! Curve25519 and Curve448 algorithms by OID, supported or not.

ghost use Rattle.std.specs.Prelude.{◌≡◌, Some, IfOk};
ghost use Rattle.asn1_types.specs.Values.{identifier_contents};
ghost use Rattle.key_core.specs.NamedEdAlgorithm.{IsNamedEd, named_ed_identifier, named_ed_text};

use crate::ed_algorithm::EdAlgorithm;
use asn1_types::ObjectIdentifier;
use asn1_types::oids::{ED448, X448};
use std::alloc::{AllocError, Global};
use std::fmt;

/// An algorithm by its OID, which is borrowed where the algorithm isn't supported.
#[derive(Clone, Copy, Debug)]
pub enum NamedEdAlgorithm<'a> {
    Known(EdAlgorithm),
    /// Any other algorithm, such as Ed448 and X448.
    Unsupported(&'a ObjectIdentifier),
}

impl<'a> NamedEdAlgorithm<'a> {
    /// The OID of the algorithm.
    pub fn to_oid(&self, alloc: Global) -> Result<ObjectIdentifier, AllocError>
        ensures { IfOk result (λ oid. identifier_contents oid ≡ named_ed_identifier self.now) }
    {
        match self {
            NamedEdAlgorithm::Known(algorithm) => algorithm.to_oid(alloc),
            NamedEdAlgorithm::Unsupported(oid) => oid.try_clone(alloc),
        }
    }
}

/// A supported algorithm exactly where the OID names one.
impl<'a> From<&'a ObjectIdentifier> for NamedEdAlgorithm<'a> {
    ghost from_gives = { λ oid named. IsNamedEd oid.now named };

    fn from(oid: &'a ObjectIdentifier) -> NamedEdAlgorithm<'a> {
        match EdAlgorithm::named(oid.as_bytes()) {
            Some(algorithm) => NamedEdAlgorithm::Known(algorithm),
            None => NamedEdAlgorithm::Unsupported(oid),
        }
    }
}

impl<'a> fmt::Display for NamedEdAlgorithm<'a> {
    ghost output = { λ named. Some (named_ed_text named) };

    fn fmt<W: fmt::Write>(&self, f: &mut fmt::Formatter<W>) -> fmt::Result {
        match self {
            NamedEdAlgorithm::Known(algorithm) => write!(f, "{algorithm}"),
            NamedEdAlgorithm::Unsupported(oid) if oid.as_bytes() == ED448 => write!(f, "Ed448"),
            NamedEdAlgorithm::Unsupported(oid) if oid.as_bytes() == X448 => write!(f, "X448"),
            NamedEdAlgorithm::Unsupported(oid) => write!(f, "Unsupported(OID: {oid})"),
        }
    }
}
