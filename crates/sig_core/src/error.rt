//! Why a digest algorithm isn't supported.

ghost use Rattle.std.specs.Prelude.{Some};
ghost use Rattle.sig_core.specs.ErrorText.{unsupported_hash_text, unsupported_algorithm_text};

use crate::hash::HashAlgorithm;
use std::fmt;
use thiserror::Error;

/// A digest algorithm that isn't converted between `HashAlgorithm` and `ShaVariant`: SHA-224. Both
/// types have it, it has an OID, and RSA signatures may be made with it.
#[derive(Clone, Copy, PartialEq, Eq, Debug, Error)]
pub struct UnsupportedHashAlgorithmError {
    /// The algorithm.
    pub algorithm: HashAlgorithm,
}

impl fmt::Display for UnsupportedHashAlgorithmError {
    ghost output = { λ error. Some (unsupported_hash_text error) };

    fn fmt<W: fmt::Write>(&self, f: &mut fmt::Formatter<W>) -> fmt::Result {
        write!(f, "digests by {} are not supported", self.algorithm.name())
    }
}

/// The OID isn't that of a digest algorithm.
#[derive(Clone, Copy, PartialEq, Eq, Debug, Error)]
pub struct UnsupportedAlgorithmError;

impl fmt::Display for UnsupportedAlgorithmError {
    ghost output = { λ _. Some unsupported_algorithm_text };

    fn fmt<W: fmt::Write>(&self, f: &mut fmt::Formatter<W>) -> fmt::Result {
        write!(f, "the OID names no supported digest algorithm")
    }
}
