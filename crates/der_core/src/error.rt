//! Why octets aren't read, or a tree isn't written.

ghost use Rattle.std.specs.Prelude.{◌≡◌, Some};
ghost use Rattle.der_core.specs.ErrorText.{der_error_text};
ghost use Rattle.der_core.specs.declared.error.DerError.TheVariants as errors;

use crate::fault::Malformed;
use std::alloc::{AllocError, AllocFailed};
use std::fmt;
use thiserror::Error;

/// Why octets aren't read, or a tree isn't written.
#[derive(Clone, Copy, Debug, PartialEq, Eq, Error)]
pub enum DerError {
    /// The octets aren't a DER element (X.690).
    Malformed(Malformed),
    /// The element doesn't have the structure that is read.
    Shape,
    /// The tree to be written has more than 64 levels.
    TooDeep,
    /// Some contents in the tree to be written have more than 4,294,967,295 octets.
    TooLong,
    /// Out of memory.
    Memory,
}

impl fmt::Display for DerError {
    ghost output = { λ error. Some (der_error_text error) };

    fn fmt<W: fmt::Write>(&self, f: &mut fmt::Formatter<W>) -> fmt::Result {
        match self {
            DerError::Malformed(malformed) => write!(f, "malformed DER: {malformed}"),
            DerError::Shape => write!(
                f,
                "the element has another structure than the one that is read"
            ),
            DerError::TooDeep => write!(
                f,
                "the tree is nested deeper than 64 levels and cannot be written"
            ),
            DerError::TooLong => write!(
                f,
                "some contents of the tree pass 4294967295 octets and cannot be written"
            ),
            DerError::Memory => write!(f, "out of memory"),
        }
    }
}

impl From<Malformed> for DerError {
    ghost from_gives = { λ malformed e. e ≡ errors.Malformed malformed };

    fn from(malformed: Malformed) -> DerError {
        DerError::Malformed(malformed)
    }
}

impl From<AllocError> for DerError {
    ghost from_gives = { λ _ e. e ≡ errors.Memory };

    fn from(_refused: AllocError) -> DerError {
        DerError::Memory
    }
}

impl<T: Drop> From<AllocFailed<T>> for DerError {
    ghost from_gives = { λ _ e. e ≡ errors.Memory };

    fn from(_refused: AllocFailed<T>) -> DerError {
        DerError::Memory
    }
}
