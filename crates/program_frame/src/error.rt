//! Why a file wasn't read.

ghost use Rattle.std.specs.Prelude.{◌≡◌, Some};
ghost use Rattle.program_frame.specs.ErrorText.{file_error_text};
ghost use Rattle.program_frame.specs.declared.error.FileError.TheVariants.{Fault, Memory};

use crate::Failed;
use std::alloc::{AllocError, AllocFailed};
use std::fmt;
use thiserror::Error;

/// Why a file wasn't read.
#[derive(Clone, Copy, Debug, PartialEq, Eq, Error)]
pub enum FileError {
    /// The shelf failed, or has no file of this name.
    Fault,
    /// The file is longer than 16,777,216 octets.
    TooLong,
    /// Out of memory.
    Memory,
}

impl fmt::Display for FileError {
    ghost output = { λ error. Some (file_error_text error) };

    fn fmt<W: fmt::Write>(&self, f: &mut fmt::Formatter<W>) -> fmt::Result {
        match self {
            FileError::Fault => write!(f, "the file can't be read"),
            FileError::TooLong => write!(f, "the file has more than 16777216 octets"),
            FileError::Memory => write!(f, "out of memory"),
        }
    }
}

impl From<Failed> for FileError {
    ghost from_gives = { λ _ e. e ≡ Fault };

    fn from(_: Failed) -> Self {
        FileError::Fault
    }
}

impl From<AllocError> for FileError {
    ghost from_gives = { λ _ e. e ≡ Memory };

    fn from(_: AllocError) -> Self {
        FileError::Memory
    }
}

impl<T: Drop> From<AllocFailed<T>> for FileError {
    ghost from_gives = { λ _ e. e ≡ Memory };

    fn from(_: AllocFailed<T>) -> Self {
        FileError::Memory
    }
}
