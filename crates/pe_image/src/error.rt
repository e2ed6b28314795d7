//! Why a program is refused.

ghost use Rattle.std.specs.Prelude.{◌≡◌, IfOk, string_bytes, Some};
ghost use Rattle.pe_image.specs.RefusalName.{image_refusal_name, refusal_name};
ghost use Rattle.pe_image.specs.Refusals.{error_text, of_check};
ghost use Rattle.pe_image.specs.declared.error.PeCheckError.TheVariants.{Memory};

use authenticode_core::CheckError;
use pe_core::PeError;
use std::alloc::{AllocError, Global};
use std::fmt;
use thiserror::Error;

/// Why a program is refused.
#[derive(Debug, Drop, Error)]
pub enum PeCheckError {
    /// The file is no image with a certificate table at its end.
    Pe(PeError),
    /// The signature in the certificate table is refused. Never wraps `Memory`.
    Check(CheckError),
    /// Out of memory.
    Memory,
}

impl PeCheckError {
    /// The name of the refusal, as a report prints it: that of the variant of the wrapped error.
    pub fn name(&self, alloc: Global) -> Result<String, AllocError>
        ensures { IfOk result (λ name. string_bytes name ≡ refusal_name self.now) }
    {
        match self {
            PeCheckError::Pe(error) => String::from_str(alloc, image_refusal_name(error)),
            PeCheckError::Check(error) => error.name(alloc),
            PeCheckError::Memory => String::from_str(alloc, "Memory"),
        }
    }
}

/// The name of the variant.
fn image_refusal_name(error: &PeError) -> &'static str
    ensures { result.now ≡ image_refusal_name error.now }
{
    match error {
        PeError::NotMz => "NotMz",
        PeError::NotPe => "NotPe",
        PeError::WrongMagic { .. } => "WrongMagic",
        PeError::NoDirectory => "NoDirectory",
        PeError::NoTable => "NoTable",
        PeError::TableOutside { .. } => "TableOutside",
    }
}

impl fmt::Display for PeCheckError {
    ghost output = { λ error. Some (error_text error) };

    fn fmt<W: fmt::Write>(&self, f: &mut fmt::Formatter<W>) -> fmt::Result {
        match self {
            PeCheckError::Pe(error) => error.fmt(f),
            PeCheckError::Check(error) => error.fmt(f),
            PeCheckError::Memory => write!(f, "out of memory"),
        }
    }
}

/// Out of memory becomes `Memory`.
impl From<CheckError> for PeCheckError {
    ghost from_gives = { λ error e. e ≡ of_check error };

    fn from(error: CheckError) -> PeCheckError {
        match error {
            CheckError::Memory => PeCheckError::Memory,
            error => PeCheckError::Check(error),
        }
    }
}

impl From<AllocError> for PeCheckError {
    ghost from_gives = { λ _ e. e ≡ Memory };

    fn from(_error: AllocError) -> PeCheckError {
        PeCheckError::Memory
    }
}
