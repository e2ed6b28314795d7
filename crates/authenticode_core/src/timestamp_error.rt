//! Why a signature isn't timestamped.

ghost use Rattle.std.specs.Prelude.{◌≡◌, Some};
ghost use Rattle.authenticode_core.specs.ErrorText.{timestamp_error_text};
ghost use Rattle.authenticode_core.specs.StampRefusal.{stamp_refusal, token_refusal};
ghost use Rattle.authenticode_core.specs.declared.timestamp_error.TimestampError.TheVariants.{Memory};

use crate::pkcs7_error::Pkcs7Error;
use std::alloc::{AllocError, AllocFailed};
use std::fmt::{self, Display};
use thiserror::Error;
use x509_core::CertError;

/// Why a signature isn't timestamped.
#[derive(Debug, Drop, Error)]
pub enum TimestampError {
    /// The token isn't signed data. Never wraps `Memory`.
    Pkcs7Error(Pkcs7Error),
    /// A request, or the signer of the token, has no encoding. Never wraps `Memory`.
    Asn1DerError(CertError),
    /// The token, or the signed data, has no signer.
    TimestampTokenEmpty,
    /// Out of memory.
    Memory,
}

impl fmt::Display for TimestampError {
    ghost output = { λ error. Some (timestamp_error_text error) };

    fn fmt<W: fmt::Write>(&self, f: &mut fmt::Formatter<W>) -> fmt::Result {
        match self {
            TimestampError::Pkcs7Error(error) => error.fmt(f),
            TimestampError::Asn1DerError(error) => error.fmt(f),
            TimestampError::TimestampTokenEmpty => {
                write!(f, "the token or the signed data has no signer")
            }
            TimestampError::Memory => write!(f, "out of memory"),
        }
    }
}

/// Out of memory becomes `Memory`.
impl From<CertError> for TimestampError {
    ghost from_gives = { λ error e. e ≡ stamp_refusal error };

    fn from(error: CertError) -> TimestampError {
        match &error {
            CertError::Memory => TimestampError::Memory,
            _ => TimestampError::Asn1DerError(error),
        }
    }
}

/// Out of memory becomes `Memory`.
impl From<Pkcs7Error> for TimestampError {
    ghost from_gives = { λ error e. e ≡ token_refusal error };

    fn from(error: Pkcs7Error) -> TimestampError {
        match error {
            Pkcs7Error::Memory => TimestampError::Memory,
            error => TimestampError::Pkcs7Error(error),
        }
    }
}

impl From<AllocError> for TimestampError {
    ghost from_gives = { λ _ e. e ≡ Memory };

    fn from(_refused: AllocError) -> TimestampError {
        TimestampError::Memory
    }
}

impl<T: Drop> From<AllocFailed<T>> for TimestampError {
    ghost from_gives = { λ _ e. e ≡ Memory };

    fn from(_refused: AllocFailed<T>) -> TimestampError {
        TimestampError::Memory
    }
}
