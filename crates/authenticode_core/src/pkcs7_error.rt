//! Why signed data isn't read or written.

ghost use Rattle.std.specs.Prelude.{◌≡◌, Some};
ghost use Rattle.authenticode_core.specs.ErrorText.{pkcs7_error_text};
ghost use Rattle.authenticode_core.specs.StampRefusal.{signed_data_refusal};
ghost use Rattle.authenticode_core.specs.declared.pkcs7_error.Pkcs7Error.TheVariants.{Memory};

use std::alloc::{AllocError, AllocFailed};
use std::fmt::{self, Display};
use thiserror::Error;
use x509_core::CertError;

/// Why signed data isn't read or written.
#[derive(Debug, Drop, Error)]
pub enum Pkcs7Error {
    /// The octets are no element, or not signed data; or the value has no encoding. Never wraps
    /// `Memory`.
    Cert(CertError),
    /// Out of memory.
    Memory,
}

impl fmt::Display for Pkcs7Error {
    ghost output = { λ error. Some (pkcs7_error_text error) };

    fn fmt<W: fmt::Write>(&self, f: &mut fmt::Formatter<W>) -> fmt::Result {
        match self {
            Pkcs7Error::Cert(error) => error.fmt(f),
            Pkcs7Error::Memory => write!(f, "out of memory"),
        }
    }
}

impl From<CertError> for Pkcs7Error {
    ghost from_gives = { λ error e. e ≡ signed_data_refusal error };

    fn from(error: CertError) -> Pkcs7Error {
        match &error {
            CertError::Memory => Pkcs7Error::Memory,
            _ => Pkcs7Error::Cert(error),
        }
    }
}

impl From<AllocError> for Pkcs7Error {
    ghost from_gives = { λ _ e. e ≡ Memory };

    fn from(_refused: AllocError) -> Pkcs7Error {
        Pkcs7Error::Memory
    }
}

impl<T: Drop> From<AllocFailed<T>> for Pkcs7Error {
    ghost from_gives = { λ _ e. e ≡ Memory };

    fn from(_refused: AllocFailed<T>) -> Pkcs7Error {
        Pkcs7Error::Memory
    }
}
