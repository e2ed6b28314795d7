//! Errors of building a signature.

ghost use Rattle.std.specs.Prelude.{◌≡◌, Some};
ghost use Rattle.authenticode_signature.specs.BuilderError.{builder_error_text, builder_refusal, unwritten_in_builder};
ghost use Rattle.authenticode_signature.specs.declared.builder_error.AuthenticodeSignatureBuilderError.TheVariants as builder_errors;

use authenticode_core::AuthenticodeError;
use der_core::DerError;
use std::alloc::{AllocError, AllocFailed};
use std::fmt::{self, Display};
use thiserror::Error;

/// Why a signature isn't built, in the order of the checks, except for those in
/// `AuthenticodeError`.
#[derive(Debug, Drop, Error)]
pub enum AuthenticodeSignatureBuilderError {
    /// No digest algorithm is given.
    MissingDigestAlgorithm,
    /// No content is given.
    MissingContentInfo,
    /// No private key is given.
    MissingSigningKey,
    /// The issuer and the serial number of the signer's certificate aren't given.
    MissingIssuerAndSerialNumber,
    /// No certificates are given.
    MissingCertificatesRequired,
    /// The digest algorithm, the signer's certificate or the key can't sign. Never wraps `Memory`.
    AuthenticodeError(AuthenticodeError),
    /// The content or the attributes can't be written. Never wraps `Memory`.
    Asn1DerError(DerError),
    /// Out of memory.
    Memory,
}

impl fmt::Display for AuthenticodeSignatureBuilderError {
    ghost output = { λ error. Some (builder_error_text error) };

    fn fmt<W: fmt::Write>(&self, f: &mut fmt::Formatter<W>) -> fmt::Result {
        match self {
            AuthenticodeSignatureBuilderError::MissingDigestAlgorithm => {
                write!(f, "no digest algorithm is given")
            }
            AuthenticodeSignatureBuilderError::MissingContentInfo => {
                write!(f, "no content is given")
            }
            AuthenticodeSignatureBuilderError::MissingSigningKey => {
                write!(f, "no private key is given")
            }
            AuthenticodeSignatureBuilderError::MissingIssuerAndSerialNumber => {
                write!(f, "no issuer and no serial number are given")
            }
            AuthenticodeSignatureBuilderError::MissingCertificatesRequired => {
                write!(f, "no certificates are given")
            }
            AuthenticodeSignatureBuilderError::AuthenticodeError(error) => error.fmt(f),
            AuthenticodeSignatureBuilderError::Asn1DerError(error) => error.fmt(f),
            AuthenticodeSignatureBuilderError::Memory => write!(f, "out of memory"),
        }
    }
}

/// Out of memory is reported as such.
impl From<AuthenticodeError> for AuthenticodeSignatureBuilderError {
    ghost from_gives = { λ error e. e ≡ builder_refusal error };

    fn from(error: AuthenticodeError) -> AuthenticodeSignatureBuilderError {
        match &error {
            AuthenticodeError::Memory => AuthenticodeSignatureBuilderError::Memory,
            _ => AuthenticodeSignatureBuilderError::AuthenticodeError(error),
        }
    }
}

/// Out of memory is reported as such.
impl From<DerError> for AuthenticodeSignatureBuilderError {
    ghost from_gives = { λ error e. e ≡ unwritten_in_builder error };

    fn from(error: DerError) -> AuthenticodeSignatureBuilderError {
        match error {
            DerError::Memory => AuthenticodeSignatureBuilderError::Memory,
            error => AuthenticodeSignatureBuilderError::Asn1DerError(error),
        }
    }
}

impl From<AllocError> for AuthenticodeSignatureBuilderError {
    ghost from_gives = { λ _ e. e ≡ builder_errors.Memory };

    fn from(_refused: AllocError) -> AuthenticodeSignatureBuilderError {
        AuthenticodeSignatureBuilderError::Memory
    }
}

impl<T: Drop> From<AllocFailed<T>> for AuthenticodeSignatureBuilderError {
    ghost from_gives = { λ _ e. e ≡ builder_errors.Memory };

    fn from(_refused: AllocFailed<T>) -> AuthenticodeSignatureBuilderError {
        AuthenticodeSignatureBuilderError::Memory
    }
}
