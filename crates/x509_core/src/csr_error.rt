//! Errors of certification requests.

ghost use Rattle.std.specs.Prelude.{◌≡◌, Some};
ghost use Rattle.x509_core.specs.CsrErrorText.{csr_error_text};
ghost use Rattle.x509_core.specs.declared.csr_error.CsrError.TheVariants.{Memory};

use der_core::DerError;
use key_core::{Element, KeyError, SignatureError};
use std::alloc::{AllocError, AllocFailed};
use std::fmt;
use thiserror::Error;

/// Why a request isn't read, written, accepted or made. Out of memory is always `Memory`.
#[derive(Debug, Drop, Error)]
pub enum CsrError {
    /// The value has no encoding: it is nested too deep, or some contents are too long.
    Asn1Serialization { element: Element, source: DerError },
    /// The octets are no element, or another structure.
    Asn1Deserialization { element: Element, source: DerError },
    /// The signature isn't accepted, or isn't made.
    Signature { source: SignatureError },
    /// The private key has no public key.
    PrivateKeyToPublicKey { source: KeyError },
    /// Out of memory.
    Memory,
}

impl fmt::Display for CsrError {
    ghost output = { λ error. Some (csr_error_text error) };

    fn fmt<W: fmt::Write>(&self, f: &mut fmt::Formatter<W>) -> fmt::Result {
        match self {
            CsrError::Asn1Serialization { element, source } => write!(
                f,
                "(ASN1) couldn't serialize {element}: {source}"
            ),
            CsrError::Asn1Deserialization { element, source } => write!(
                f,
                "(ASN1) couldn't deserialize {element}: {source}"
            ),
            CsrError::Signature { source } => write!(f, "signature error: {source}"),
            CsrError::PrivateKeyToPublicKey { source } => write!(
                f,
                "failed to get public key from private key: {source}"
            ),
            CsrError::Memory => write!(f, "out of memory"),
        }
    }
}

impl From<AllocError> for CsrError {
    ghost from_gives = { λ _ e. e ≡ Memory };

    fn from(_refused: AllocError) -> CsrError {
        CsrError::Memory
    }
}

impl<T: Drop> From<AllocFailed<T>> for CsrError {
    ghost from_gives = { λ _ e. e ≡ Memory };

    fn from(_refused: AllocFailed<T>) -> CsrError {
        CsrError::Memory
    }
}
