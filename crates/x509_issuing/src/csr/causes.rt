//! The errors of requests, by the step that fails.

ghost use Rattle.std.specs.Prelude.{◌≡◌};
ghost use Rattle.x509_issuing.specs.CsrRefusals.{unread_csr, unwritten_csr, unsigned as unsigned_csr, keyless as keyless_csr};

use der_core::DerError;
use key_core::{Element, KeyError, SignatureError};
use x509_core::CsrError;

/// The error for octets that aren't read as the structure.
pub(super) fn unread(element: Element, source: DerError) -> CsrError
    ensures { result ≡ unread_csr element source }
{
    match source {
        DerError::Memory => CsrError::Memory,
        source => CsrError::Asn1Deserialization { element, source },
    }
}

/// The error for a value that isn't written as the structure.
pub(super) fn unwritten(element: Element, source: DerError) -> CsrError
    ensures { result ≡ unwritten_csr element source }
{
    match source {
        DerError::Memory => CsrError::Memory,
        source => CsrError::Asn1Serialization { element, source },
    }
}

/// The error for a signature that isn't accepted or made.
pub(super) fn unsigned(source: SignatureError) -> CsrError
    ensures { result ≡ unsigned_csr source }
{
    match source {
        SignatureError::Memory => CsrError::Memory,
        source => CsrError::Signature { source },
    }
}

/// The error for a private key without a public key.
pub(super) fn keyless(source: KeyError) -> CsrError
    ensures { result ≡ keyless_csr source }
{
    match source {
        KeyError::Memory => CsrError::Memory,
        source => CsrError::PrivateKeyToPublicKey { source },
    }
}
