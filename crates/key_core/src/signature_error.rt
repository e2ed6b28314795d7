//! Errors of signing and verifying.

ghost use Rattle.std.specs.Prelude.{◌≡◌, Some};
ghost use Rattle.key_core.specs.SignatureErrorText.{sig_context_text, unsupported_text, signature_error_text};
ghost use Rattle.key_core.specs.SignatureRules.{key_refusal};
ghost use Rattle.key_core.specs.declared.signature_error.SignatureError.TheVariants.{Memory};

use crate::ec_curve::EcCurve;
use crate::error::{KeyError, write_parts};
use asn1_types::ObjectIdentifier;
use sig_core::HashAlgorithm;
use std::alloc::{AllocError, AllocFailed};
use std::fmt;
use thiserror::Error;

/// Why a signature isn't made or accepted, or a signature algorithm isn't read or written.
#[derive(Debug, PartialEq, Eq, Drop, Error)]
pub enum SignatureError {
    /// The key doesn't fit the algorithm, or can't be written. Never wraps `Memory`.
    Key { source: KeyError },
    /// An RSA signature can't be made or verified.
    Rsa { context: SigContext },
    /// An ECDSA signature can't be made or verified, or its algorithm has no OID.
    Ec { context: SigContext },
    /// An Ed25519 signature can't be made or verified.
    Ed { context: SigContext },
    /// The signature isn't one of the message by the key.
    BadSignature,
    /// The algorithm isn't known, or not used with the key.
    UnsupportedAlgorithm { algorithm: Unsupported },
    /// Out of memory.
    Memory,
}

/// Why a signature can't be made or verified.
#[derive(Clone, Copy, Debug, PartialEq, Eq)]
pub enum SigContext {
    /// The scheme doesn't sign with the key.
    SchemeRefused,
    /// No signature of the algorithm has this form.
    Malformed,
    /// ECDSA has no OID for the digest algorithm here.
    HashNotSupported,
    /// The key hasn't 32 octets.
    KeySize,
    /// The key is for key agreement.
    NotForSigning,
}

/// An algorithm that isn't known, or not used with the key.
#[derive(Debug, PartialEq, Eq, Drop)]
pub enum Unsupported {
    /// The OID of no known signature algorithm.
    Oid(ObjectIdentifier),
    /// ECDSA isn't used with the digest algorithm.
    Hash(HashAlgorithm),
    /// Keys on the curve don't sign such digests.
    Pairing(EcCurve, HashAlgorithm),
}

impl SigContext {
    /// The text of the context.
    fn text(self) -> &'static str
        ensures { result.now ≡ sig_context_text self }
    {
        match self {
            SigContext::SchemeRefused => "the signature scheme refused",
            SigContext::Malformed => "the signature is malformed",
            SigContext::HashNotSupported => "the digest algorithm isn't supported",
            SigContext::KeySize => "the key hasn't 32 octets",
            SigContext::NotForSigning => "the key isn't one for signatures",
        }
    }
}

impl fmt::Display for SigContext {
    ghost output = { λ context. Some (sig_context_text context) };

    fn fmt<W: fmt::Write>(&self, f: &mut fmt::Formatter<W>) -> fmt::Result {
        f.write_str(self.text())
    }
}

impl fmt::Display for Unsupported {
    ghost output = { λ algorithm. Some (unsupported_text algorithm) };

    fn fmt<W: fmt::Write>(&self, f: &mut fmt::Formatter<W>) -> fmt::Result {
        match self {
            Unsupported::Oid(oid) => write!(f, "{oid}"),
            Unsupported::Hash(hash) => f.write_str(hash.name()),
            Unsupported::Pairing(curve, hash) => write!(f, "{curve} with {}", hash.name()),
        }
    }
}

impl fmt::Display for SignatureError {
    ghost output = { λ error. Some (signature_error_text error) };

    fn fmt<W: fmt::Write>(&self, f: &mut fmt::Formatter<W>) -> fmt::Result {
        match self {
            SignatureError::Key { source } => write!(f, "Key error: {source}"),
            SignatureError::Rsa { context } => write_parts("RSA error: ", context.text(), f),
            SignatureError::Ec { context } => write_parts("EC error: ", context.text(), f),
            SignatureError::Ed { context } => write_parts("ED error: ", context.text(), f),
            SignatureError::BadSignature => f.write_str("invalid signature"),
            SignatureError::UnsupportedAlgorithm { algorithm } => {
                write!(f, "unsupported algorithm: {algorithm}")
            }
            SignatureError::Memory => f.write_str("out of memory"),
        }
    }
}

/// The variant that wraps the error, and `Memory` for `Memory`.
impl From<KeyError> for SignatureError {
    ghost from_gives = { λ source e. e ≡ key_refusal source };

    fn from(source: KeyError) -> SignatureError {
        match source {
            KeyError::Memory => SignatureError::Memory,
            source => SignatureError::Key { source },
        }
    }
}

impl From<AllocError> for SignatureError {
    ghost from_gives = { λ _ e. e ≡ Memory };

    fn from(_refused: AllocError) -> SignatureError {
        SignatureError::Memory
    }
}

impl<T: Drop> From<AllocFailed<T>> for SignatureError {
    ghost from_gives = { λ _ e. e ≡ Memory };

    fn from(_refused: AllocFailed<T>) -> SignatureError {
        SignatureError::Memory
    }
}
