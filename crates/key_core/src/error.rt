//! Errors of reading, making and writing keys.

ghost use Rattle.std.specs.Prelude.{◌≡◌, ◌++◌, Some};
ghost use Rattle.std.specs.Fmt.{WritesOnOk};
ghost use Rattle.key_core.specs.ErrorText.{element_error_text, context_text, kind_text, key_error_text};
ghost use Rattle.key_core.specs.KeyRefusals.{unread, unwritten};
ghost use Rattle.key_core.specs.declared.error.KeyError.TheVariants.{Memory};

use crate::element::Element;
use der_core::DerError;
use key_types::KeyKind;
use std::alloc::{AllocError, AllocFailed};
use std::fmt;
use thiserror::Error;

/// Why a key isn't read, made or written.
#[derive(Clone, Copy, Debug, PartialEq, Eq, Error)]
pub enum KeyError {
    /// The value has no encoding: it is nested too deep, or some contents are too long. Never wraps
    /// `Memory`.
    Asn1Serialization { element: Element, source: DerError },
    /// The octets are no element, or another structure. Never wraps `Memory`.
    Asn1Deserialization { element: Element, source: DerError },
    /// An RSA key isn't available.
    Rsa { context: KeyContext },
    /// An EC key isn't available.
    EC { context: KeyContext },
    /// A Curve25519 or Curve448 key isn't available.
    ED { context: KeyContext },
    /// Keys of this kind aren't used that way.
    UnsupportedAlgorithm { algorithm: KeyKind },
    /// Out of memory.
    Memory,
}

/// Why a key isn't available.
#[derive(Clone, Copy, Debug, PartialEq, Eq)]
pub enum KeyContext {
    /// The key isn't an RSA key.
    NotRsa,
    /// The key isn't an EC key.
    NotEc,
    /// The key isn't a Curve25519 or Curve448 key.
    NotEd,
    /// The parameters of an EC key name no curve.
    CurveParameters,
    /// An EC key names no curve.
    CurveMissing,
    /// The size of a coordinate isn't that of the curve's field.
    CoordinateSize,
    /// The size of a secret isn't that of its curve's field, or that of its algorithm.
    SecretSize,
    /// The curve is none of P-256, P-384 and P-521.
    UnsupportedCurve,
    /// The Curve25519 or Curve448 algorithm isn't supported, or not used that way.
    UnsupportedEd,
    /// The private key has no public key.
    PublicKeyMissing,
    /// The scheme derives no public key.
    SchemeRefused,
}

impl KeyError {
    /// The error for octets that aren't read as the structure.
    pub(crate) fn unread(element: Element, source: DerError) -> KeyError
        ensures { result ≡ unread element source }
    {
        match source {
            DerError::Memory => KeyError::Memory,
            source => KeyError::Asn1Deserialization { element, source },
        }
    }

    /// The error for a value that isn't written as the structure.
    pub(crate) fn unwritten(element: Element, source: DerError) -> KeyError
        ensures { result ≡ unwritten element source }
    {
        match source {
            DerError::Memory => KeyError::Memory,
            source => KeyError::Asn1Serialization { element, source },
        }
    }
}

/// The name of a kind of keys.
fn kind_name(kind: KeyKind) -> &'static str
    ensures { result.now ≡ kind_text kind }
{
    match kind {
        KeyKind::Rsa => "RSA",
        KeyKind::Ec => "EC",
        KeyKind::Ed => "ED",
        KeyKind::Mldsa => "ML-DSA",
    }
}

impl KeyContext {
    /// The text of the context.
    fn text(self) -> &'static str
        ensures { result.now ≡ context_text self }
    {
        match self {
            KeyContext::NotRsa => "the key is of another kind than RSA",
            KeyContext::NotEc => "the key is of another kind than one of an elliptic curve",
            KeyContext::NotEd => "the key is of another kind than one of a curve 25519 or 448",
            KeyContext::CurveParameters => "the parameters name no curve",
            KeyContext::CurveMissing => "the key names no curve",
            KeyContext::CoordinateSize => {
                "a coordinate hasn't as many octets as the field of the curve"
            }
            KeyContext::SecretSize => {
                "the secret hasn't as many octets as its curve or algorithm asks for"
            }
            KeyContext::UnsupportedCurve => "the curve isn't supported",
            KeyContext::UnsupportedEd => "the algorithm on a curve 25519 or 448 isn't supported",
            KeyContext::PublicKeyMissing => "the private key has no public key",
            KeyContext::SchemeRefused => "the signature scheme derives no public key",
        }
    }
}

impl fmt::Display for KeyContext {
    ghost output = { λ context. Some (context_text context) };

    fn fmt<W: fmt::Write>(&self, f: &mut fmt::Formatter<W>) -> fmt::Result {
        f.write_str(self.text())
    }
}

/// The text of an error with two parts.
pub(crate) fn write_parts<W: fmt::Write>(
    head: &str,
    rest: &str,
    f: &mut fmt::Formatter<W>,
) -> fmt::Result
    ensures { WritesOnOk W.write_str_gives f.old result (head.now ++ rest.now) f.new }
{
    f.write_str(head)?;
    f.write_str(rest)
}

/// The text of an element that isn't read or written, with the cause.
pub(crate) fn write_element<W: fmt::Write>(
    head: &str,
    element: Element,
    source: &DerError,
    f: &mut fmt::Formatter<W>,
) -> fmt::Result
    ensures { WritesOnOk W.write_str_gives f.old result
        (element_error_text head.now element source.now) f.new }
{
    write!(f, "{head}{element}: {source}")
}

impl fmt::Display for KeyError {
    ghost output = { λ error. Some (key_error_text error) };

    fn fmt<W: fmt::Write>(&self, f: &mut fmt::Formatter<W>) -> fmt::Result {
        match self {
            KeyError::Asn1Serialization { element, source } => {
                write_element("(ASN1) couldn't serialize ", *element, source, f)
            }
            KeyError::Asn1Deserialization { element, source } => {
                write_element("(ASN1) couldn't deserialize ", *element, source, f)
            }
            KeyError::Rsa { context } => write_parts("RSA error: ", context.text(), f),
            KeyError::EC { context } => write_parts("EC error: ", context.text(), f),
            KeyError::ED { context } => write_parts("ED error: ", context.text(), f),
            KeyError::UnsupportedAlgorithm { algorithm } => {
                write_parts("unsupported algorithm: ", kind_name(*algorithm), f)
            }
            KeyError::Memory => f.write_str("out of memory"),
        }
    }
}

impl From<AllocError> for KeyError {
    ghost from_gives = { λ _ e. e ≡ Memory };

    fn from(_refused: AllocError) -> KeyError {
        KeyError::Memory
    }
}

impl<T: Drop> From<AllocFailed<T>> for KeyError {
    ghost from_gives = { λ _ e. e ≡ Memory };

    fn from(_refused: AllocFailed<T>) -> KeyError {
        KeyError::Memory
    }
}
