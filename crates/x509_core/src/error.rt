//! Errors of certificates and of chains.

ghost use Rattle.std.specs.Prelude.{◌≡◌, ◌++◌, Some, codes};
ghost use Rattle.std.specs.Fmt.{WritesOnOk};
ghost use Rattle.x509_core.specs.ErrorText.{argument_text, extension_text, chain_error_text, cause_text, cert_error_text, expired_text, key_mismatch_text, not_yet_valid_text};
ghost use Rattle.x509_core.specs.CertRefusals.{unread, unwritten};
ghost use Rattle.x509_core.specs.declared.error.CertError.TheVariants.{Memory};

use crate::csr_error::CsrError;
use der_core::{DerError, Octets, write_hexadecimal};
use key_core::{Element, KeyError, KeyIdGenError, SignatureError};
use names_core::{DirectoryName, UtcDate};
use std::alloc::{AllocError, AllocFailed};
use std::fmt;
use thiserror::Error;

/// Why a certificate isn't read, written or made, lacks an extension, isn't valid, or isn't part of
/// a chain.
#[derive(Debug, Error)]
pub enum CertError {
    /// A certificate isn't made, for this cause.
    CertGeneration {
        source: CertCause,
    },
    /// The certificate with this subject is refused, for this cause.
    InvalidCertificate {
        id: DirectoryName,
        source: CertCause,
    },
    /// The value has no encoding: it is nested too deep, or some contents are too long. Never wraps
    /// `Memory`.
    Asn1Serialization {
        element: Element,
        source: DerError,
    },
    /// The octets are no element, or another structure. Never wraps `Memory`.
    Asn1Deserialization {
        element: Element,
        source: DerError,
    },
    /// The signature algorithm isn't known, or has no OID. Never wraps `Memory`.
    Signature {
        source: SignatureError,
    },
    /// A key has no key identifier. Never wraps `Memory`.
    KeyIdGen {
        source: KeyIdGenError,
    },
    /// The certificates are no chain.
    InvalidChain {
        source: CaChainError,
    },
    /// The request that a certificate was to be made from isn't accepted. Never wraps `Memory`.
    InvalidCsr {
        source: CsrError,
    },
    /// The certificate has no extension of this name.
    ExtensionNotFound {
        name: ExtName,
    },
    /// This argument is required, and wasn't given.
    MissingBuilderArgument {
        arg: Arg,
    },
    /// The validity of the certificate begins after `now`.
    CertificateNotYetValid {
        not_before: UtcDate,
        now: UtcDate,
    },
    /// The validity of the certificate ended before `now`.
    CertificateExpired {
        not_after: UtcDate,
        now: UtcDate,
    },
    /// The private key has no public key. Never wraps `Memory`.
    PrivateKeyToPublicKey {
        source: KeyError,
    },
    /// Out of memory.
    Memory,
}

/// By hand, so that dropping an error is a call: else each function that drops one is proved
/// through all its parts.
impl Drop for CertError {
    fn drop(self) {
        match self {
            CertError::CertGeneration { source: _source } => {}
            CertError::InvalidCertificate {
                id: _id,
                source: _source,
            } => {}
            CertError::Asn1Serialization {
                element: _element,
                source: _source,
            } => {}
            CertError::Asn1Deserialization {
                element: _element,
                source: _source,
            } => {}
            CertError::Signature { source: _source } => {}
            CertError::KeyIdGen { source: _source } => {}
            CertError::InvalidChain { source: _source } => {}
            CertError::InvalidCsr { source: _source } => {}
            CertError::ExtensionNotFound { name: _name } => {}
            CertError::MissingBuilderArgument { arg: _arg } => {}
            CertError::CertificateNotYetValid {
                not_before: _not_before,
                now: _now,
            } => {}
            CertError::CertificateExpired {
                not_after: _not_after,
                now: _now,
            } => {}
            CertError::PrivateKeyToPublicKey { source: _source } => {}
            CertError::Memory => {}
        }
    }
}

/// Why a certificate is refused or not made, each like the `CertError` of the same name.
#[derive(Debug, Drop, Error)]
pub enum CertCause {
    /// The value has no encoding: it is nested too deep, or some contents are too long. Never wraps
    /// `Memory`.
    Asn1Serialization { element: Element, source: DerError },
    /// The signature of the certificate isn't one by its parent's key, or isn't made. Never wraps
    /// `Memory`.
    Signature { source: SignatureError },
    /// A key has no key identifier. Never wraps `Memory`.
    KeyIdGen { source: KeyIdGenError },
    /// The certificates are no chain.
    InvalidChain { source: CaChainError },
    /// The certificate has no extension of this name.
    ExtensionNotFound { name: ExtName },
    /// The validity of the certificate begins after `now`.
    CertificateNotYetValid { not_before: UtcDate, now: UtcDate },
    /// The validity of the certificate ended before `now`.
    CertificateExpired { not_after: UtcDate, now: UtcDate },
}

/// Why certificates are no chain.
#[derive(Debug, Drop, Error)]
pub enum CaChainError {
    /// More certificates are between this one and the end of the path than its path length allows
    /// (RFC 5280 4.2.1.9).
    TooDeep {
        cert_id: DirectoryName,
        pathlen: u8,
    },
    /// The last certificate isn't a root.
    NoRoot,
    /// The parent isn't a CA certificate (RFC 5280 4.2.1.9).
    IssuerIsNotCA {
        issuer_id: DirectoryName,
    },
    /// The authority key identifier of the certificate, `expected`, isn't the subject key
    /// identifier of the parent, `actual` (RFC 5280 4.2.1.1).
    AuthorityKeyIdMismatch {
        expected: Octets,
        actual: Octets,
    },
    /// The issuer of the certificate, `expected`, isn't the subject of the parent, `actual` (RFC
    /// 5280 6.1.3).
    IssuerNameMismatch {
        expected: DirectoryName,
        actual: DirectoryName,
    },
}

/// An extension, as errors name it.
#[derive(Clone, Copy, Debug, PartialEq, Eq)]
pub enum ExtName {
    SubjectKeyIdentifier,
    AuthorityKeyIdentifier,
    BasicConstraints,
}

/// An argument of a validator or a builder.
#[derive(Clone, Copy, Debug, PartialEq, Eq)]
pub enum Arg {
    /// The date, or the interval.
    Now,
    /// The parents.
    Chain,
    /// The first second of the validity.
    ValidFrom,
    /// The last second of the validity.
    ValidTo,
    /// The name and the key of the issuer.
    IssuerInfos,
    /// The authority key identifier.
    AuthorityKeyIdentifier,
    /// The name and the key of the subject, or a request.
    SubjectInfos,
}

impl CertError {
    /// The error for octets that aren't read as the structure: out of memory as such, any other
    /// cause with the structure.
    pub fn unread(element: Element, source: DerError) -> CertError
        ensures { result ≡ unread element source }
    {
        match source {
            DerError::Memory => CertError::Memory,
            source => CertError::Asn1Deserialization { element, source },
        }
    }

    /// The error for a value that isn't written as the structure: out of memory as such, any other
    /// cause with the structure.
    pub fn unwritten(element: Element, source: DerError) -> CertError
        ensures { result ≡ unwritten element source }
    {
        match source {
            DerError::Memory => CertError::Memory,
            source => CertError::Asn1Serialization { element, source },
        }
    }
}

impl fmt::Display for ExtName {
    ghost output = { λ name. Some (extension_text name) };

    fn fmt<W: fmt::Write>(&self, f: &mut fmt::Formatter<W>) -> fmt::Result {
        match self {
            ExtName::SubjectKeyIdentifier => write!(f, "subject key identifier"),
            ExtName::AuthorityKeyIdentifier => write!(f, "authority key identifier"),
            ExtName::BasicConstraints => write!(f, "basic constraints"),
        }
    }
}

impl fmt::Display for Arg {
    ghost output = { λ argument. Some (argument_text argument) };

    fn fmt<W: fmt::Write>(&self, f: &mut fmt::Formatter<W>) -> fmt::Result {
        match self {
            Arg::Now => write!(f, "now"),
            Arg::Chain => write!(f, "chain"),
            Arg::ValidFrom => write!(f, "valid_from"),
            Arg::ValidTo => write!(f, "valid_to"),
            Arg::IssuerInfos => write!(f, "issuer_infos"),
            Arg::AuthorityKeyIdentifier => write!(f, "authority_key_identifier"),
            Arg::SubjectInfos => write!(f, "subject_infos"),
        }
    }
}

impl fmt::Display for CaChainError {
    ghost output = { λ error. Some (chain_error_text error) };

    fn fmt<W: fmt::Write>(&self, f: &mut fmt::Formatter<W>) -> fmt::Result {
        match self {
            CaChainError::TooDeep { cert_id, pathlen } => write!(
                f,
                "chain depth doesn't satisfy basic constraints extension: certificate '{cert_id}' has pathlen of {pathlen}"
            ),
            CaChainError::NoRoot => write!(f, "chain is missing a root certificate"),
            CaChainError::IssuerIsNotCA { issuer_id } => {
                write!(f, "issuer certificate '{issuer_id}' is not a CA")
            }
            CaChainError::AuthorityKeyIdMismatch { expected, actual } => {
                write_key_mismatch(expected.as_slice(), actual.as_slice(), f)
            }
            CaChainError::IssuerNameMismatch { expected, actual } => write!(
                f,
                "issuer name doesn't match (expected: {expected}, got: {actual})"
            ),
        }
    }
}

fn write_key_mismatch<W: fmt::Write>(
    expected: &[u8],
    actual: &[u8],
    f: &mut fmt::Formatter<W>,
) -> fmt::Result
    ensures { WritesOnOk W.write_str_gives f.old result (key_mismatch_text expected.now actual.now)
        f.new }
{
    f.write_str("authority key id doesn't match (expected: ")?;
    write_hexadecimal(expected, f)?;
    f.write_str(", got: ")?;
    write_hexadecimal(actual, f)?;
    f.write_str(")")
}

/// The text of `InvalidChain`.
fn write_chain<W: fmt::Write>(source: &CaChainError, f: &mut fmt::Formatter<W>) -> fmt::Result
    ensures { WritesOnOk W.write_str_gives f.old result
        (codes "CA chain error: " ++ chain_error_text source.now) f.new }
{
    write!(f, "CA chain error: {source}")
}

/// The text of `ExtensionNotFound`.
fn write_not_found<W: fmt::Write>(name: ExtName, f: &mut fmt::Formatter<W>) -> fmt::Result
    ensures { WritesOnOk W.write_str_gives f.old result
        (codes "extension not found: " ++ extension_text name) f.new }
{
    write!(f, "extension not found: {name}")
}

/// The text of `CertificateNotYetValid`.
fn write_not_yet_valid<W: fmt::Write>(
    not_before: &UtcDate,
    now: &UtcDate,
    f: &mut fmt::Formatter<W>,
) -> fmt::Result
    ensures { WritesOnOk W.write_str_gives f.old result (not_yet_valid_text not_before.now now.now)
        f.new }
{
    write!(
        f,
        "certificate is not yet valid (not before: {not_before}, now: {now})"
    )
}

/// The text of `CertificateExpired`.
fn write_expired<W: fmt::Write>(
    not_after: &UtcDate,
    now: &UtcDate,
    f: &mut fmt::Formatter<W>,
) -> fmt::Result
    ensures { WritesOnOk W.write_str_gives f.old result (expired_text not_after.now now.now) f.new }
{
    write!(
        f,
        "certificate expired (not after: {not_after}, now: {now})"
    )
}

impl fmt::Display for CertCause {
    ghost output = { λ error. Some (cause_text error) };

    fn fmt<W: fmt::Write>(&self, f: &mut fmt::Formatter<W>) -> fmt::Result {
        match self {
            CertCause::Asn1Serialization { element, source } => write!(
                f,
                "(ASN1) couldn't serialize {element}: {source}"
            ),
            CertCause::Signature { source } => write!(f, "signature error: {source}"),
            CertCause::KeyIdGen { source } => write!(f, "key id generation error: {source}"),
            CertCause::InvalidChain { source } => write_chain(source, f),
            CertCause::ExtensionNotFound { name } => write_not_found(*name, f),
            CertCause::CertificateNotYetValid { not_before, now } => {
                write_not_yet_valid(not_before, now, f)
            }
            CertCause::CertificateExpired { not_after, now } => write_expired(not_after, now, f),
        }
    }
}

impl fmt::Display for CertError {
    ghost output = { λ error. Some (cert_error_text error) };

    fn fmt<W: fmt::Write>(&self, f: &mut fmt::Formatter<W>) -> fmt::Result {
        match self {
            CertError::CertGeneration { source } => {
                write!(f, "couldn't generate certificate: {source}")
            }
            CertError::InvalidCertificate { id, source } => {
                write!(f, "invalid certificate '{id}': {source}")
            }
            CertError::Asn1Serialization { element, source } => write!(
                f,
                "(ASN1) couldn't serialize {element}: {source}"
            ),
            CertError::Asn1Deserialization { element, source } => write!(
                f,
                "(ASN1) couldn't deserialize {element}: {source}"
            ),
            CertError::Signature { source } => write!(f, "signature error: {source}"),
            CertError::KeyIdGen { source } => write!(f, "key id generation error: {source}"),
            CertError::InvalidChain { source } => write_chain(source, f),
            CertError::InvalidCsr { source } => write!(f, "CSR error: {source}"),
            CertError::ExtensionNotFound { name } => write_not_found(*name, f),
            CertError::MissingBuilderArgument { arg } => {
                write!(f, "missing required builder argument `{arg}`")
            }
            CertError::CertificateNotYetValid { not_before, now } => {
                write_not_yet_valid(not_before, now, f)
            }
            CertError::CertificateExpired { not_after, now } => write_expired(not_after, now, f),
            CertError::PrivateKeyToPublicKey { source } => write!(
                f,
                "failed to get public key from private key: {source}"
            ),
            CertError::Memory => write!(f, "out of memory"),
        }
    }
}

impl From<AllocError> for CertError {
    ghost from_gives = { λ _ e. e ≡ Memory };

    fn from(_refused: AllocError) -> CertError {
        CertError::Memory
    }
}

impl<T: Drop> From<AllocFailed<T>> for CertError {
    ghost from_gives = { λ _ e. e ≡ Memory };

    fn from(_refused: AllocFailed<T>) -> CertError {
        CertError::Memory
    }
}
