//! Why a signature is refused.

ghost use Rattle.std.specs.Prelude.{◌≡◌, IfOk, string_bytes, Some};
ghost use Rattle.std.specs.Fmt.{WritesOnOk};
ghost use Rattle.authenticode_core.specs.ErrorText.{check_error_text, content_error_text, file_mismatch_text, mismatch_text, unnamed_text};
ghost use Rattle.authenticode_core.specs.ContentRefusal.{of_certificates, of_char_set, of_ctl, of_der, of_signatures, of_content, of_header};
ghost use Rattle.authenticode_core.specs.RefusalName.{content_refusal_name, header_refusal_name, refusal_name, variant_name};
ghost use Rattle.authenticode_core.specs.TrustList.{of_listing};
ghost use Rattle.authenticode_core.specs.declared.error.CheckError.TheVariants.{Memory};
ghost use Rattle.authenticode_core.specs.declared.error.AuthenticodeError.TheVariants as contents;

use crate::ctl_error::CtlError;
use crate::timestamp_error::TimestampError;
use asn1_types::{CharSetError, IntegerAsn1};
use cms_content::ListingError;
use der_core::{DerError, Octets, write_hexadecimal};
use key_core::SignatureError;
use names_core::DirectoryName;
use sig_core::{UnsupportedAlgorithmError, UnsupportedHashAlgorithmError};
use std::alloc::{AllocError, AllocFailed, Global};
use std::fmt::{self, Display};
use thiserror::Error;
use wincert_core::WinCertificateError;
use x509_core::CertError;

/// Why signed data is refused, in the order of the checks (Windows Authenticode Portable Executable
/// Signature Format).
#[derive(Debug, Error)]
pub enum AuthenticodeError {
    /// The octets are no element, or not signed data; or the certificate of the signer isn't valid
    /// or not vouched for. Never wraps `Memory`.
    CertError(CertError),
    /// The version of the signed data isn't 1.
    IncorrectVersion {
        expected: u8,
        got: u8,
    },
    /// The number of signers isn't one.
    MultipleSignerInfo {
        count: usize,
    },
    /// The number of digest algorithms isn't one.
    IncorrectDigestAlgorithmsCount {
        incorrect_count: usize,
    },
    /// The content is absent.
    NoEncapsulatedContentInfo,
    /// The content isn't indirect data.
    NoSpcIndirectDataContent,
    /// The digest algorithm of the content, or that of the signer, isn't that of the signed data.
    DigestAlgorithmMismatch,
    /// No digest of the file is given.
    MissingExpectedFileHash,
    /// The digest of the file in the content, `actual`, isn't the expected one.
    FileHashMismatch {
        actual: Octets,
        expected: Octets,
    },
    /// The signer is identified by a key identifier, not by an issuer and a serial number.
    IncorrectSignerIdentifier,
    /// No certificate in the bag has the issuer and the serial number of the signer.
    NoCertificatesAssociatedWithIssuerAndSerialNumber {
        issuer: DirectoryName,
        serial_number: IntegerAsn1,
    },
    /// The digest algorithm of the signer isn't known.
    UnsupportedAlgorithmError(UnsupportedAlgorithmError),
    /// The signature of the signer isn't accepted under its key. Never wraps `Memory`.
    SignatureError(SignatureError),
    /// The signed attributes have no message digest.
    NoMessageDigest,
    /// The digest algorithm of the signer is SHA-224.
    UnsupportedHashAlgorithmError(UnsupportedHashAlgorithmError),
    /// The message digest, `actual`, isn't the digest of the content.
    HashMismatch {
        actual: Octets,
        expected: Octets,
    },
    /// The signer's certificate lacks the extended key usage code signing, and some certificate of
    /// its issuer walk has an extended key usage.
    NoEKUCodeSigning,
    /// The signer's certificate has expired, and the first certificate of the token that would
    /// excuse it isn't linked to the others with another subject. Never wraps `Memory`.
    InvalidTimestampCert(CertError),
    /// The list isn't a trust list, or its entry for the CA is malformed. Never wraps `Memory`.
    CtlError(CtlError),
    /// The CA of the signer, or of the token that would excuse its expiry, isn't on the trust list.
    CAIsNotTrusted,
    /// The trust list revokes it.
    CaCertificateRevoked,
    /// The trust list has it until `not_after`. Both in whole seconds since 1601-01-01, UTC.
    CaCertificateExpired {
        not_after: i64,
        now: i64,
    },
    /// The trust list has it from `not_before` on. Both in whole seconds since 1601-01-01, UTC.
    CaCertificateNotYetValid {
        not_before: i64,
        now: i64,
    },
    /// The name of a program has a character past U+FFFF.
    ProgramNameCharSet,
    /// No certificate could be the signer's.
    NoCertificates,
    /// The octets to sign, or the signed data, have no encoding. Never wraps `Memory`.
    Asn1DerError(DerError),
    /// No time stamp was obtained or added. Never wraps `Memory`.
    TimestampError(TimestampError),
    /// Out of memory.
    Memory,
}

/// By hand, so that dropping an error is a call: else each function that drops one is proved
/// through all its parts.
impl Drop for AuthenticodeError {
    fn drop(self) {
        match self {
            AuthenticodeError::CertError(_held) => {}
            AuthenticodeError::IncorrectVersion {
                expected: _expected,
                got: _got,
            } => {}
            AuthenticodeError::MultipleSignerInfo { count: _count } => {}
            AuthenticodeError::IncorrectDigestAlgorithmsCount {
                incorrect_count: _incorrect_count,
            } => {}
            AuthenticodeError::NoEncapsulatedContentInfo => {}
            AuthenticodeError::NoSpcIndirectDataContent => {}
            AuthenticodeError::DigestAlgorithmMismatch => {}
            AuthenticodeError::MissingExpectedFileHash => {}
            AuthenticodeError::FileHashMismatch {
                actual: _actual,
                expected: _expected,
            } => {}
            AuthenticodeError::IncorrectSignerIdentifier => {}
            AuthenticodeError::NoCertificatesAssociatedWithIssuerAndSerialNumber {
                issuer: _issuer,
                serial_number: _serial_number,
            } => {}
            AuthenticodeError::UnsupportedAlgorithmError(_held) => {}
            AuthenticodeError::SignatureError(_held) => {}
            AuthenticodeError::NoMessageDigest => {}
            AuthenticodeError::UnsupportedHashAlgorithmError(_held) => {}
            AuthenticodeError::HashMismatch {
                actual: _actual,
                expected: _expected,
            } => {}
            AuthenticodeError::NoEKUCodeSigning => {}
            AuthenticodeError::InvalidTimestampCert(_held) => {}
            AuthenticodeError::CtlError(_held) => {}
            AuthenticodeError::CAIsNotTrusted => {}
            AuthenticodeError::CaCertificateRevoked => {}
            AuthenticodeError::CaCertificateExpired {
                not_after: _not_after,
                now: _now,
            } => {}
            AuthenticodeError::CaCertificateNotYetValid {
                not_before: _not_before,
                now: _now,
            } => {}
            AuthenticodeError::ProgramNameCharSet => {}
            AuthenticodeError::NoCertificates => {}
            AuthenticodeError::Asn1DerError(_held) => {}
            AuthenticodeError::TimestampError(_held) => {}
            AuthenticodeError::Memory => {}
        }
    }
}

impl AuthenticodeError {
    /// The name of the variant, or of the certificate or trust list error that it wraps.
    fn name(&self, alloc: Global) -> Result<String, AllocError>
        ensures { IfOk result (λ name. string_bytes name ≡ content_refusal_name self.now) }
    {
        match self {
            AuthenticodeError::CertError(error) => error.name(alloc),
            AuthenticodeError::CtlError(error) => String::from_str(alloc, error.word()),
            _ => String::from_str(alloc, self.word()),
        }
    }

    /// The name of the variant.
    fn word(&self) -> &'static str
        ensures { result.now ≡ variant_name self.now }
    {
        match self {
            AuthenticodeError::CertError(_) => "CertError",
            AuthenticodeError::IncorrectVersion { .. } => "IncorrectVersion",
            AuthenticodeError::MultipleSignerInfo { .. } => "MultipleSignerInfo",
            AuthenticodeError::IncorrectDigestAlgorithmsCount { .. } => {
                "IncorrectDigestAlgorithmsCount"
            }
            AuthenticodeError::NoEncapsulatedContentInfo => "NoEncapsulatedContentInfo",
            AuthenticodeError::NoSpcIndirectDataContent => "NoSpcIndirectDataContent",
            AuthenticodeError::DigestAlgorithmMismatch => "DigestAlgorithmMismatch",
            AuthenticodeError::FileHashMismatch { .. } => "FileHashMismatch",
            AuthenticodeError::IncorrectSignerIdentifier => "IncorrectSignerIdentifier",
            AuthenticodeError::NoCertificatesAssociatedWithIssuerAndSerialNumber { .. } => {
                "NoCertificatesAssociatedWithIssuerAndSerialNumber"
            }
            AuthenticodeError::UnsupportedAlgorithmError(_) => "UnsupportedAlgorithmError",
            AuthenticodeError::SignatureError(_) => "SignatureError",
            AuthenticodeError::NoMessageDigest => "NoMessageDigest",
            AuthenticodeError::UnsupportedHashAlgorithmError(_) => "UnsupportedHashAlgorithmError",
            AuthenticodeError::HashMismatch { .. } => "HashMismatch",
            AuthenticodeError::NoEKUCodeSigning => "NoEKUCodeSigning",
            AuthenticodeError::MissingExpectedFileHash => "MissingExpectedFileHash",
            AuthenticodeError::InvalidTimestampCert(_) => "InvalidTimestampCert",
            AuthenticodeError::CtlError(_) => "CtlError",
            AuthenticodeError::CAIsNotTrusted => "CAIsNotTrusted",
            AuthenticodeError::CaCertificateRevoked => "CaCertificateRevoked",
            AuthenticodeError::CaCertificateExpired { .. } => "CaCertificateExpired",
            AuthenticodeError::CaCertificateNotYetValid { .. } => "CaCertificateNotYetValid",
            AuthenticodeError::ProgramNameCharSet => "ProgramNameCharSet",
            AuthenticodeError::NoCertificates => "NoCertificates",
            AuthenticodeError::Asn1DerError(_) => "Asn1DerError",
            AuthenticodeError::TimestampError(_) => "TimestampError",
            AuthenticodeError::Memory => "Memory",
        }
    }
}

impl fmt::Display for AuthenticodeError {
    ghost output = { λ error. Some (content_error_text error) };

    fn fmt<W: fmt::Write>(&self, f: &mut fmt::Formatter<W>) -> fmt::Result {
        match self {
            AuthenticodeError::CertError(error) => error.fmt(f),
            AuthenticodeError::IncorrectVersion { expected, got } => write!(
                f,
                "the version of the signed data is {got}, and not {expected}"
            ),
            AuthenticodeError::MultipleSignerInfo { count } => {
                write!(f, "the signed data has {count} signers, and not one")
            }
            AuthenticodeError::IncorrectDigestAlgorithmsCount { incorrect_count } => write!(
                f,
                "the signed data has {incorrect_count} digest algorithms, and not one"
            ),
            AuthenticodeError::NoEncapsulatedContentInfo => {
                write!(f, "the signed data has no content")
            }
            AuthenticodeError::NoSpcIndirectDataContent => {
                write!(f, "what is signed is no SpcIndirectDataContent")
            }
            AuthenticodeError::DigestAlgorithmMismatch => {
                write!(f, "the signed data names several digest algorithms")
            }
            AuthenticodeError::FileHashMismatch { actual, expected } => {
                write_file_mismatch(actual.as_slice(), expected.as_slice(), f)
            }
            AuthenticodeError::IncorrectSignerIdentifier => write!(
                f,
                "the signer is named by the identifier of a key, and not by issuer and serial number"
            ),
            AuthenticodeError::NoCertificatesAssociatedWithIssuerAndSerialNumber {
                issuer,
                serial_number,
            } => write_unnamed(issuer, serial_number.as_signed_bytes_be(), f),
            AuthenticodeError::UnsupportedAlgorithmError(error) => error.fmt(f),
            AuthenticodeError::SignatureError(error) => write!(f, "signature error: {error}"),
            AuthenticodeError::NoMessageDigest => {
                write!(f, "no message digest is among the signed attributes")
            }
            AuthenticodeError::UnsupportedHashAlgorithmError(error) => error.fmt(f),
            AuthenticodeError::HashMismatch { actual, expected } => {
                write_mismatch(actual.as_slice(), expected.as_slice(), f)
            }
            AuthenticodeError::NoEKUCodeSigning => {
                write!(
                    f,
                    "the certificate of the signer is not one for code signing"
                )
            }
            AuthenticodeError::MissingExpectedFileHash => {
                write!(f, "no digest of the file is given")
            }
            AuthenticodeError::InvalidTimestampCert(error) => {
                write!(f, "certificate of the time stamp: {error}")
            }
            AuthenticodeError::CtlError(error) => error.fmt(f),
            AuthenticodeError::CAIsNotTrusted => { write!(f, "the CA is not on the trust list") }
            AuthenticodeError::CaCertificateRevoked => {
                write!(f, "the trust list revokes the CA")
            }
            AuthenticodeError::CaCertificateExpired { not_after, now } => write!(
                f,
                "the CA was on the trust list until {not_after}, and it is {now} (seconds since 1601)"
            ),
            AuthenticodeError::CaCertificateNotYetValid { not_before, now } => write!(
                f,
                "the CA is on the trust list from {not_before} on, and it is {now} (seconds since 1601)"
            ),
            AuthenticodeError::ProgramNameCharSet => {
                write!(f, "the name of the program has a character past U+FFFF")
            }
            AuthenticodeError::NoCertificates => {
                write!(f, "the signed data has no certificates")
            }
            AuthenticodeError::Asn1DerError(error) => error.fmt(f),
            AuthenticodeError::TimestampError(error) => error.fmt(f),
            AuthenticodeError::Memory => write!(f, "out of memory"),
        }
    }
}

/// The text of `FileHashMismatch`.
fn write_file_mismatch<W: fmt::Write>(
    actual: &[u8],
    expected: &[u8],
    f: &mut fmt::Formatter<W>,
) -> fmt::Result
    ensures { WritesOnOk W.write_str_gives f.old result
        (file_mismatch_text actual.now expected.now) f.new }
{
    f.write_str("the signature is for a file with the digest ")?;
    write_hexadecimal(actual, f)?;
    f.write_str(", but that of the file is ")?;
    write_hexadecimal(expected, f)
}

/// The text of `HashMismatch`.
fn write_mismatch<W: fmt::Write>(
    actual: &[u8],
    expected: &[u8],
    f: &mut fmt::Formatter<W>,
) -> fmt::Result
    ensures { WritesOnOk W.write_str_gives f.old result
        (mismatch_text actual.now expected.now) f.new }
{
    f.write_str("the signed message digest is ")?;
    write_hexadecimal(actual, f)?;
    f.write_str(", but that of the content is ")?;
    write_hexadecimal(expected, f)
}

/// The text of `NoCertificatesAssociatedWithIssuerAndSerialNumber`.
fn write_unnamed<W: fmt::Write>(
    issuer: &DirectoryName,
    serial_number: &[u8],
    f: &mut fmt::Formatter<W>,
) -> fmt::Result
    ensures { WritesOnOk W.write_str_gives f.old result
        (unnamed_text issuer.now serial_number.now) f.new }
{
    write!(
        f,
        "the signed data has no certificate of the issuer '{issuer}' with the serial number "
    )?;
    write_hexadecimal(serial_number, f)
}

/// Why a signature file is refused.
#[derive(Debug, Drop, Error)]
pub enum CheckError {
    /// The octets don't begin with a WIN_CERTIFICATE.
    Win(WinCertificateError),
    /// The signed data is refused. Never wraps `Memory`.
    Authenticode(AuthenticodeError),
    /// Out of memory.
    Memory,
}

impl CheckError {
    /// The name of the refusal, as a report prints it: that of the variant of the wrapped error.
    pub fn name(&self, alloc: Global) -> Result<String, AllocError>
        ensures { IfOk result (λ name. string_bytes name ≡ refusal_name self.now) }
    {
        match self {
            CheckError::Win(error) => String::from_str(alloc, header_refusal_name(error)),
            CheckError::Authenticode(error) => error.name(alloc),
            CheckError::Memory => String::from_str(alloc, "Memory"),
        }
    }
}

/// The name of the variant.
fn header_refusal_name(error: &WinCertificateError) -> &'static str
    ensures { result.now ≡ header_refusal_name error.now }
{
    match error {
        WinCertificateError::WrongRevisionValue { .. } => "WrongRevisionValue",
        WinCertificateError::WrongCertificateType { .. } => "WrongCertificateType",
        WinCertificateError::WrongLength { .. } => "WrongLength",
        WinCertificateError::CertificateDataIsEmpty => "CertificateDataIsEmpty",
        WinCertificateError::Io { .. } => "Io",
        WinCertificateError::TooLong => "TooLong",
        WinCertificateError::Memory => "Memory",
    }
}

impl fmt::Display for CheckError {
    ghost output = { λ error. Some (check_error_text error) };

    fn fmt<W: fmt::Write>(&self, f: &mut fmt::Formatter<W>) -> fmt::Result {
        match self {
            CheckError::Win(error) => error.fmt(f),
            CheckError::Authenticode(error) => error.fmt(f),
            CheckError::Memory => write!(f, "out of memory"),
        }
    }
}

/// Out of memory becomes `Memory`.
impl From<WinCertificateError> for CheckError {
    ghost from_gives = { λ error e. e ≡ of_header error };

    fn from(error: WinCertificateError) -> CheckError {
        match error {
            WinCertificateError::Memory => CheckError::Memory,
            error => CheckError::Win(error),
        }
    }
}

/// Out of memory becomes `Memory`.
impl From<AuthenticodeError> for CheckError {
    ghost from_gives = { λ error e. e ≡ of_content error };

    fn from(error: AuthenticodeError) -> CheckError {
        match &error {
            AuthenticodeError::Memory => CheckError::Memory,
            _ => CheckError::Authenticode(error),
        }
    }
}

impl From<AllocError> for CheckError {
    ghost from_gives = { λ _ e. e ≡ Memory };

    fn from(_error: AllocError) -> CheckError {
        CheckError::Memory
    }
}

/// Out of memory becomes `Memory`.
impl From<CertError> for AuthenticodeError {
    ghost from_gives = { λ error e. e ≡ of_certificates error };

    fn from(error: CertError) -> AuthenticodeError {
        match &error {
            CertError::Memory => AuthenticodeError::Memory,
            _ => AuthenticodeError::CertError(error),
        }
    }
}

/// Out of memory becomes `Memory`.
impl From<SignatureError> for AuthenticodeError {
    ghost from_gives = { λ error e. e ≡ of_signatures error };

    fn from(error: SignatureError) -> AuthenticodeError {
        match error {
            SignatureError::Memory => AuthenticodeError::Memory,
            error => AuthenticodeError::SignatureError(error),
        }
    }
}

/// Out of memory becomes `Memory`.
impl From<DerError> for AuthenticodeError {
    ghost from_gives = { λ error e. e ≡ of_der error };

    fn from(error: DerError) -> AuthenticodeError {
        match error {
            DerError::Memory => AuthenticodeError::Memory,
            error => AuthenticodeError::Asn1DerError(error),
        }
    }
}

/// Out of memory becomes `Memory`.
impl From<CharSetError> for AuthenticodeError {
    ghost from_gives = { λ error e. e ≡ of_char_set error };

    fn from(error: CharSetError) -> AuthenticodeError {
        match error {
            CharSetError::Memory => AuthenticodeError::Memory,
            CharSetError::CharSet => AuthenticodeError::ProgramNameCharSet,
        }
    }
}

/// Out of memory becomes `Memory`.
impl From<CtlError> for AuthenticodeError {
    ghost from_gives = { λ error e. e ≡ of_ctl error };

    fn from(error: CtlError) -> AuthenticodeError {
        match error {
            CtlError::Memory => AuthenticodeError::Memory,
            error => AuthenticodeError::CtlError(error),
        }
    }
}

impl From<ListingError> for AuthenticodeError {
    ghost from_gives = { λ error e. e ≡ of_listing error };

    fn from(error: ListingError) -> AuthenticodeError {
        match error {
            ListingError::NotListed => AuthenticodeError::CAIsNotTrusted,
            ListingError::MalformedEntry => AuthenticodeError::CtlError(CtlError::MalformedEntry),
            ListingError::Revoked => AuthenticodeError::CaCertificateRevoked,
            ListingError::Expired { not_after, now } => {
                AuthenticodeError::CaCertificateExpired { not_after, now }
            }
            ListingError::NotYetValid { not_before, now } => {
                AuthenticodeError::CaCertificateNotYetValid { not_before, now }
            }
        }
    }
}

impl From<AllocError> for AuthenticodeError {
    ghost from_gives = { λ _ e. e ≡ contents.Memory };

    fn from(_error: AllocError) -> AuthenticodeError {
        AuthenticodeError::Memory
    }
}

impl<T: Drop> From<AllocFailed<T>> for AuthenticodeError {
    ghost from_gives = { λ _ e. e ≡ contents.Memory };

    fn from(_error: AllocFailed<T>) -> AuthenticodeError {
        AuthenticodeError::Memory
    }
}
