//! The line for a result: what is accepted, or the name of a refusal and its fields.

use anyhow::Result;
use authenticode_core::{Accepted, AuthenticodeError, CheckError};
use std::alloc::Global;
use xgolden::word_of;

pub fn accepted_line(alloc: Global, accepted: &Accepted) -> Result<String> {
    Ok(format!(in alloc;
        "accepted {:?} {:?} {:?}",
        accepted.signer,
        accepted.path.as_slice(),
        accepted.excuse
    )?)
}

pub fn refused_line(alloc: Global, error: &CheckError) -> Result<String> {
    let name = error.name(alloc)?;
    let fields = match error {
        CheckError::Win(error) => format!(in alloc; " {error}")?,
        CheckError::Authenticode(error) => fields(alloc, error)?,
        CheckError::Memory => String::new(alloc),
    };
    Ok(format!(in alloc; "{name}{fields}")?)
}

/// The fields, with a space before each.
fn fields(alloc: Global, error: &AuthenticodeError) -> Result<String> {
    Ok(match error {
        AuthenticodeError::CertError(error) => format!(in alloc; " {error}")?,
        AuthenticodeError::IncorrectVersion { expected, got } => {
            format!(in alloc; " {expected} {got}")?
        }
        AuthenticodeError::MultipleSignerInfo { count } => format!(in alloc; " {count}")?,
        AuthenticodeError::IncorrectDigestAlgorithmsCount { incorrect_count } => {
            format!(in alloc; " {incorrect_count}")?
        }
        AuthenticodeError::FileHashMismatch { actual, expected }
        | AuthenticodeError::HashMismatch { actual, expected } => {
            two_words(alloc, actual.as_slice(), expected.as_slice())?
        }
        AuthenticodeError::NoCertificatesAssociatedWithIssuerAndSerialNumber {
            issuer,
            serial_number,
        } => {
            let number = word_of(alloc, serial_number.as_signed_bytes_be())?;
            format!(in alloc; " {number} {issuer}")?
        }
        AuthenticodeError::SignatureError(error) => format!(in alloc; " {error}")?,
        AuthenticodeError::UnsupportedHashAlgorithmError(error) => {
            format!(in alloc; " {:?}", error.algorithm)?
        }
        _ => String::new(alloc),
    })
}

/// Octets as words, with a space before each.
fn two_words(alloc: Global, one: &[u8], other: &[u8]) -> Result<String> {
    let one = word_of(alloc, one)?;
    let other = word_of(alloc, other)?;
    Ok(format!(in alloc; " {one} {other}")?)
}
