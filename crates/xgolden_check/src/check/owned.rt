//! The same check on the owned signature of a file.

use crate::check::line::answer_line;
use anyhow::Result;
use authenticode_core::{Accepted, CertificateTrustList, CheckError, DateCheck, Policy};
use authenticode_signature::{AuthenticodeSignature, AuthenticodeValidator};
use der_core::Octets;
use names_core::DirectoryName;
use sig_core::VerdictTable;
use std::alloc::{AllocError, Global};
use wincert_core::WinCertificate;

/// The line for the result of the signature's validator, None if no signature is read from the
/// file.
pub fn kept_line(
    alloc: Global,
    file: &[u8],
    policy: &Policy<'_>,
    table: &VerdictTable,
) -> Result<Option<String>> {
    let Some(signature) = signature_in(alloc, file) else {
        return Ok(None);
    };
    Ok(Some(line_of(alloc, &signature, policy, table)?))
}

fn line_of(
    alloc: Global,
    signature: &AuthenticodeSignature,
    policy: &Policy<'_>,
    table: &VerdictTable,
) -> Result<String> {
    let hash = copy_of(alloc, &policy.file_hash)?;
    answer_line(alloc, &verified(alloc, signature, policy, hash, table))
}

fn signature_in(alloc: Global, file: &[u8]) -> Option<AuthenticodeSignature> {
    let certificate = WinCertificate::decode(alloc, file).ok()?;
    AuthenticodeSignature::from_wincert(alloc, &certificate).ok()
}

fn copy_of(alloc: Global, hash: &Option<Octets>) -> Result<Option<Octets>, AllocError> {
    match hash {
        Some(octets) => Ok(Some(Octets::from_slice(alloc, octets.as_slice())?)),
        None => Ok(None),
    }
}

/// The result of the validator, configured by a policy.
fn verified(
    alloc: Global,
    signature: &AuthenticodeSignature,
    policy: &Policy<'_>,
    hash: Option<Octets>,
    table: &VerdictTable,
) -> Result<Accepted, CheckError> {
    let verifier = signature.authenticode_verifier(alloc);
    let verifier = with_basic(verifier, policy.basic, hash);
    let verifier = with_signing(verifier, policy.signing);
    let verifier = with_chain(verifier, policy.chain);
    let verifier = with_not_before(verifier, policy.not_before);
    let verifier = with_not_after(verifier, policy.not_after);
    let verifier = with_dates(verifier, policy.date);
    let verifier = with_list_check(verifier, policy.against_list);
    let verifier = with_list(verifier, policy.list, policy.now);
    let verifier = with_excluded(verifier, policy.exclude, policy.excluded.as_slice())?;
    verified_by(alloc, &verifier, table)
}

fn verified_by(
    alloc: Global,
    verifier: &AuthenticodeValidator<'_>,
    table: &VerdictTable,
) -> Result<Accepted, CheckError> {
    match verifier.verify(alloc, table) {
        Ok(accepted) => Ok(accepted),
        Err(error) => Err(CheckError::from(error)),
    }
}

/// A validator begins with basic validation and without a digest.
fn with_basic<'a>(
    verifier: AuthenticodeValidator<'a>,
    asked: bool,
    hash: Option<Octets>,
) -> AuthenticodeValidator<'a> {
    match (asked, hash) {
        (true, Some(hash)) => verifier
            .ignore_basic_authenticode_validation()
            .require_basic_authenticode_validation(hash),
        (true, None) => verifier,
        (false, _) => verifier.ignore_basic_authenticode_validation(),
    }
}

fn with_signing<'a>(verifier: AuthenticodeValidator<'a>, asked: bool) -> AuthenticodeValidator<'a> {
    let verifier = verifier.ignore_signing_certificate_check();
    if asked {
        verifier.require_signing_certificate_check()
    } else {
        verifier
    }
}

fn with_chain<'a>(verifier: AuthenticodeValidator<'a>, asked: bool) -> AuthenticodeValidator<'a> {
    let verifier = verifier.ignore_chain_check();
    if asked {
        verifier.require_chain_check()
    } else {
        verifier
    }
}

fn with_not_before<'a>(
    verifier: AuthenticodeValidator<'a>,
    asked: bool,
) -> AuthenticodeValidator<'a> {
    let verifier = verifier.ignore_not_before_check();
    if asked {
        verifier.require_not_before_check()
    } else {
        verifier
    }
}

fn with_not_after<'a>(
    verifier: AuthenticodeValidator<'a>,
    asked: bool,
) -> AuthenticodeValidator<'a> {
    let verifier = verifier.ignore_not_after_check();
    if asked {
        verifier.require_not_after_check()
    } else {
        verifier
    }
}

/// An interval replaces a date.
fn with_dates<'a>(
    verifier: AuthenticodeValidator<'a>,
    dates: DateCheck,
) -> AuthenticodeValidator<'a> {
    match dates {
        DateCheck::Absent => verifier,
        DateCheck::Exact(exact) => verifier.exact_date(exact),
        DateCheck::Interval { lower, upper } => {
            verifier.exact_date(upper).interval_date(lower, upper)
        }
    }
}

fn with_list_check<'a>(
    verifier: AuthenticodeValidator<'a>,
    asked: bool,
) -> AuthenticodeValidator<'a> {
    let verifier = verifier.ignore_ca_against_ctl_check();
    if asked {
        verifier.require_ca_against_ctl_check()
    } else {
        verifier
    }
}

fn with_list<'a>(
    verifier: AuthenticodeValidator<'a>,
    list: Option<&'a CertificateTrustList>,
    now: i64,
) -> AuthenticodeValidator<'a> {
    match list {
        Some(list) => verifier.ctl(list, now),
        None => verifier,
    }
}

/// No names are excluded if they aren't asked for.
fn with_excluded<'a>(
    verifier: AuthenticodeValidator<'a>,
    asked: bool,
    names: &[DirectoryName],
) -> Result<AuthenticodeValidator<'a>, AllocError> {
    let mut verifier = verifier.ignore_excluded_cert_authorities();
    if asked {
        verifier.exclude_cert_authorities(names)?;
    }
    Ok(verifier)
}
