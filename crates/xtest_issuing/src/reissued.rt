//! The certificates of a demonstration, issued by a builder's calls and validated one by one.

use demo_core::{Step, demonstrate, history_of, private_key_of};
use key_core::{PrivateKey, PublicKey};
use names_core::{DirectoryName, UtcDate};
use sha2::{Digest, Sha256};
use sig_core::DemoScheme;
use std::alloc::{AllocError, Global};
use std::test::Fail;
use x509_core::{Cert, CertError};
use x509_issuing::CertificateBuilder;

/// The first second of a year.
fn year(number: u16) -> Result<UtcDate, Fail> {
    match UtcDate::ymd(number, 1, 1) {
        Some(date) => Ok(date),
        None => Err(Fail::from("no such year")),
    }
}

fn name_of(alloc: Global, index: u8) -> Result<DirectoryName, AllocError> {
    let name = format!(in alloc; "N{index}")?;
    DirectoryName::new_common_name(alloc, name.as_str())
}

/// A builder with what the step says of its certificate.
fn begun<'a>(alloc: Global, step: &Step) -> Result<CertificateBuilder<'a>, Fail> {
    let builder = CertificateBuilder::new(alloc)
        .validity(year(step.years.first)?, year(step.years.last)?)
        .ca(step.ca);
    match step.path_length {
        Some(length) => Ok(builder.pathlen(length)),
        None => Ok(builder),
    }
}

/// The item of this index.
fn at<T>(items: &[T], index: usize) -> Result<&T, Fail> {
    match items.get(index) {
        Some(item) => Ok(item),
        None => Err(Fail::from("there is no such item")),
    }
}

/// The private key of the step of this index.
fn key_of(alloc: Global, index: usize) -> Result<PrivateKey, Fail> {
    match u32::try_from(index) {
        Ok(index) => Ok(private_key_of(alloc, index)?),
        Err(_) => Err(Fail::from("there are fewer steps")),
    }
}

/// The root of a step.
fn root_of(
    alloc: Global,
    serial: u32,
    step: &Step,
    name: DirectoryName,
    own: &PrivateKey,
) -> Result<Cert, Fail> {
    let builder = begun(alloc, step)?.self_signed(name, own);
    Ok(builder.build(alloc, serial, &DemoScheme::new())?)
}

/// The certificate of a step for a name and a key, under the issuer's.
fn child_of(
    alloc: Global,
    serial: u32,
    step: &Step,
    (name, key): (DirectoryName, PublicKey),
    (issuer, issuer_key): (&Cert, &PrivateKey),
) -> Result<Cert, Fail> {
    let mut builder = begun(alloc, step)?.subject(name, key);
    builder.issuer_cert(issuer, issuer_key)?;
    Ok(builder.build(alloc, serial, &DemoScheme::new())?)
}

/// The certificate of the step of this index, after those of the steps before it.
fn issued(alloc: Global, index: u8, step: &Step, before: &[Cert]) -> Result<Cert, Fail> {
    let serial = u32::from(index) + 1;
    let own = key_of(alloc, usize::from(index))?;
    let name = name_of(alloc, index)?;
    let Some(issuer) = step.issuer else {
        return root_of(alloc, serial, step, name, &own);
    };
    let key = key_of(alloc, issuer)?;
    let subject = (name, own.to_public_key(alloc)?);
    child_of(alloc, serial, step, subject, (at(before, issuer)?, &key))
}

/// Copies of the certificates of all ancestors, the nearest first.
fn ancestors(
    alloc: Global,
    steps: &[Step],
    certificates: &[Cert],
    index: u8,
) -> Result<Vec<Cert>, Fail> {
    let mut found = Vec::new(alloc);
    let mut next = at(steps, usize::from(index))?.issuer;
    for _ in 0..steps.len() {
        let Some(issuer) = next else {
            break;
        };
        found.push(at(certificates, issuer)?.try_clone(alloc)?)?;
        next = at(steps, issuer)?.issuer;
    }
    Ok(found)
}

/// Whether a certificate is accepted over these parents at the first second of 2025.
fn is_accepted(alloc: Global, cert: &Cert, parents: &[Cert]) -> Result<bool, Fail> {
    let date = year(2025)?;
    let answer = cert
        .verifier()
        .exact_date(&date)
        .chain(parents.iter())
        .verify(alloc, &DemoScheme::new());
    match &answer {
        Ok(()) => Ok(true),
        Err(CertError::Memory) => Err(Fail::from("out of memory")),
        Err(_) => Ok(false),
    }
}

/// How many of the certificates that are built here are accepted, and the SHA-256 of the octets of
/// all.
fn reissued(alloc: Global, count: u8) -> Result<(usize, [u8; 32]), Fail> {
    let steps = history_of(alloc, u32::from(count))?;
    let mut certificates = Vec::new(alloc);
    let mut accepted = Vec::new(alloc);
    let mut hasher = Sha256::new();
    for index in 0..count {
        let cert = issued(alloc, index, at(&steps, usize::from(index))?, &certificates)?;
        hasher.update(cert.as_bytes());
        certificates.push(cert)?;
        let parents = ancestors(alloc, &steps, &certificates, index)?;
        if is_accepted(alloc, at(&certificates, usize::from(index))?, &parents)? {
            accepted.push(index)?;
        }
    }
    Ok((accepted.len(), hasher.finalize()))
}

/// Whether the report of so many steps is that of the certificates that are built here.
fn compare(alloc: Global, count: u8) -> Result<bool, Fail> {
    let report = demonstrate(alloc, count)?;
    let (accepted, sum) = reissued(alloc, count)?;
    Ok(report.accepted == accepted && report.sum == sum)
}

#[test]
fn reports_are_those_of_the_builder(rt: HostRuntime) -> Result<(), Fail> {
    for count in [1, 2, 9] {
        assert!(rt; compare(rt.alloc(), count)?, "{count}");
    }
    Ok(())
}

#[test]
fn so_is_that_of_two_hundred_steps(rt: HostRuntime) -> Result<(), Fail> {
    assert!(rt; compare(rt.alloc(), 200)?);
    Ok(())
}
