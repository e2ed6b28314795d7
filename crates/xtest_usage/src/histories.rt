//! A CA that issues a root, an intermediate and a leaf, and says which of them are accepted on a
//! day.

use key_core::{PrivateKey, PublicKey};
use names_core::{DirectoryName, UtcDate};
use sig_core::DemoScheme;
use std::alloc::{AllocError, Global};
use std::test::Fail;
use x509_core::{Cert, CertError};
use x509_issuing::CertificateBuilder;

/// A builder for a certificate of this validity; CA or not, with any number of certificates below.
fn builder<'a>(alloc: Global, ca: bool, (from, to): (UtcDate, UtcDate)) -> CertificateBuilder<'a> {
    CertificateBuilder::new(alloc).validity(from, to).ca(ca)
}

/// A root, signed by its own key.
fn root(alloc: Global, key: &PrivateKey, dates: (UtcDate, UtcDate)) -> Result<Cert, CertError> {
    let name = DirectoryName::new_common_name(alloc, "Root")?;
    let root = builder(alloc, true, dates).self_signed(name, key);
    root.build(alloc, 1, &DemoScheme::new())
}

/// A certificate for a name and a key, under the issuer's.
fn issued(
    alloc: Global,
    (name, key): (&str, PublicKey),
    (issuer, issuer_key): (&Cert, &PrivateKey),
    ca: bool,
    dates: (UtcDate, UtcDate),
) -> Result<Cert, CertError> {
    let name = DirectoryName::new_common_name(alloc, name)?;
    let mut issued = builder(alloc, ca, dates).subject(name, key);
    issued.issuer_cert(issuer, issuer_key)?;
    issued.build(alloc, 2, &DemoScheme::new())
}

/// Whether the first certificate is accepted at the date with the others, its ancestors.
fn is_accepted(alloc: Global, line: &[Cert], date: &UtcDate) -> bool {
    match line.split_first() {
        Some((certificate, ancestors)) => certificate
            .verifier()
            .exact_date(date)
            .chain(ancestors.iter())
            .verify(alloc, &DemoScheme::new())
            .is_ok(),
        None => false,
    }
}

/// Which certificates of a line are accepted at the date. Each is issued by the next one, and the
/// last is a root.
fn accepted(alloc: Global, line: &[Cert], date: &UtcDate) -> Result<Vec<bool>, AllocError> {
    let mut answers = Vec::new(alloc);
    for index in 0..line.len() {
        answers.push(is_accepted(alloc, &line[index..], date))?;
    }
    Ok(answers)
}

/// The keys of the root, the intermediate and the leaf: RSA with the moduli 17, 18 and 19 and the
/// exponent 3.
#[rattlefmt::skip]
const KEYS: [&str; 3] = [
    "3031020100300d06092a864886f70d0101010500041d301b02010002011102010302010502010702010b020101020102020104",
    "3031020100300d06092a864886f70d0101010500041d301b02010002011202010302010502010702010b020101020102020104",
    "3031020100300d06092a864886f70d0101010500041d301b02010002011302010302010502010702010b020101020102020104",
];

/// The RSA private key in PKCS #8 octets, in hexadecimal.
fn key_of(alloc: Global, digits: &str) -> Result<PrivateKey, Fail> {
    let octets = hex::decode(alloc, digits)?;
    Ok(PrivateKey::from_pkcs8(alloc, &octets, &DemoScheme::new())?)
}

/// The first second of a year.
fn year(number: u16) -> Result<UtcDate, Fail> {
    match UtcDate::ymd(number, 1, 1) {
        Some(date) => Ok(date),
        None => Err(Fail::from("no such year")),
    }
}

/// A leaf until 2025, an intermediate until 2028, a root until 2030.
fn line(alloc: Global) -> Result<Vec<Cert>, Fail> {
    let root_key = key_of(alloc, KEYS[0])?;
    let ca_key = key_of(alloc, KEYS[1])?;
    let leaf_key = key_of(alloc, KEYS[2])?;
    let root = root(alloc, &root_key, (year(2020)?, year(2030)?))?;
    let dates = (year(2021)?, year(2028)?);
    let ca = issued(
        alloc,
        ("CA", ca_key.to_public_key(alloc)?),
        (&root, &root_key),
        true,
        dates,
    )?;
    let dates = (year(2022)?, year(2025)?);
    let leaf = issued(
        alloc,
        ("Leaf", leaf_key.to_public_key(alloc)?),
        (&ca, &ca_key),
        false,
        dates,
    )?;
    let mut line = Vec::new(alloc);
    line.push(leaf)?;
    line.push(ca)?;
    line.push(root)?;
    Ok(line)
}

/// Which certificates of the line are accepted at the first second of a year.
fn accepted_in(alloc: Global, line: &[Cert], number: u16) -> Result<Vec<bool>, Fail> {
    Ok(accepted(alloc, line, &year(number)?)?)
}

#[test]
fn knows_its_own(rt: HostRuntime) -> Result<(), Fail> {
    let line = line(rt.alloc())?;
    let answers = accepted_in(rt.alloc(), &line, 2020)?;
    assert_eq!(rt; answers.as_slice(), [false, false, true].as_slice());
    let answers = accepted_in(rt.alloc(), &line, 2025)?;
    assert_eq!(rt; answers.as_slice(), [true, true, true].as_slice());
    let answers = accepted_in(rt.alloc(), &line, 2026)?;
    assert_eq!(rt; answers.as_slice(), [false, true, true].as_slice());
    let answers = accepted_in(rt.alloc(), &line, 2029)?;
    assert_eq!(rt; answers.as_slice(), [false, false, true].as_slice());
    let answers = accepted_in(rt.alloc(), &line, 2031)?;
    assert_eq!(rt; answers.as_slice(), [false, false, false].as_slice());
    Ok(())
}
