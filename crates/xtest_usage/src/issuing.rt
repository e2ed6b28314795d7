//! Issuing certificates: a root, an intermediate, a request, a leaf for it; and whether the leaf is
//! valid with both as its issuers.

use key_core::{PrivateKey, PublicKey, SignatureAlgorithm};
use names_core::{DirectoryName, UtcDate};
use sig_core::{DemoScheme, HashAlgorithm};
use std::alloc::Global;
use std::test::Fail;
use x509_core::{Cert, CertError, CsrError};
use x509_issuing::{CertificateBuilder, Csr};
use x509_types::KeyUsage;

/// The key usage of a CA: digitalSignature, keyCertSign and cRLSign, bits 0, 5 and 6 (RFC 5280
/// 4.2.1.3).
const CA_USAGE: u16 = 0x61;

/// A root: a CA certificate that its own key signed.
fn root(
    alloc: Global,
    name: &str,
    key: &PrivateKey,
    (from, to): (UtcDate, UtcDate),
    word: u32,
) -> Result<Cert, CertError> {
    let name = DirectoryName::new_common_name(alloc, name)?;
    let usage = KeyUsage::new(alloc, CA_USAGE)?;
    CertificateBuilder::new(alloc)
        .validity(from, to)
        .self_signed(name, key)
        .ca(true)
        .key_usage(usage)
        .build(alloc, word, &DemoScheme::new())
}

/// An intermediate: a CA certificate under the issuer's, with no CA below it.
fn intermediate(
    alloc: Global,
    name: &str,
    public_key: PublicKey,
    issuer: &Cert,
    issuer_key: &PrivateKey,
    (from, to): (UtcDate, UtcDate),
    word: u32,
) -> Result<Cert, CertError> {
    let name = DirectoryName::new_common_name(alloc, name)?;
    let usage = KeyUsage::new(alloc, CA_USAGE)?;
    let mut builder = CertificateBuilder::new(alloc)
        .validity(from, to)
        .subject(name, public_key)
        .ca(true)
        .pathlen(0)
        .key_usage(usage);
    builder.issuer_cert(issuer, issuer_key)?;
    builder.build(alloc, word, &DemoScheme::new())
}

/// A request for a certificate, signed by its own key.
fn request(alloc: Global, name: &str, key: &PrivateKey) -> Result<Csr, CsrError> {
    let name = DirectoryName::new_common_name(alloc, name)?;
    let algorithm = SignatureAlgorithm::RsaPkcs1v15(HashAlgorithm::SHA2_256);
    Csr::generate(alloc, name, key, algorithm, &DemoScheme::new())
}

/// A leaf: the certificate for a request, under the issuer's.
fn leaf(
    alloc: Global,
    csr: Csr,
    issuer: &Cert,
    issuer_key: &PrivateKey,
    (from, to): (UtcDate, UtcDate),
    word: u32,
) -> Result<Cert, CertError> {
    let mut builder = CertificateBuilder::new(alloc)
        .validity(from, to)
        .subject_from_csr(csr);
    builder.issuer_cert(issuer, issuer_key)?;
    builder.build(alloc, word, &DemoScheme::new())
}

/// Whether a certificate is valid at a date with its parents, the nearest first, up to a root.
fn verified(
    alloc: Global,
    certificate: &Cert,
    parents: &[Cert],
    date: &UtcDate,
) -> Result<(), CertError> {
    certificate
        .verifier()
        .exact_date(date)
        .chain(parents.iter())
        .verify(alloc, &DemoScheme::new())
}

/// The keys of the root, the intermediate and the leaf: RSA with the moduli 17, 18 and 19 and the
/// exponent 3.
#[rattlefmt::skip]
const ROOT_KEY: &str = "3031020100300d06092a864886f70d0101010500041d301b02010002011102010302010502010702010b020101020102020104";

#[rattlefmt::skip]
const CA_KEY: &str = "3031020100300d06092a864886f70d0101010500041d301b02010002011202010302010502010702010b020101020102020104";

#[rattlefmt::skip]
const LEAF_KEY: &str = "3031020100300d06092a864886f70d0101010500041d301b02010002011302010302010502010702010b020101020102020104";

/// The request, by RFC 2986 4 and the rules of the demonstration scheme, written in Python like the
/// leaf.
#[rattlefmt::skip]
const REQUEST: &str = "3071303d020100301a3118301606035504030c0f7777772e6578616d706c652e6f7267301a300d06092a864886f70d01010105000309003006020113020103a000300d06092a864886f70d01010b0500032100b3936d3b0d244026058074ee021d9df7bcbafda082a39fbae49d43ab2434659e";

/// The leaf for the year 2025.
#[rattlefmt::skip]
const LEAF: &str = "308201273081f2a003020102020103300d06092a864886f70d01010b050030173115301306035504030c0c496e7465726d656469617465301e170d3235303130313030303030305a170d3236303130313030303030305a301a3118301606035504030c0f7777772e6578616d706c652e6f7267301a300d06092a864886f70d01010105000309003006020113020103a3683066300c0603551d130405300301010030290603551d0e04220420de8606760a0841dc6cafcb03f08df1a353973c7db79586cc161ad8b36423256a302b0603551d230424302280201e6383debd86ab793aeb6cd5b1291ab0d1dce5d42a40fd194ccd5ef8f6fafaac300d06092a864886f70d01010b05000321009dc7bb7bfd914786f36a95a8d9a2b8f74dc456014c38fcf1edd259c1fa97e5b5";

/// The RSA private key in PKCS #8 octets, in hexadecimal.
fn key_of(alloc: Global, digits: &str) -> Result<PrivateKey, Fail> {
    let octets = hex::decode(alloc, digits)?;
    Ok(PrivateKey::from_pkcs8(alloc, &octets, &DemoScheme::new())?)
}

/// The first seconds of two years.
fn years(from: u16, to: u16) -> Result<(UtcDate, UtcDate), Fail> {
    match (UtcDate::ymd(from, 1, 1), UtcDate::ymd(to, 1, 1)) {
        (Some(from), Some(to)) => Ok((from, to)),
        _ => Err(Fail::from("no such year")),
    }
}

/// The certificates of the intermediate and the root.
fn issuers(alloc: Global, root_key: &PrivateKey, key: &PrivateKey) -> Result<Vec<Cert>, Fail> {
    let dates = years(2020, 2030)?;
    let issuer = root(alloc, "Root", root_key, dates, 1)?;
    let public_key = key.to_public_key(alloc)?;
    let name = "Intermediate";
    let mut both = Vec::new(alloc);
    both.push(intermediate(alloc, name, public_key, &issuer, root_key, dates, 2)?)?;
    both.push(issuer)?;
    Ok(both)
}

/// The request, if it has the expected octets.
fn wanted_request(alloc: Global) -> Result<Csr, Fail> {
    let key = key_of(alloc, LEAF_KEY)?;
    let csr = request(alloc, "www.example.org", &key)?;
    let octets = csr.to_der(alloc)?;
    let wanted = hex::decode(alloc, REQUEST)?;
    if octets.as_slice() == wanted.as_slice() {
        Ok(csr)
    } else {
        Err(Fail::from("another request"))
    }
}

/// The leaf, issued by the first of the parents.
fn issued(alloc: Global, parents: &[Cert], key: &PrivateKey) -> Result<Cert, Fail> {
    match parents.first() {
        Some(issuer) => {
            let dates = years(2025, 2026)?;
            Ok(leaf(alloc, wanted_request(alloc)?, issuer, key, dates, 3)?)
        }
        None => Err(Fail::from("no parents")),
    }
}

/// Whether the leaf has the expected octets, and is valid in 2025 and not in 2027.
fn is_wanted(alloc: Global, certificate: &Cert, parents: &[Cert]) -> Result<bool, Fail> {
    let wanted = hex::decode(alloc, LEAF)?;
    let (begins, late) = years(2025, 2027)?;
    verified(alloc, certificate, parents, &begins)?;
    let expired = verified(alloc, certificate, parents, &late).is_err();
    Ok(expired && certificate.as_bytes() == wanted.as_slice())
}

#[test]
fn issues(rt: HostRuntime) -> Result<(), Fail> {
    let root_key = key_of(rt.alloc(), ROOT_KEY)?;
    let ca_key = key_of(rt.alloc(), CA_KEY)?;
    let parents = issuers(rt.alloc(), &root_key, &ca_key)?;
    let certificate = issued(rt.alloc(), &parents, &ca_key)?;
    assert!(rt; is_wanted(rt.alloc(), &certificate, &parents)?);
    Ok(())
}
