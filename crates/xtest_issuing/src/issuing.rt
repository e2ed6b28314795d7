//! Certificates by a CA with a root, and an intermediate under it.

use key_core::{PrivateKey, PublicKey};
use names_core::{DirectoryName, UtcDate};
use sig_core::DemoScheme;
use std::alloc::Global;
use std::test::Fail;
use x509_core::{Cert, CertError};
use x509_issuing::CertificateBuilder;

/// The keys of the root, the intermediate and the leaf: RSA with the moduli 17, 18 and 19 and the
/// exponent 3.
#[rattlefmt::skip]
const ROOT_KEY: &str = "3031020100300d06092a864886f70d0101010500041d301b02010002011102010302010502010702010b020101020102020104";

#[rattlefmt::skip]
const CA_KEY: &str = "3031020100300d06092a864886f70d0101010500041d301b02010002011202010302010502010702010b020101020102020104";

#[rattlefmt::skip]
const LEAF_KEY: &str = "3031020100300d06092a864886f70d0101010500041d301b02010002011302010302010502010702010b020101020102020104";

/// A CA: its root and its intermediate, and the key that signs its leaves.
#[derive(Drop)]
pub(crate) struct Authority {
    pub(crate) root: Cert,
    pub(crate) intermediate: Cert,
    key: PrivateKey,
}

impl Authority {
    /// A CA from 2020 to 2030.
    pub(crate) fn new(alloc: Global) -> Result<Authority, Fail> {
        let root_key = key_of(alloc, ROOT_KEY)?;
        let key = key_of(alloc, CA_KEY)?;
        let dates = years(2020, 2030)?;
        let root = root_of(alloc, &root_key, dates)?;
        let subject = ("INT", key.to_public_key(alloc)?);
        let intermediate = issued(alloc, subject, (&root, &root_key), true, dates)?;
        Ok(Authority {
            root,
            intermediate,
            key,
        })
    }

    /// A leaf of this name for 2025.
    pub(crate) fn leaf(&self, alloc: Global, name: &str) -> Result<Cert, Fail> {
        let subject = (name, key_of(alloc, LEAF_KEY)?.to_public_key(alloc)?);
        let issuer = (&self.intermediate, &self.key);
        Ok(issued(alloc, subject, issuer, false, years(2025, 2026)?)?)
    }
}

/// The RSA private key in PKCS #8 octets, in hexadecimal.
fn key_of(alloc: Global, digits: &str) -> Result<PrivateKey, Fail> {
    let octets = hex::decode(alloc, digits)?;
    Ok(PrivateKey::from_pkcs8(alloc, &octets, &DemoScheme::new())?)
}

/// The first seconds of two years.
pub(crate) fn years(from: u16, to: u16) -> Result<(UtcDate, UtcDate), Fail> {
    match (UtcDate::ymd(from, 1, 1), UtcDate::ymd(to, 1, 1)) {
        (Some(from), Some(to)) => Ok((from, to)),
        _ => Err(Fail::from("no such year")),
    }
}

/// A root.
fn root_of(
    alloc: Global,
    key: &PrivateKey,
    (from, to): (UtcDate, UtcDate),
) -> Result<Cert, CertError> {
    let name = DirectoryName::new_common_name(alloc, "R")?;
    CertificateBuilder::new(alloc)
        .validity(from, to)
        .self_signed(name, key)
        .ca(true)
        .build(alloc, 1, &DemoScheme::new())
}

/// A certificate for a name and a key, under the issuer's.
fn issued(
    alloc: Global,
    (name, key): (&str, PublicKey),
    (issuer, issuer_key): (&Cert, &PrivateKey),
    ca: bool,
    (from, to): (UtcDate, UtcDate),
) -> Result<Cert, CertError> {
    let name = DirectoryName::new_common_name(alloc, name)?;
    let mut builder = CertificateBuilder::new(alloc)
        .validity(from, to)
        .subject(name, key)
        .ca(ca);
    builder.issuer_cert(issuer, issuer_key)?;
    builder.build(alloc, 2, &DemoScheme::new())
}
