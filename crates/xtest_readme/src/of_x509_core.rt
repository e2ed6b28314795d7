//! A certificate that is checked under its issuers.

use names_core::UtcDate;
use sig_core::VerdictTable;
use std::alloc::Global;
use std::test::Fail;
use x509_core::{Cert, CertError};

/// Checks a certificate under its issuers, the nearest first and a root last, by a verdict table.
fn check(
    alloc: Global,
    (cert, issuers): (&Cert, &[Cert]),
    date: &UtcDate,
    table: &VerdictTable,
) -> Result<(), CertError> {
    let validator = cert.verifier().exact_date(date).chain(issuers.iter());
    validator.verify(alloc, table)
}

#[test]
fn checks(rt: HostRuntime) -> Result<(), Fail> {
    let leaf = Cert::from_der(rt.alloc(), &hex::decode(rt.alloc(), LEAF)?)?;
    let issuers = alone(rt.alloc(), &hex::decode(rt.alloc(), ROOT)?)?;
    let table = VerdictTable::parse(rt.alloc(), TABLE.as_bytes())?;
    assert!(rt; is_accepted_in(rt.alloc(), &leaf, &issuers, 2026, &table));
    assert!(rt; !is_accepted_in(rt.alloc(), &leaf, &issuers, 2027, &table));
    assert!(rt; !is_accepted_in(rt.alloc(), &leaf, &[], 2026, &table));
    Ok(())
}

/// The one certificate that octets are.
fn alone(alloc: Global, octets: &[u8]) -> Result<Vec<Cert>, CertError> {
    let mut certificates = Vec::new(alloc);
    certificates.push(Cert::from_der(alloc, octets)?)?;
    Ok(certificates)
}

/// Whether the certificate is accepted on the 15th of June of a year.
fn is_accepted_in(
    alloc: Global,
    cert: &Cert,
    issuers: &[Cert],
    year: u16,
    table: &VerdictTable,
) -> bool {
    match UtcDate::ymd(year, 6, 15) {
        Some(date) => check(alloc, (cert, issuers), &date, table).is_ok(),
        None => false,
    }
}

/// A certificate of 2026, its key on P-256, that OpenSSL issued under the root below.
#[rattlefmt::skip]
const LEAF: &str = "3082015f30820104a00302010202021002300a06082a8648ce3d040302300f310d300b06035504030c04526f6f74301e170d3236303130313030303030305a170d3237303130313030303030305a300f310d300b06035504030c044c6561663059301306072a8648ce3d020106082a8648ce3d0301070342000411955cf1765ea82c4f1f0b6caf6668330f9a8574bae11f20b4e1e782d7c5b089dbfda9c97d3a7943818b78668228bbc3efa8cd4d5781154ef5475fe4fe42f428a350304e300c0603551d130101ff04023000301f0603551d2304183016801455e0851eb6a5034c74a07b4ccb3cb69d11fecedb301d0603551d0e04160414fae42913dde64d0636645bcb69598e381e92201d300a06082a8648ce3d0403020349003046022100a6411e44fc737c6e93d9c46f679bf73ec21d878bed90ba1bbf6b2572bca5419a0221009a464885ced303522225a21603bb8747faa04c8bb0f6d051e66c571cb3acfc6f";

/// A root from 2025 to 2034.
#[rattlefmt::skip]
const ROOT: &str = "308201403081e6a00302010202021001300a06082a8648ce3d040302300f310d300b06035504030c04526f6f74301e170d3235303130313030303030305a170d3335303130313030303030305a300f310d300b06035504030c04526f6f743059301306072a8648ce3d020106082a8648ce3d030107034200042c48d30d6596b4341dbb68697351c2d87bcacedef5497be822f2c091cd821399bb7f1f826f4812c08ceaefbdddba767de9d3cc163a9781d6b9b8fd82d7a57144a3323030300f0603551d130101ff040530030101ff301d0603551d0e0416041455e0851eb6a5034c74a07b4ccb3cb69d11fecedb300a06082a8648ce3d0403020349003046022100d3e387a01d46616e0edd51445b65c9e1c27edb46ca7985d6e5fdbb9eaf2e6fec022100d545ddc1ecdbcccc511e4c8ea93a66cd60308a757ebb644674eddde1dcf714c3";

/// That OpenSSL verifies the first of them by the key of the second: the digests of the key, of
/// what is signed and of the signature.
#[rattlefmt::skip]
const TABLE: &str = "picky-verdicts 2\naccept p256-sha256 838425d13b8dff2f47094e6336f135af7859068824c60b0cae8529c7ea12495b 1a6ce866bb0c0c7b6c5b72ae27ba4985d4f32005320b5abc0eb4f4131611f7ac 8b7d972080eb48c279613603965e6b88771aebe615d394f18c18257683d88595\n";
