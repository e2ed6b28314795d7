//! Numbers of revisions and types, and values that differ in one part only.

use std::alloc::Global;
use std::test::Fail;
use wincert_core::{CertificateType, RevisionType, WinCertificate, WinCertificateError};

const REVISIONS: [(RevisionType, u16); 2] = [
    (RevisionType::WinCertificateRevision10, 0x0100),
    (RevisionType::WinCertificateRevision20, 0x0200),
];

const TYPES: [(CertificateType, u16); 4] = [
    (CertificateType::WinCertTypeX509, 1),
    (CertificateType::WinCertTypePkcsSignedData, 2),
    (CertificateType::WinCertTypeReserved1, 3),
    (CertificateType::WinCertTypePkcs1Sign, 9),
];

#[test]
fn revisions(rt: HostRuntime) -> Result<(), Fail> {
    assert!(rt; RevisionType::ALL.len() == REVISIONS.len());
    for (revision, number) in &REVISIONS {
        assert!(rt; RevisionType::ALL.contains(revision));
        assert!(rt; RevisionType::try_from(*number) == Ok(*revision));
        assert!(rt; revision.number() == *number);
    }
    let wrong = WinCertificateError::WrongRevisionValue { got: 0x0001 };
    assert!(rt; RevisionType::try_from(0x0001) == Err(wrong));
    Ok(())
}

#[test]
fn types(rt: HostRuntime) -> Result<(), Fail> {
    assert!(rt; CertificateType::ALL.len() == TYPES.len());
    for (kind, number) in &TYPES {
        assert!(rt; CertificateType::ALL.contains(kind));
        assert!(rt; CertificateType::try_from(*number) == Ok(*kind));
        assert!(rt; kind.number() == *number);
    }
    let wrong = WinCertificateError::WrongCertificateType { got: 4 };
    assert!(rt; CertificateType::try_from(4) == Err(wrong));
    Ok(())
}

/// A WIN_CERTIFICATE, and others that differ in revision, type, certificate and length.
const APART: [&str; 5] = [
    "090000000002010007",
    "090000000001010007",
    "090000000002020007",
    "090000000002010008",
    "080000000002010007",
];

#[test]
fn equality(rt: HostRuntime) -> Result<(), Fail> {
    for (place, digits) in APART.iter().enumerate() {
        for (other, others) in APART.iter().enumerate() {
            assert!(rt; are_equal(rt.alloc(), *digits, *others)? == (place == other));
        }
    }
    Ok(())
}

/// Whether the values in two texts of hexadecimal are equal.
fn are_equal(alloc: Global, one: &str, other: &str) -> Result<bool, Fail> {
    let one = WinCertificate::decode(alloc, &hex::decode(alloc, one)?)?;
    let other = WinCertificate::decode(alloc, &hex::decode(alloc, other)?)?;
    Ok(one == other)
}
