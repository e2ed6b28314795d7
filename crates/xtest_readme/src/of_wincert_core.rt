//! A signature file and what its header wraps.

use std::alloc::Global;
use std::test::Fail;
use wincert_core::{CertificateType, WinCertificate, WinCertificateResult, certificate_of};

/// A signature file around signed data: revision 2.0, zeros up to a multiple of eight bytes.
fn signature_file(alloc: Global, signed_data: &[u8]) -> WinCertificateResult<Vec<u8>> {
    let kind = CertificateType::WinCertTypePkcsSignedData;
    WinCertificate::from_certificate(alloc, signed_data, kind)?.encode(alloc)
}

/// What the header of a signature file wraps, borrowed, padding included.
fn wrapped(file: &[u8]) -> WinCertificateResult<&[u8]> {
    certificate_of(file)
}

#[test]
fn wraps(rt: HostRuntime) -> Result<(), Fail> {
    let wanted = hex::decode(rt.alloc(), FILE)?;
    let file = signature_file(rt.alloc(), &[0x30, 0])?;
    assert_eq!(rt; file.as_slice(), wanted.as_slice());
    assert!(rt; Some(wrapped(&file)?) == file.get(8..));
    Ok(())
}

/// A length of 16, revision 2.0, type 2, an empty SEQUENCE and six zeros (PE Format, "The Attribute
/// Certificate Table").
const FILE: &str = "10000000000202003000000000000000";
