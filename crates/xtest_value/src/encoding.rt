//! What is written for a certificate.

use std::alloc::Global;
use std::test::Fail;
use wincert_core::{CertificateType, RevisionType, WinCertificate, WinCertificateError};

/// A certificate, its type and its length with the header, and what is written.
struct Encoded {
    certificate: &'static str,
    certificate_type: CertificateType,
    length: u32,
    octets: &'static str,
}

#[rattlefmt::skip]
const ENCODED: [Encoded; 5] = [
    Encoded { certificate: "aabbcc", certificate_type: CertificateType::WinCertTypePkcsSignedData, length: 11, octets: "1000000000020200aabbcc0000000000" },
    Encoded { certificate: "01200340056070089001", certificate_type: CertificateType::WinCertTypePkcs1Sign, length: 18, octets: "180000000002090001200340056070089001000000000000" },
    Encoded { certificate: "01020304050607", certificate_type: CertificateType::WinCertTypeX509, length: 15, octets: "10000000000201000102030405060700" },
    Encoded { certificate: "0102030405060708", certificate_type: CertificateType::WinCertTypeReserved1, length: 16, octets: "10000000000203000102030405060708" },
    Encoded { certificate: "", certificate_type: CertificateType::WinCertTypePkcsSignedData, length: 8, octets: "0800000000020200" },
];

#[test]
fn encoding(rt: HostRuntime) -> Result<(), Fail> {
    for row in &ENCODED {
        let certificate = hex::decode(rt.alloc(), row.certificate)?;
        let octets = hex::decode(rt.alloc(), row.octets)?;
        let kind = row.certificate_type;
        let made = WinCertificate::from_certificate(rt.alloc(), &certificate, kind)?;
        assert!(rt; made.length() == row.length);
        assert!(rt; made.revision() == RevisionType::WinCertificateRevision20);
        assert!(rt; made.get_certificate() == certificate.as_slice());
        assert!(rt; is_written(rt.alloc(), made, &octets)?);
    }
    Ok(())
}

/// Whether a certificate is written as these octets, which are read with the padding as part of it,
/// and written again.
fn is_written(
    alloc: Global,
    made: WinCertificate,
    octets: &[u8],
) -> Result<bool, WinCertificateError> {
    let written = made.encode(alloc)?;
    let read = WinCertificate::decode(alloc, &written)?;
    let has_padding = Some(read.get_certificate()) == octets.get(8..);
    let again = read.encode(alloc)?;
    Ok(has_padding && written.as_slice() == octets && again.as_slice() == octets)
}
