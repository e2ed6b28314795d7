//! What octets decode to.

use std::alloc::Global;
use std::test::Fail;
use wincert_core::{WinCertificate, certificate_of};

/// Octets, and what they decode to.
struct Decoded {
    name: &'static str,
    octets: &'static str,
    /// Length, revision and type.
    header: (u32, u16, u16),
    certificate: &'static str,
}

#[rattlefmt::skip]
const DECODED: [Decoded; 7] = [
    Decoded { name: "revision 1.0, padding kept", octets: "10000000000101000100000000000000", header: (16, 0x0100, 1), certificate: "0100000000000000" },
    Decoded { name: "signed data and its padding", octets: "1000000000020200aabbcc0000000000", header: (16, 0x0200, 2), certificate: "aabbcc0000000000" },
    Decoded { name: "octets past the stated length", octets: "0b00000000020200aabbcc0007", header: (11, 0x0200, 2), certificate: "aabbcc" },
    Decoded { name: "the reserved type", octets: "090000000002030007", header: (9, 0x0200, 3), certificate: "07" },
    Decoded { name: "a signature of PKCS #1", octets: "180000000002090001200340056070089001000000000000", header: (24, 0x0200, 9), certificate: "01200340056070089001000000000000" },
    Decoded { name: "zeros alone", octets: "0a000000000202000000", header: (10, 0x0200, 2), certificate: "0000" },
    Decoded { name: "a header alone", octets: "0800000000020200", header: (8, 0x0200, 2), certificate: "" },
];

#[test]
fn decoding(rt: HostRuntime) -> Result<(), Fail> {
    for row in &DECODED {
        assert!(rt; is_decoded(rt.alloc(), row)?, "{}", row.name);
    }
    Ok(())
}

/// Whether octets decode to what the case says, as a value and borrowed.
fn is_decoded(alloc: Global, row: &Decoded) -> Result<bool, Fail> {
    let octets = hex::decode(alloc, row.octets)?;
    let certificate = hex::decode(alloc, row.certificate)?;
    let read = WinCertificate::decode(alloc, &octets)?;
    Ok(
        header_of(&read) == row.header
            && read.get_certificate() == certificate.as_slice()
            && certificate_of(&octets) == Ok(read.get_certificate()),
    )
}

/// Length, revision and type of a WIN_CERTIFICATE.
fn header_of(read: &WinCertificate) -> (u32, u16, u16) {
    let kind = read.certificate_type();
    (read.length(), read.revision().number(), kind.number())
}

#[test]
fn copy(rt: HostRuntime) -> Result<(), Fail> {
    for row in &DECODED {
        let octets = hex::decode(rt.alloc(), row.octets)?;
        let read = WinCertificate::decode(rt.alloc(), &octets)?;
        assert!(rt; read.try_clone(rt.alloc())? == read, "{}", row.name);
    }
    Ok(())
}
