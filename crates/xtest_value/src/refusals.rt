//! Octets that contain no WIN_CERTIFICATE.

use std::test::Fail;
use wincert_core::{WinCertificate, WinCertificateError, certificate_of};

/// Octets, why they are refused, and the text of the error.
struct Refused {
    name: &'static str,
    octets: &'static str,
    error: WinCertificateError,
    text: &'static str,
}

#[rattlefmt::skip]
const REFUSED: [Refused; 14] = [
    Refused { name: "no octets", octets: "", error: WinCertificateError::WrongLength { minimum: 8, got: 0 }, text: "a WIN_CERTIFICATE has at least 8 octets, and this one has 0" },
    Refused { name: "seven octets that state length 0", octets: "00000000000202", error: WinCertificateError::WrongLength { minimum: 8, got: 7 }, text: "a WIN_CERTIFICATE has at least 8 octets, and this one has 7" },
    Refused { name: "length 4", octets: "0400000000020200", error: WinCertificateError::WrongLength { minimum: 8, got: 4 }, text: "a WIN_CERTIFICATE has at least 8 octets, and this one has 4" },
    Refused { name: "length 1", octets: "0100000000020200", error: WinCertificateError::WrongLength { minimum: 8, got: 1 }, text: "a WIN_CERTIFICATE has at least 8 octets, and this one has 1" },
    Refused { name: "length 7", octets: "070000000002020001", error: WinCertificateError::WrongLength { minimum: 8, got: 7 }, text: "a WIN_CERTIFICATE has at least 8 octets, and this one has 7" },
    Refused { name: "length 0", octets: "0000000000010100", error: WinCertificateError::CertificateDataIsEmpty, text: "the WIN_CERTIFICATE states the length 0, so it holds no certificate" },
    Refused { name: "length 0 before an unknown revision", octets: "0000000000030500", error: WinCertificateError::CertificateDataIsEmpty, text: "the WIN_CERTIFICATE states the length 0, so it holds no certificate" },
    Refused { name: "revision 3.0", octets: "090000000003010001", error: WinCertificateError::WrongRevisionValue { got: 0x0300 }, text: "unknown revision 0x0300 of a WIN_CERTIFICATE (known are 0x0100 and 0x0200)" },
    Refused { name: "revision before an unknown type and a short length", octets: "0400000002000400", error: WinCertificateError::WrongRevisionValue { got: 2 }, text: "unknown revision 0x0002 of a WIN_CERTIFICATE (known are 0x0100 and 0x0200)" },
    Refused { name: "type 4 before a short length", octets: "0400000000010400", error: WinCertificateError::WrongCertificateType { got: 4 }, text: "unknown type 4 of a WIN_CERTIFICATE (known are 1, 2, 3 and 9)" },
    Refused { name: "type 258", octets: "090000000002020107", error: WinCertificateError::WrongCertificateType { got: 258 }, text: "unknown type 258 of a WIN_CERTIFICATE (known are 1, 2, 3 and 9)" },
    Refused { name: "nine octets of sixteen", octets: "1000000000020200aa", error: WinCertificateError::Io { stated: 16, got: 9 }, text: "the WIN_CERTIFICATE states a length of 16 octets, and only 9 are there" },
    Refused { name: "one octet less than stated", octets: "0a0000000002020007", error: WinCertificateError::Io { stated: 10, got: 9 }, text: "the WIN_CERTIFICATE states a length of 10 octets, and only 9 are there" },
    Refused { name: "the greatest length", octets: "ffffffff00020200", error: WinCertificateError::Io { stated: 0xFFFF_FFFF, got: 8 }, text: "the WIN_CERTIFICATE states a length of 4294967295 octets, and only 8 are there" },
];

#[test]
fn refusing(rt: HostRuntime) -> Result<(), Fail> {
    for row in &REFUSED {
        let octets = hex::decode(rt.alloc(), row.octets)?;
        let refusal = WinCertificate::decode(rt.alloc(), &octets).err();
        assert!(rt; refusal == Some(row.error), "{}", row.name);
        assert!(rt; certificate_of(&octets) == Err(row.error), "{}", row.name);
        let text = format!(in rt.alloc(); "{}", row.error)?;
        assert!(rt; text.as_str() == row.text, "{}", row.name);
    }
    Ok(())
}

#[test]
fn texts_of_other_errors(rt: HostRuntime) -> Result<(), Fail> {
    let long = format!(in rt.alloc(); "{}", WinCertificateError::TooLong)?;
    let want =
        "the certificate is too long: header, certificate and padding pass 4294967295 octets";
    assert!(rt; long.as_str() == want);
    let memory = format!(in rt.alloc(); "{}", WinCertificateError::Memory)?;
    assert!(rt; memory.as_str() == "out of memory");
    Ok(())
}
