//! The lines of reports.

use authenticode_core::{Accepted, AuthenticodeError, CheckError, Excuse, Places};
use der_core::Octets;
use picky_check::{accepted_line, refused_line};
use std::alloc::{AllocError, Global};
use wincert_core::WinCertificateError;

// Signer, path and excuse of an accepted signature, and its line.
#[rattlefmt::skip]
const ACCEPTED: [(Option<usize>, &[usize], Excuse, &str); 4] = [
    (Some(0),  &[],         Excuse::None,  "accepted signer=0 path= excuse=none\n"),
    (Some(2),  &[1],        Excuse::Bag,   "accepted signer=2 path=1 excuse=bag\n"),
    (Some(10), &[1, 0, 21], Excuse::Token, "accepted signer=10 path=1,0,21 excuse=token\n"),
    (None,     &[],         Excuse::None,  "accepted signer= path= excuse=none\n"),
];

// Refusals of a header, and their lines.
#[rattlefmt::skip]
const HEADERS: [(WinCertificateError, &str); 7] = [
    (WinCertificateError::WrongRevisionValue { got: 1 },    "refused WrongRevisionValue\n"),
    (WinCertificateError::WrongCertificateType { got: 4 },  "refused WrongCertificateType\n"),
    (WinCertificateError::WrongLength { minimum: 8, got: 7 }, "refused WrongLength\n"),
    (WinCertificateError::CertificateDataIsEmpty,           "refused CertificateDataIsEmpty\n"),
    (WinCertificateError::Io { stated: 9, got: 8 },         "refused Io\n"),
    (WinCertificateError::TooLong,                          "refused TooLong\n"),
    (WinCertificateError::Memory,                           "refused Memory\n"),
];

#[test]
fn an_acceptance_is_a_line(rt: HostRuntime) -> Result<(), AllocError> {
    for (signer, places, excuse, want) in ACCEPTED {
        let path = places_of(rt.alloc(), places)?;
        let accepted = Accepted {
            signer,
            path,
            excuse,
        };
        assert!(rt;
            accepted_line(rt.alloc(), &accepted)?.as_str() == want,
            "{want}"
        );
    }
    Ok(())
}

fn places_of(alloc: Global, places: &[usize]) -> Result<Places, AllocError> {
    let mut path = Places::new(alloc);
    for place in places {
        path.push(*place)?;
    }
    Ok(path)
}

#[test]
fn a_refusal_is_a_line_with_its_name(rt: HostRuntime) -> Result<(), AllocError> {
    let mismatch = AuthenticodeError::FileHashMismatch {
        actual: Octets::from_slice(rt.alloc(), b"")?,
        expected: Octets::from_slice(rt.alloc(), b"")?,
    };
    let rows = [
        (
            CheckError::Authenticode(mismatch),
            "refused FileHashMismatch\n",
        ),
        (
            CheckError::Authenticode(AuthenticodeError::NoMessageDigest),
            "refused NoMessageDigest\n",
        ),
        (
            CheckError::Authenticode(AuthenticodeError::Memory),
            "refused Memory\n",
        ),
        (CheckError::Memory, "refused Memory\n"),
    ];
    for (error, want) in &rows {
        assert!(rt; is_line(rt.alloc(), error, want)?, "{want}");
    }
    Ok(())
}

#[test]
fn a_refusal_of_a_header_is_a_line(rt: HostRuntime) -> Result<(), AllocError> {
    for (error, want) in HEADERS {
        assert!(rt;
            is_line(rt.alloc(), &CheckError::Win(error), want)?,
            "{want}"
        );
    }
    Ok(())
}

fn is_line(alloc: Global, error: &CheckError, want: &str) -> Result<bool, AllocError> {
    Ok(refused_line(alloc, error)?.as_str() == want)
}
