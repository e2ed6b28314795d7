//! Signatures in a WIN_CERTIFICATE, with octets after them.

use crate::samples::EMPTY;
use authenticode_core::AuthenticodeError;
use authenticode_signature::AuthenticodeSignature;
use der_core::{DerError, DerFault};
use std::alloc::Global;
use std::test::Fail;
use wincert_core::{CertificateType, WinCertificate};
use x509_core::CertError;

/// The result for octets.
#[derive(Clone, Copy, Debug, PartialEq, Eq)]
enum Answer {
    Read,
    /// Refused at the first octet after the signed data, which has 41.
    Trailing,
    Other,
}

/// The octets after the signed data, and the result.
#[rattlefmt::skip]
const AFTER: [(&str, Answer); 6] = [
    ("", Answer::Read),
    ("00", Answer::Read),
    ("00000000000000", Answer::Read),
    ("0000000000000000", Answer::Trailing),
    ("00000000000001", Answer::Trailing),
    ("3000", Answer::Trailing),
];

fn answer_to(alloc: Global, octets: &[u8]) -> Answer {
    let pkcs = CertificateType::WinCertTypePkcsSignedData;
    match WinCertificate::from_certificate(alloc, octets, pkcs) {
        Ok(certificate) => answer_of(alloc, &certificate),
        Err(_) => Answer::Other,
    }
}

fn answer_of(alloc: Global, certificate: &WinCertificate) -> Answer {
    match AuthenticodeSignature::from_wincert(alloc, certificate) {
        Ok(_) => Answer::Read,
        Err(error) => refusal(&error),
    }
}

fn refusal(error: &AuthenticodeError) -> Answer {
    match error {
        AuthenticodeError::CertError(CertError::Asn1Deserialization { source, .. }) => {
            refusal_of_octets(source)
        }
        _ => Answer::Other,
    }
}

fn refusal_of_octets(source: &DerError) -> Answer {
    match source {
        DerError::Malformed(fault) if fault.at == 41 && fault.fault == DerFault::Trailing => {
            Answer::Trailing
        }
        _ => Answer::Other,
    }
}

#[test]
fn octets_after_signed_data(rt: HostRuntime) -> Result<(), Fail> {
    for (after, answer) in &AFTER {
        let text = format!(in rt.alloc(); "{EMPTY}{after}")?;
        let octets = hex::decode(rt.alloc(), &text)?;
        assert_eq!(rt; answer_to(rt.alloc(), &octets), *answer, "{after}");
    }
    Ok(())
}
