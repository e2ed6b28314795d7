//! Trust lists: reading them, and whether the CA of a signer is on them.

use crate::samples::{EMPTY, SIGNATURE, signature, signed_data};
use authenticode_core::{Accepted, AuthenticodeError, CertificateTrustList, CtlError};
use authenticode_signature::{AuthenticodeSignature, AuthenticodeValidator};
use names_core::DirectoryName;
use sig_core::DemoScheme;
use std::alloc::{AllocError, Global};
use std::test::Fail;

/// Whether a list has no content.
fn lacks_content(list: &CertificateTrustList) -> bool {
    matches!(&list.ctl_entries(), Err(CtlError::NoContent))
}

/// Whether octets are a list without a content, and so are a copy of it and that of the signed data.
fn is_without_content(alloc: Global, octets: &[u8]) -> bool {
    match CertificateTrustList::from_der(alloc, octets) {
        Ok(list) => lacks_content(&list) && is_copied(alloc, &list) && is_converted(alloc, octets),
        Err(_) => false,
    }
}

fn is_copied(alloc: Global, list: &CertificateTrustList) -> bool {
    match list.try_clone(alloc) {
        Ok(copy) => lacks_content(&copy),
        Err(_) => false,
    }
}

fn is_converted(alloc: Global, octets: &[u8]) -> bool {
    match signed_data(alloc, octets) {
        Some(signed) => lacks_content(&CertificateTrustList::from_pkcs7(signed)),
        None => false,
    }
}

/// Whether octets aren't read as a list.
fn is_refused(alloc: Global, octets: &[u8]) -> bool {
    matches!(
        &CertificateTrustList::from_der(alloc, octets),
        Err(CtlError::FailedToParseCtl(_))
    )
}

#[test]
fn a_list_without_content_is_read(rt: HostRuntime) -> Result<(), Fail> {
    let octets = hex::decode(rt.alloc(), EMPTY)?;
    assert!(rt; is_without_content(rt.alloc(), &octets));
    Ok(())
}

#[test]
fn other_octets_are_refused(rt: HostRuntime) -> Result<(), Fail> {
    assert!(rt; is_refused(rt.alloc(), &[0x30, 0x00]));
    Ok(())
}

/// What is said of the CA of a signer.
#[derive(Clone, Copy, Debug, PartialEq, Eq)]
enum Outcome {
    Listed,
    NotTrusted,
    Revoked,
    Expired,
    NotYetValid,
    Malformed,
    NoContent,
    OtherContent,
    Other,
}

fn outcome_of(answer: &Result<Accepted, AuthenticodeError>) -> Outcome {
    match answer {
        Ok(accepted) => outcome_of_place(accepted.signer),
        Err(error) => outcome_of_error(error),
    }
}

fn outcome_of_place(place: Option<usize>) -> Outcome {
    if place == Some(0) {
        Outcome::Listed
    } else {
        Outcome::Other
    }
}

fn outcome_of_error(error: &AuthenticodeError) -> Outcome {
    match error {
        AuthenticodeError::CAIsNotTrusted => Outcome::NotTrusted,
        AuthenticodeError::CaCertificateRevoked => Outcome::Revoked,
        AuthenticodeError::CaCertificateExpired {
            not_after: 0,
            now: 1,
        } => Outcome::Expired,
        AuthenticodeError::CaCertificateNotYetValid {
            not_before: FAR,
            now: 1,
        } => Outcome::NotYetValid,
        AuthenticodeError::CtlError(error) => outcome_of_list(error),
        _ => Outcome::Other,
    }
}

fn outcome_of_list(error: &CtlError) -> Outcome {
    match error {
        CtlError::MalformedEntry => Outcome::Malformed,
        CtlError::NoContent => Outcome::NoContent,
        CtlError::IncorrectContentValue => Outcome::OtherContent,
        _ => Outcome::Other,
    }
}

/// The seconds of the octets `00 00 00 00 00 00 00 7F`.
const FAR: i64 = 915131444281;

/// The result for the signature, whose CA has the common name A, on the list alone.
fn outcome_on(alloc: Global, octets: &[u8], list: &[u8], now: i64) -> Outcome {
    let Some(signature) = signature(alloc, octets) else {
        return Outcome::Other;
    };
    let Ok(list) = CertificateTrustList::from_der(alloc, list) else {
        return Outcome::Other;
    };
    verified(alloc, &list_alone(alloc, &signature, &list, now))
}

/// The validator that asks for the list alone.
fn list_alone<'a>(
    alloc: Global,
    signature: &'a AuthenticodeSignature,
    list: &'a CertificateTrustList,
    now: i64,
) -> AuthenticodeValidator<'a> {
    signature
        .authenticode_verifier(alloc)
        .ignore_basic_authenticode_validation()
        .ignore_signing_certificate_check()
        .ignore_ca_against_ctl_check()
        .require_ca_against_ctl_check()
        .ctl(list, now)
}

fn verified(alloc: Global, verifier: &AuthenticodeValidator<'_>) -> Outcome {
    outcome_of(&verifier.verify(alloc, &DemoScheme::new()))
}

#[test]
fn the_ca_is_on_the_list(rt: HostRuntime) -> Result<(), Fail> {
    let octets = hex::decode(rt.alloc(), SIGNATURE)?;
    for (why, list, now, expected) in CASES {
        let list = hex::decode(rt.alloc(), list)?;
        let outcome = outcome_on(rt.alloc(), &octets, &list, now);
        assert!(rt; outcome == expected, "{why}");
    }
    Ok(())
}

/// Whether on a list without entries the CA isn't trusted with another name excluded, and is with its
/// own too and with a third, and not with none.
fn names_add_up(
    alloc: Global,
    signature: &AuthenticodeSignature,
    list: &CertificateTrustList,
) -> Result<bool, AllocError> {
    let mut verifier = list_alone(alloc, signature, list, 1);
    verifier.exclude_cert_authorities(&[DirectoryName::new_common_name(alloc, "B")?])?;
    let other = verified(alloc, &verifier) == Outcome::NotTrusted;
    verifier.exclude_cert_authorities(&[DirectoryName::new_common_name(alloc, "A")?])?;
    let own = verified(alloc, &verifier) == Outcome::Listed;
    verifier.exclude_cert_authorities(&[DirectoryName::new_common_name(alloc, "C")?])?;
    let third = verified(alloc, &verifier) == Outcome::Listed;
    let verifier = verifier.ignore_excluded_cert_authorities();
    let none = verified(alloc, &verifier) == Outcome::NotTrusted;
    Ok(other && own && third && none)
}

fn are_excluded(alloc: Global, octets: &[u8], list: &[u8]) -> bool {
    let Some(signature) = signature(alloc, octets) else {
        return false;
    };
    let Ok(list) = CertificateTrustList::from_der(alloc, list) else {
        return false;
    };
    names_add_up(alloc, &signature, &list).unwrap_or(false)
}

#[test]
fn excluded_names_add_up(rt: HostRuntime) -> Result<(), Fail> {
    let octets = hex::decode(rt.alloc(), SIGNATURE)?;
    let list = hex::decode(rt.alloc(), NO_ENTRIES)?;
    assert!(rt; are_excluded(rt.alloc(), &octets, &list));
    Ok(())
}

/// A list without entries.
const NO_ENTRIES: &str =
    "305106092a864886f70d010702a04430420201013100303906092b0601040182370a01a02c302a300c060a2b0601040182370a0309170d3230303130313030303030305a300906052b0e03021a050030003100";

/// Why the row is here, the list, now, and the result. The lists were put together by their ASN.1.
#[rattlefmt::skip]
const CASES: [(&str, &str, i64, Outcome); 14] = [
    ("no entry", "305106092a864886f70d010702a04430420201013100303906092b0601040182370a01a02c302a300c060a2b0601040182370a0309170d3230303130313030303030305a300906052b0e03021a050030003100", 1, Outcome::NotTrusted),
    ("an entry of another name", "307a06092a864886f70d010702a06d306b0201013100306206092b0601040182370a01a0553053300c060a2b0601040182370a0309170d3230303130313030303030305a300906052b0e03021a05003029302704010131223020060a2b0601040182370a0b1d31120410d41d8cd98f00b204e9800998ecf8427e3100", 1, Outcome::NotTrusted),
    ("an entry without times", "307a06092a864886f70d010702a06d306b0201013100306206092b0601040182370a01a0553053300c060a2b0601040182370a0309170d3230303130313030303030305a300906052b0e03021a05003029302704010131223020060a2b0601040182370a0b1d31120410f332517fa27068761515d99d33b11a143100", 1, Outcome::Listed),
    ("it ended a second ago: -1 intervals are 0 seconds", "30819606092a864886f70d010702a081883081850201013100307c06092b0601040182370a01a06f306d300c060a2b0601040182370a0309170d3230303130313030303030305a300906052b0e03021a050030433041040101313c3020060a2b0601040182370a0b1d31120410f332517fa27068761515d99d33b11a143018060a2b0601040182370a0b68310a0408ffffffffffffffff3100", 1, Outcome::Expired),
    ("it ends now", "30819606092a864886f70d010702a081883081850201013100307c06092b0601040182370a01a06f306d300c060a2b0601040182370a0309170d3230303130313030303030305a300906052b0e03021a050030433041040101313c3020060a2b0601040182370a0b1d31120410f332517fa27068761515d99d33b11a143018060a2b0601040182370a0b68310a0408ffffffffffffffff3100", 0, Outcome::Listed),
    ("an end of seven octets", "30819506092a864886f70d010702a081873081840201013100307b06092b0601040182370a01a06e306c300c060a2b0601040182370a0309170d3230303130313030303030305a300906052b0e03021a050030423040040101313b3020060a2b0601040182370a0b1d31120410f332517fa27068761515d99d33b11a143017060a2b0601040182370a0b6831090407000000000000003100", 1, Outcome::Revoked),
    ("an end without a value", "30818a06092a864886f70d010702a07d307b0201013100307206092b0601040182370a01a0653063300c060a2b0601040182370a0309170d3230303130313030303030305a300906052b0e03021a05003039303704010131323020060a2b0601040182370a0b1d31120410f332517fa27068761515d99d33b11a14300e060a2b0601040182370a0b6831003100", 1, Outcome::Malformed),
    ("a beginning without a value", "30818a06092a864886f70d010702a07d307b0201013100307206092b0601040182370a01a0653063300c060a2b0601040182370a0309170d3230303130313030303030305a300906052b0e03021a05003039303704010131323020060a2b0601040182370a0b1d31120410f332517fa27068761515d99d33b11a14300e060a2b0601040182370a0b7e31003100", 1, Outcome::Malformed),
    ("it begins later", "30819606092a864886f70d010702a081883081850201013100307c06092b0601040182370a01a06f306d300c060a2b0601040182370a0309170d3230303130313030303030305a300906052b0e03021a050030433041040101313c3020060a2b0601040182370a0b1d31120410f332517fa27068761515d99d33b11a143018060a2b0601040182370a0b7e310a0408000000000000007f3100", 1, Outcome::NotYetValid),
    ("later, but for time stamping alone", "3081b706092a864886f70d010702a081a93081a6020101310030819c06092b0601040182370a01a0818e30818b300c060a2b0601040182370a0309170d3230303130313030303030305a300906052b0e03021a05003061305f040101315a3020060a2b0601040182370a0b1d31120410f332517fa27068761515d99d33b11a143018060a2b0601040182370a0b7e310a0408000000000000007f301c060a2b0601040182370a0b7f310e040c300a06082b060105050703083100", 1, Outcome::Listed),
    ("later, for code signing", "3081b706092a864886f70d010702a081a93081a6020101310030819c06092b0601040182370a01a0818e30818b300c060a2b0601040182370a0309170d3230303130313030303030305a300906052b0e03021a05003061305f040101315a3020060a2b0601040182370a0b1d31120410f332517fa27068761515d99d33b11a143018060a2b0601040182370a0b7e310a0408000000000000007f301c060a2b0601040182370a0b7f310e040c300a06082b060105050703033100", 1, Outcome::NotYetValid),
    ("two entries of the name, the second one good", "3081c206092a864886f70d010702a081b43081b102010131003081a706092b0601040182370a01a08199308196300c060a2b0601040182370a0309170d3230303130313030303030305a300906052b0e03021a0500306c3041040101313c3020060a2b0601040182370a0b1d31120410f332517fa27068761515d99d33b11a143018060a2b0601040182370a0b68310a0408ffffffffffffffff302704010131223020060a2b0601040182370a0b1d31120410f332517fa27068761515d99d33b11a143100", 1, Outcome::Expired),
    ("no content", "302306092a864886f70d010702a01630140201013100300b06092b0601040182370a013100", 1, Outcome::NoContent),
    ("a content of octets", "302706092a864886f70d010702a01a30180201013100300f06092a864886f70d010701a00204003100", 1, Outcome::OtherContent),
];
