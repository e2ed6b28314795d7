//! Contents at the maximal depth that the builder of signatures writes, under the demonstration
//! scheme.

use crate::samples::{KEY, ONE, signed_data};
use asn1_types::oids::SIGNED_DATA;
use asn1_types::{IntegerAsn1, ObjectIdentifier};
use authenticode_signature::{AuthenticodeSignatureBuilder, AuthenticodeSignatureBuilderError};
use cms_types::{ContentValue, EncapsulatedContentInfo};
use der_core::{DerError, Raw, whole_element};
use key_core::PrivateKey;
use names_core::DirectoryName;
use sig_core::{DemoScheme, HashAlgorithm};
use std::alloc::Global;
use std::test::Fail;
use x509_core::Cert;

/// 63 sequences, each within the one before it.
#[rattlefmt::skip]
const NESTED: &str = "307c307a30783076307430723070306e306c306a30683066306430623060305e305c305a30583056305430523050304e304c304a30483046304430423040303e303c303a30383036303430323030302e302c302a30283026302430223020301e301c301a30183016301430123010300e300c300a30083006300430023000";

/// The result of building a signature.
#[derive(Clone, Copy, Debug, PartialEq, Eq)]
enum Outcome {
    Built,
    /// Refused because the content is too deep.
    TooDeep,
    Other,
}

/// The element in the octets, as a content with its type, which is two levels deeper (RFC 5652
/// 5.2).
fn content_of(alloc: Global, octets: &[u8]) -> Option<EncapsulatedContentInfo> {
    let elem = whole_element(octets)?;
    match (
        ObjectIdentifier::from_known(alloc, SIGNED_DATA),
        Raw::from_elem(alloc, elem),
    ) {
        (Ok(content_type), Ok(kept)) => {
            EncapsulatedContentInfo::new(content_type, Some(ContentValue::Other(kept)))
        }
        _ => None,
    }
}

/// The issuer and the serial number of the first certificate.
fn name_of(alloc: Global, certificates: &[Cert]) -> Option<(DirectoryName, IntegerAsn1)> {
    let first = certificates.first()?;
    match (
        first.issuer_name(alloc),
        first.serial_number().try_clone(alloc),
    ) {
        (Ok(issuer), Ok(serial_number)) => Some((issuer, serial_number)),
        _ => None,
    }
}

/// The certificates of the sample.
fn certificates_of(alloc: Global, octets: &[u8]) -> Option<Vec<Cert>> {
    let signed = signed_data(alloc, octets)?;
    match signed.decode_certificates(alloc) {
        Ok(certificates) => Some(certificates),
        Err(_) => None,
    }
}

/// The result of building a signature over the content with the first certificate.
fn outcome_of(
    alloc: Global,
    content: EncapsulatedContentInfo,
    certificates: Vec<Cert>,
    key: &PrivateKey,
) -> Outcome {
    match name_of(alloc, &certificates) {
        Some((issuer, serial_number)) => {
            let builder = AuthenticodeSignatureBuilder::new()
                .digest_algorithm(HashAlgorithm::SHA2_256)
                .content_info(content)
                .signing_key(key)
                .issuer_and_serial_number(issuer, serial_number)
                .certs(certificates);
            outcome_by(alloc, builder)
        }
        None => Outcome::Other,
    }
}

fn outcome_by(alloc: Global, builder: AuthenticodeSignatureBuilder<'_>) -> Outcome {
    match builder.build(alloc, &DemoScheme::new()) {
        Ok(_) => Outcome::Built,
        Err(error) => refusal(&error),
    }
}

fn refusal(error: &AuthenticodeSignatureBuilderError) -> Outcome {
    match error {
        AuthenticodeSignatureBuilderError::Asn1DerError(DerError::TooDeep) => Outcome::TooDeep,
        _ => Outcome::Other,
    }
}

/// The result for the octets as a content.
fn outcome_over(alloc: Global, octets: &[u8], sample: &[u8], key: &PrivateKey) -> Outcome {
    match (content_of(alloc, octets), certificates_of(alloc, sample)) {
        (Some(content), Some(certificates)) => outcome_of(alloc, content, certificates, key),
        _ => Outcome::Other,
    }
}

/// Whether a content of 62 levels is signed, which makes 64 with its type, and one of 63 is too
/// deep.
fn is_each_with(alloc: Global, key: &PrivateKey) -> Result<bool, Fail> {
    let sample = hex::decode(alloc, ONE)?;
    let nested = hex::decode(alloc, NESTED)?;
    // The contents of the outermost sequence are after two octets.
    match nested.get(2..) {
        Some(inner) => Ok(
            outcome_over(alloc, inner, &sample, key) == Outcome::Built
                && outcome_over(alloc, &nested, &sample, key) == Outcome::TooDeep,
        ),
        None => Ok(false),
    }
}

/// The same with the private key in the octets.
fn is_each_by(alloc: Global, octets: &[u8]) -> Result<bool, Fail> {
    match PrivateKey::from_pkcs8(alloc, octets, &DemoScheme::new()) {
        Ok(key) => is_each_with(alloc, &key),
        Err(_) => Ok(false),
    }
}

#[test]
fn contents_may_be_too_deep(rt: HostRuntime) -> Result<(), Fail> {
    let octets = hex::decode(rt.alloc(), KEY)?;
    assert!(rt; is_each_by(rt.alloc(), &octets)?);
    Ok(())
}
