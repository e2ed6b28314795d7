//! Texts of errors for elements that aren't written. No test vector reaches them, since most need
//! contents of more than 4,294,967,295 octets.

use der_core::DerError;
use key_core::{Element, KeyError, KeyIdGenError, SignatureError};
use std::test::Fail;

/// The names of structures.
#[rattlefmt::skip]
const CALLED: [(Element, &str); 11] = [
    (Element::Certificate, "x509 certificate"),
    (Element::TbsCertificate, "tbs certificate"),
    (Element::Request, "certification request"),
    (Element::RequestInfo, "certification request info"),
    (Element::Pkcs7, "pkcs7 certificate"),
    (Element::TimestampRequest, "TimestampRequest"),
    (Element::PrivateKeyInfo, "private key info (pkcs8)"),
    (Element::RsaPrivateKey, "rsa private key"),
    (Element::EcPrivateKey, "ec private key"),
    (Element::SubjectPublicKeyInfo, "subject public key info"),
    (Element::RsaPublicKey, "rsa public key"),
];

/// Contents that are too long, as an error and as it prints.
const SOURCE: DerError = DerError::TooLong;

const TEXT: &str = "some contents of the tree pass 4294967295 octets and cannot be written";

#[test]
fn keys(rt: HostRuntime) -> Result<(), Fail> {
    for (element, called) in CALLED {
        let source = SOURCE;
        let returned = format!(in rt.alloc();
            "{}",
            KeyError::Asn1Serialization { element, source }
        )?;
        let want = format!(in rt.alloc(); "(ASN1) couldn't serialize {called}: {TEXT}")?;
        assert_eq!(rt; returned, want);
    }
    Ok(())
}

#[test]
fn signatures_and_identifiers(rt: HostRuntime) -> Result<(), Fail> {
    let (element, source) = (Element::RsaPublicKey, SOURCE);
    let unwritten = KeyError::Asn1Serialization { element, source };
    let returned = format!(in rt.alloc(); "{}", SignatureError::Key { source: unwritten })?;
    let want = format!(in rt.alloc();
        "Key error: (ASN1) couldn't serialize rsa public key: {TEXT}"
    )?;
    assert_eq!(rt; returned, want);
    let returned = format!(in rt.alloc();
        "{}",
        KeyIdGenError::Asn1Serialization { element, source }
    )?;
    let want = format!(in rt.alloc(); "(asn1) couldn't serialize rsa public key: {TEXT}")?;
    assert_eq!(rt; returned, want);
    let returned = format!(in rt.alloc(); "{}", KeyIdGenError::InvalidKey { source: unwritten })?;
    let want = format!(in rt.alloc();
        "invalid key: (ASN1) couldn't serialize rsa public key: {TEXT}"
    )?;
    assert_eq!(rt; returned, want);
    Ok(())
}
