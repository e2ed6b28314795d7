//! The caller in the README of `asn1_types`.

use asn1_types::{ObjectIdentifier, TextError};
use der_core::{DerError, Structure};
use std::alloc::Global;
use std::test::Fail;

/// The encoding of an OID in dotted text, None where the text is no OID.
fn encoded(alloc: Global, text: &str) -> Result<Option<Vec<u8>>, DerError> {
    match ObjectIdentifier::from_text(alloc, text) {
        Ok(oid) => Ok(Some(oid.to_der(alloc)?)),
        Err(TextError::BadText) => Ok(None),
        Err(TextError::Memory) => Err(DerError::Memory),
    }
}

#[test]
fn a_curve(rt: HostRuntime) -> Result<(), Fail> {
    let wanted = hex::decode(rt.alloc(), PRIME256V1)?;
    let Some(octets) = encoded(rt.alloc(), "1.2.840.10045.3.1.7")? else {
        return Err(Fail::from("no OID"));
    };
    assert_eq!(rt; octets.as_slice(), wanted.as_slice());
    assert!(rt; encoded(rt.alloc(), "1.40")?.is_none());
    Ok(())
}

/// 1.2.840.10045.3.1.7, by `openssl asn1parse -genstr`.
const PRIME256V1: &str = "06082a8648ce3d030107";
