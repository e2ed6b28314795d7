//! Names: how a name prints, and whether two are the same.

use der_core::{DerError, Structure};
use std::alloc::Global;
use std::test::Fail;
use x509_types::Name;

/// The text of the name in octets.
fn printed(alloc: Global, octets: &[u8]) -> Result<String, DerError> {
    let name = Name::from_der(alloc, octets)?;
    Ok(name.to_string(alloc)?)
}

/// Whether octets encode the same name.
fn same_name(alloc: Global, a: &[u8], b: &[u8]) -> Result<bool, DerError> {
    let a = Name::from_der(alloc, a)?;
    let b = Name::from_der(alloc, b)?;
    Ok(a == b)
}

/// C=AT, O=Example Ltd, CN=www.example.org, as OpenSSL writes it.
const COMPANY: &str =
    "303d310b300906035504061302415431143012060355040a0c0b4578616d706c65204c74643118301606035504030c0f7777772e6578616d706c652e6f7267";

/// CN=A.
const ONE: &str = "300c310a300806035504030c0141";

#[test]
fn prints(rt: HostRuntime) -> Result<(), Fail> {
    let company = hex::decode(rt.alloc(), COMPANY)?;
    let text = printed(rt.alloc(), &company)?;
    assert_eq!(rt; text.as_str(), "C=AT,O=Example Ltd,CN=www.example.org");
    assert!(rt; printed(rt.alloc(), &[5, 0]) == Err(DerError::Shape));
    Ok(())
}

#[test]
fn compares(rt: HostRuntime) -> Result<(), Fail> {
    let company = hex::decode(rt.alloc(), COMPANY)?;
    let one = hex::decode(rt.alloc(), ONE)?;
    assert!(rt; same_name(rt.alloc(), &company, &company)?);
    assert!(rt; !same_name(rt.alloc(), &company, &one)?);
    Ok(())
}
