//! Values of attributes that are no string of a known type.

use der_core::{DerError, Raw, Structure};
use name_types::{AttributeValue, OtherValue};
use std::alloc::Global;
use std::test::Fail;

fn is_taken(alloc: Global, der: &[u8]) -> Result<bool, DerError> {
    let element = Raw::from_der(alloc, der)?;
    Ok(OtherValue::new(element).is_some())
}

/// A UTF8String, a PrintableString and an IA5String (RFC 5280 4.1.2.4).
#[test]
fn known_strings_are_not_taken(rt: HostRuntime) -> Result<(), Fail> {
    assert!(rt; !is_taken(rt.alloc(), &[0x0C, 0x01, b'A'])?);
    assert!(rt; !is_taken(rt.alloc(), &[0x13, 0x01, b'A'])?);
    assert!(rt; !is_taken(rt.alloc(), &[0x16, 0x01, b'A'])?);
    Ok(())
}

/// A NumericString, and an IA5String with an octet past 127, which is invalid.
#[test]
fn other_strings_are_taken(rt: HostRuntime) -> Result<(), Fail> {
    assert!(rt; is_taken(rt.alloc(), &[0x12, 0x01, b'1'])?);
    assert!(rt; is_taken(rt.alloc(), &[0x16, 0x01, 0x80])?);
    Ok(())
}

/// The INTEGER 5 (X.690 8.3).
const FIVE: &[u8] = &[0x02, 0x01, 0x05];

#[test]
fn a_taken_element_is_written_as_it_was(rt: HostRuntime) -> Result<(), Fail> {
    let Some(five) = OtherValue::new(Raw::from_der(rt.alloc(), FIVE)?) else {
        return Err(Fail::from("an INTEGER isn't taken"));
    };
    let octets = AttributeValue::Other(five).to_der(rt.alloc())?;
    assert!(rt; octets.as_slice() == FIVE);
    Ok(())
}
