//! The caller in the README of `der_core`.

use der_core::{Kids, Malformed, exact_elem, tag};
use std::test::Fail;

/// The contents of the INTEGER that a SEQUENCE begins with, None where it begins with none.
/// Nothing is copied; an error has the offset of the first fault.
fn first_integer(octets: &[u8]) -> Result<Option<&[u8]>, Malformed> {
    let sequence = exact_elem(octets)?;
    let Some(mut fields) = Kids::of(sequence, tag::SEQUENCE) else {
        return Ok(None);
    };
    Ok(fields.next_leaf(tag::INTEGER))
}

#[test]
fn an_integer(rt: HostRuntime) -> Result<(), Fail> {
    let octets = hex::decode(rt.alloc(), NUMBERS)?;
    let Some(first) = first_integer(&octets)? else {
        return Err(Fail::from("no INTEGER"));
    };
    assert_eq!(rt; first, [1, 0, 1].as_slice());
    Ok(())
}

/// A SEQUENCE of 65537 and 3, by `openssl asn1parse -genconf`.
const NUMBERS: &str = "30080203010001020103";
