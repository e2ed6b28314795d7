//! Texts of errors.

use authenticode_signature::{Pkcs7, Pkcs7Error};
use std::alloc::Global;
use std::test::Fail;

/// Whether octets are refused with a text that begins with this one.
fn is_refused_so(alloc: Global, octets: &[u8], text: &str) -> bool {
    match Pkcs7::from_der(alloc, octets) {
        Ok(_) => false,
        Err(error) => begins_so(alloc, &error, text),
    }
}

fn begins_so(alloc: Global, error: &Pkcs7Error, text: &str) -> bool {
    match format!(in alloc; "{error}") {
        Ok(returned) => returned.as_str().starts_with(text),
        Err(_) => false,
    }
}

#[test]
fn texts(rt: HostRuntime) -> Result<(), Fail> {
    let unread = "(ASN1) couldn't deserialize pkcs7 certificate: ";
    assert!(rt; is_refused_so(rt.alloc(), &[0x30], unread));
    assert!(rt; begins_so(rt.alloc(), &Pkcs7Error::Memory, "out of memory"));
    Ok(())
}
