//! Signed data with certificates only.

use crate::samples::{EMPTY, ONE, is_written, signed_data};
use authenticode_signature::Pkcs7;
use std::alloc::Global;
use std::test::Fail;
use x509_core::Cert;

/// Whether signed data made with the certificates in the octets is written as them.
fn is_made_again(alloc: Global, octets: &[u8]) -> bool {
    match signed_data(alloc, octets) {
        Some(signed) => is_made_of_its_own(alloc, &signed, octets),
        None => false,
    }
}

fn is_made_of_its_own(alloc: Global, signed: &Pkcs7, octets: &[u8]) -> bool {
    match signed.decode_certificates(alloc) {
        Ok(certificates) => is_made_of(alloc, &certificates, octets),
        Err(_) => false,
    }
}

fn is_made_of(alloc: Global, certificates: &[Cert], octets: &[u8]) -> bool {
    match Pkcs7::of_certificates(alloc, certificates) {
        Ok(signed) => is_written(alloc, &signed, octets),
        Err(_) => false,
    }
}

#[test]
fn certificates_are_carried(rt: HostRuntime) -> Result<(), Fail> {
    for text in [ONE, EMPTY] {
        let octets = hex::decode(rt.alloc(), text)?;
        assert!(rt; is_made_again(rt.alloc(), &octets), "{text}");
    }
    Ok(())
}
