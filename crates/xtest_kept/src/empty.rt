//! Signed data without certificates and signers.

use crate::samples::{EMPTY, is_spelled, is_written, signature, signed_data};
use authenticode_core::AuthenticodeError;
use authenticode_signature::{AuthenticodeSignature, Pkcs7};
use cms_types::Pkcs7Certificate;
use std::alloc::Global;
use std::test::Fail;

/// Whether octets are signed data with nothing in its fields.
fn is_empty(alloc: Global, octets: &[u8]) -> bool {
    match signed_data(alloc, octets) {
        Some(signed) => has_nothing(&signed) && has_no_certificates(alloc, &signed),
        None => false,
    }
}

fn has_nothing(signed: &Pkcs7) -> bool {
    signed.digest_algorithms().is_empty()
        && signed.signer_infos().is_empty()
        && signed.encapsulated_content_info().content.is_none()
}

fn has_no_certificates(alloc: Global, signed: &Pkcs7) -> bool {
    match signed.decode_certificates(alloc) {
        Ok(certificates) => certificates.is_empty(),
        Err(_) => false,
    }
}

/// Whether octets are a signature without a signer and without a content.
fn is_unsigned(alloc: Global, octets: &[u8]) -> bool {
    match signature(alloc, octets) {
        Some(signature) => signs_nothing(alloc, &signature) && has_no_signer(alloc, &signature),
        None => false,
    }
}

fn signs_nothing(alloc: Global, signature: &AuthenticodeSignature) -> bool {
    let attributes = signature.authenticated_attributes().is_none()
        && signature.unauthenticated_attributes().is_none();
    match signature.file_hash(alloc) {
        Ok(None) => attributes,
        _ => false,
    }
}

fn has_no_signer(alloc: Global, signature: &AuthenticodeSignature) -> bool {
    matches!(
        &signature.signing_certificate(alloc, &[]),
        Err(AuthenticodeError::MultipleSignerInfo { count: 0 })
    )
}

/// Whether a copy and every conversion of the signed data in the octets is written as them.
fn is_kept(alloc: Global, octets: &[u8]) -> bool {
    match signed_data(alloc, octets) {
        Some(signed) => is_copied(alloc, &signed, octets),
        None => false,
    }
}

fn is_copied(alloc: Global, signed: &Pkcs7, octets: &[u8]) -> bool {
    match signed.try_clone(alloc) {
        Ok(copy) => is_converted(alloc, &signature_of(copy), octets),
        Err(_) => false,
    }
}

fn signature_of(signed: Pkcs7) -> AuthenticodeSignature {
    let value = Pkcs7Certificate::from(signed);
    AuthenticodeSignature::from(Pkcs7::from(value))
}

fn is_converted(alloc: Global, signature: &AuthenticodeSignature, octets: &[u8]) -> bool {
    is_spelled(alloc, signature, octets) && has_such_a_copy(alloc, signature, octets)
}

fn has_such_a_copy(alloc: Global, signature: &AuthenticodeSignature, octets: &[u8]) -> bool {
    match signature.try_clone(alloc) {
        Ok(copy) => is_written(alloc, &Pkcs7::from(copy), octets),
        Err(_) => false,
    }
}

#[test]
fn empty_signed_data(rt: HostRuntime) -> Result<(), Fail> {
    let octets = hex::decode(rt.alloc(), EMPTY)?;
    assert!(rt; is_empty(rt.alloc(), &octets));
    assert!(rt; is_unsigned(rt.alloc(), &octets));
    Ok(())
}

#[test]
fn conversions_and_copies(rt: HostRuntime) -> Result<(), Fail> {
    let octets = hex::decode(rt.alloc(), EMPTY)?;
    assert!(rt; is_kept(rt.alloc(), &octets));
    Ok(())
}
