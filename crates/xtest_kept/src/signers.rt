//! The signer and the signed contents of a signature.

use crate::samples::{FILE_HASH, SIGNATURE, signature};
use authenticode_signature::AuthenticodeSignature;
use std::alloc::Global;
use std::test::Fail;
use x509_core::Cert;

/// Whether octets are a signature over the digest, by its only certificate.
fn is_signature_over(alloc: Global, octets: &[u8], hash: &[u8]) -> bool {
    match signature(alloc, octets) {
        Some(signature) => signs(alloc, &signature, hash) && is_by_its_own(alloc, &signature),
        None => false,
    }
}

/// Whether the digest is signed, with three signed attributes and no unsigned ones.
fn signs(alloc: Global, signature: &AuthenticodeSignature, hash: &[u8]) -> bool {
    let signed = matches!(signature.authenticated_attributes(), Some([_, _, _]));
    let unstamped = matches!(signature.unauthenticated_attributes(), Some([]));
    signed && unstamped && is_of(alloc, signature, hash)
}

fn is_of(alloc: Global, signature: &AuthenticodeSignature, hash: &[u8]) -> bool {
    match signature.file_hash(alloc) {
        Ok(Some(digest)) => digest.as_slice() == hash,
        _ => false,
    }
}

fn is_by_its_own(alloc: Global, signature: &AuthenticodeSignature) -> bool {
    match signature.0.decode_certificates(alloc) {
        Ok(certificates) => is_by_the_first(alloc, signature, &certificates),
        Err(_) => false,
    }
}

fn is_by_the_first(
    alloc: Global,
    signature: &AuthenticodeSignature,
    certificates: &[Cert],
) -> bool {
    match signature.signing_certificate(alloc, certificates) {
        Ok(signer) => is_the_one(signer, certificates),
        Err(_) => false,
    }
}

fn is_the_one(signer: &Cert, certificates: &[Cert]) -> bool {
    match certificates {
        [first] => *signer == *first,
        _ => false,
    }
}

#[test]
fn the_signer_and_the_digest(rt: HostRuntime) -> Result<(), Fail> {
    let octets = hex::decode(rt.alloc(), SIGNATURE)?;
    let hash = hex::decode(rt.alloc(), FILE_HASH)?;
    assert!(rt; is_signature_over(rt.alloc(), &octets, &hash));
    Ok(())
}
