//! Public keys: the modulus of an RSA key.

use der_core::{DerError, Structure};
use std::alloc::Global;
use std::test::Fail;
use x509_types::{SubjectKey, SubjectPublicKeyInfo};

/// The octets of the modulus, None for a key of another kind.
fn modulus(alloc: Global, octets: &[u8]) -> Result<Option<Vec<u8>>, DerError> {
    let info = SubjectPublicKeyInfo::from_der(alloc, octets)?;
    match &info.subject_public_key {
        SubjectKey::Rsa(key) => {
            let octets = key.modulus.as_unsigned_bytes_be();
            Ok(Some(Vec::from_slice(alloc, octets)?))
        }
        _ => Ok(None),
    }
}

/// The size of an RSA key's modulus in octets, None for a key of another kind.
fn modulus_length(alloc: Global, octets: &[u8]) -> Result<Option<usize>, DerError> {
    let info = SubjectPublicKeyInfo::from_der(alloc, octets)?;
    match &info.subject_public_key {
        SubjectKey::Rsa(key) => Ok(Some(key.modulus.as_unsigned_bytes_be().len())),
        _ => Ok(None),
    }
}

/// An RSA key that OpenSSL made.
#[rattlefmt::skip]
const RSA: &str = "305c300d06092a864886f70d0101010500034b003048024100d9ab8621470ac2c49a8b15db29712117ab566b3d47861a5bfa83a41cf42151c75a712a7959e7413a5d8d929b6ad720fe18b3cb5cb0577d95bcaa119d061b0a550203010001";

/// Its modulus, as OpenSSL prints it.
#[rattlefmt::skip]
const MODULUS: &str = "d9ab8621470ac2c49a8b15db29712117ab566b3d47861a5bfa83a41cf42151c75a712a7959e7413a5d8d929b6ad720fe18b3cb5cb0577d95bcaa119d061b0a55";

#[test]
fn reads(rt: HostRuntime) -> Result<(), Fail> {
    let octets = hex::decode(rt.alloc(), RSA)?;
    let wanted = hex::decode(rt.alloc(), MODULUS)?;
    let Some(read) = modulus(rt.alloc(), &octets)? else {
        return Err(Fail::from("a key of another kind"));
    };
    assert_eq!(rt; read.as_slice(), wanted.as_slice());
    assert_eq!(rt; modulus_length(rt.alloc(), &octets)?, Some(64));
    Ok(())
}
