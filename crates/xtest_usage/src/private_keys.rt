//! Private keys: one is read, and signs.

use key_core::{PrivateKey, PublicKey, SignatureAlgorithm, SignatureError};
use sig_core::{DemoScheme, HashAlgorithm};
use std::alloc::Global;
use std::test::Fail;

/// The public key of a private key in PKCS #8 octets.
fn public_half(alloc: Global, octets: &[u8]) -> Result<PublicKey, SignatureError> {
    let key = PrivateKey::from_pkcs8(alloc, octets, &DemoScheme::new())?;
    Ok(key.to_public_key(alloc)?)
}

/// A signature of the message by an RSA private key in PKCS #8 octets.
fn signed(alloc: Global, octets: &[u8], msg: &[u8]) -> Result<Vec<u8>, SignatureError> {
    let key = PrivateKey::from_pkcs8(alloc, octets, &DemoScheme::new())?;
    let algorithm = SignatureAlgorithm::RsaPkcs1v15(HashAlgorithm::SHA2_256);
    algorithm.sign(alloc, msg, &key, &DemoScheme::new())
}

/// Whether the signature of the message is one by the key.
fn is_signed(
    alloc: Global,
    key: &PublicKey,
    msg: &[u8],
    signature: &[u8],
) -> Result<bool, SignatureError> {
    let algorithm = SignatureAlgorithm::RsaPkcs1v15(HashAlgorithm::SHA2_256);
    match algorithm.verify(alloc, key, msg, signature, &DemoScheme::new()) {
        Ok(()) => Ok(true),
        Err(SignatureError::BadSignature) => Ok(false),
        Err(error) => Err(error),
    }
}

/// An RSA key with modulus 17 and exponent 3.
#[rattlefmt::skip]
const KEY: &str = "3031020100300d06092a864886f70d0101010500041d301b02010002011102010302010502010702010b020101020102020104";

/// Its signature of `message`, by `tools/cases/demo_signatures.py`.
const SIGNATURE: &str = "387296ab30c30dc5969134fbbf5bcc6818e878ba18ae4739e780697573b372a7";

/// Whether the signature is one of `message`, and not of a longer text.
fn is_of_message_alone(
    alloc: Global,
    key: &PublicKey,
    signature: &[u8],
) -> Result<bool, SignatureError> {
    let is_of_message = is_signed(alloc, key, b"message", signature)?;
    Ok(is_of_message && !is_signed(alloc, key, b"messages", signature)?)
}

#[test]
fn signs(rt: HostRuntime) -> Result<(), Fail> {
    let octets = hex::decode(rt.alloc(), KEY)?;
    let signature = signed(rt.alloc(), &octets, b"message")?;
    let wanted = hex::decode(rt.alloc(), SIGNATURE)?;
    assert_eq!(rt; signature.as_slice(), wanted.as_slice());
    let key = public_half(rt.alloc(), &octets)?;
    assert!(rt; is_of_message_alone(rt.alloc(), &key, &signature)?);
    Ok(())
}
