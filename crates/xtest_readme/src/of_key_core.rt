//! The key identifier of a public key.

use key_core::{KeyIdGenError, KeyIdGenMethod, PublicKey};
use sig_core::HashAlgorithm;
use std::alloc::Global;
use std::test::Fail;

/// The key identifier of a SubjectPublicKeyInfo, 20 bytes: the SHA-1 of the bits of its key (RFC
/// 5280 4.2.1.2).
fn key_identifier(alloc: Global, octets: &[u8]) -> Result<Vec<u8>, KeyIdGenError> {
    let key = PublicKey::from_der(alloc, octets)?;
    let method = KeyIdGenMethod::SPKValueHashedLeftmost160(HashAlgorithm::SHA1);
    method.generate_from(alloc, &key)
}

#[test]
fn identifies(rt: HostRuntime) -> Result<(), Fail> {
    let octets = hex::decode(rt.alloc(), KEY)?;
    let wanted = hex::decode(rt.alloc(), IDENTIFIER)?;
    let identifier = key_identifier(rt.alloc(), &octets)?;
    assert_eq!(rt; identifier.as_slice(), wanted.as_slice());
    Ok(())
}

/// A key on the curve P-256 that OpenSSL made.
#[rattlefmt::skip]
const KEY: &str = "3059301306072a8648ce3d020106082a8648ce3d030107034200042c48d30d6596b4341dbb68697351c2d87bcacedef5497be822f2c091cd821399bb7f1f826f4812c08ceaefbdddba767de9d3cc163a9781d6b9b8fd82d7a57144";

/// The subject key identifier that OpenSSL puts into its certificate.
const IDENTIFIER: &str = "55e0851eb6a5034c74a07b4ccb3cb69d11fecedb";
