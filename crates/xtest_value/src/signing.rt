//! What is signed and accepted under the scheme of three rows.

use crate::scheme::ThreeRows;
use der_core::Octets;
use key_core::{PrivateKey, PublicKey, SigContext, SignatureAlgorithm, SignatureError};
use sig_core::{HashAlgorithm, Scheme};
use std::alloc::Global;
use std::test::Fail;

/// RSA with this digest algorithm.
fn rsa(hash: HashAlgorithm) -> SignatureAlgorithm {
    SignatureAlgorithm::RsaPkcs1v15(hash)
}

/// An RSA private key with modulus 17 and exponent 3.
const PRIVATE: &str = "301b02010002011102010302010502010702010b020101020102020104";

/// Its public key.
const PUBLIC: &str = "3006020111020103";

/// The public key of another one.
const OTHER: &str = "3006020112020103";

fn rows(alloc: Global) -> Result<ThreeRows, Fail> {
    Ok(ThreeRows {
        key: Octets::from(hex::decode(alloc, PUBLIC)?),
        secret: Octets::from(hex::decode(alloc, PRIVATE)?),
    })
}

fn public_key(alloc: Global, octets: &str) -> Result<PublicKey, Fail> {
    Ok(PublicKey::from_pkcs1(alloc, &hex::decode(alloc, octets)?)?)
}

/// Whether this is the text of the result for a signature.
fn has_text<S: Scheme>(
    alloc: Global,
    hash: HashAlgorithm,
    key: &PublicKey,
    (message, signature): (&[u8], &[u8]),
    scheme: &S,
    want: &str,
) -> Result<bool, Fail> {
    let returned = match rsa(hash).verify(alloc, key, message, signature, scheme) {
        Ok(()) => String::from_str(alloc, "accepted")?,
        Err(error) => format!(in alloc; "{error}")?,
    };
    Ok(returned.as_str() == want)
}

/// A digest algorithm, a key, a message, a signature, the text of the result, and why the case is
/// there.
type Row = (
    HashAlgorithm,
    &'static str,
    &'static str,
    &'static str,
    &'static str,
    &'static str,
);

#[rattlefmt::skip]
const ROWS: [Row; 7] = [
    (HashAlgorithm::SHA2_256, PUBLIC, "message", "good", "accepted", "the first row"),
    (HashAlgorithm::SHA2_256, PUBLIC, "message", "odd", "RSA error: the signature is malformed", "the second row"),
    (HashAlgorithm::SHA2_256, PUBLIC, "message", "bad", "invalid signature", "the third row"),
    (HashAlgorithm::SHA2_256, PUBLIC, "messages", "good", "invalid signature", "another message"),
    (HashAlgorithm::SHA2_256, PUBLIC, "message", "", "invalid signature", "no octets"),
    (HashAlgorithm::SHA2_512, PUBLIC, "message", "good", "invalid signature", "another digest"),
    (HashAlgorithm::SHA2_256, OTHER, "message", "good", "invalid signature", "another key"),
];

/// Whether the result for a case is the expected one.
fn is_as_expected(alloc: Global, row: Row, rows: &ThreeRows) -> Result<bool, Fail> {
    let (hash, key, message, signature, want, _why) = row;
    let key = public_key(alloc, key)?;
    let signed = (message.as_bytes(), signature.as_bytes());
    has_text(alloc, hash, &key, signed, rows, want)
}

#[test]
fn verdicts(rt: HostRuntime) -> Result<(), Fail> {
    let rows = rows(rt.alloc())?;
    for row in ROWS {
        let returned = is_as_expected(rt.alloc(), row, &rows)?;
        assert!(rt; returned, "{}", row.5);
    }
    Ok(())
}

/// What the key signs.
fn signed<S: Scheme>(
    alloc: Global,
    hash: HashAlgorithm,
    message: &[u8],
    scheme: &S,
) -> Result<Vec<u8>, SignatureError> {
    let Ok(octets) = hex::decode(alloc, PRIVATE) else {
        return Err(SignatureError::Memory);
    };
    let key = PrivateKey::from_pkcs1(alloc, &octets)?;
    rsa(hash).sign(alloc, message, &key, scheme)
}

/// Whether the scheme refuses to sign.
fn is_refused(alloc: Global, hash: HashAlgorithm, message: &[u8], rows: &ThreeRows) -> bool {
    match signed(alloc, hash, message, rows) {
        Ok(_) => false,
        Err(error) => {
            error
                == SignatureError::Rsa {
                    context: SigContext::SchemeRefused,
                }
        }
    }
}

#[test]
fn signatures(rt: HostRuntime) -> Result<(), Fail> {
    let rows = rows(rt.alloc())?;
    let made = signed(rt.alloc(), HashAlgorithm::SHA2_256, b"message", &rows)?;
    assert!(rt; made.as_slice() == b"good".as_slice());
    assert!(rt; is_refused(rt.alloc(), HashAlgorithm::SHA2_512, b"message", &rows));
    assert!(rt; is_refused(rt.alloc(), HashAlgorithm::SHA2_256, b"messages", &rows));
    Ok(())
}
