//! The digest that the attributes of a signature carry.

use authenticode_parts::{digest_of_content, indirect_of};
use der_core::DerError;
use sig_core::{HashAlgorithm, ShaVariant};
use std::alloc::Global;
use std::test::Fail;

/// The message digest of the signature of a PE image with this SHA-256: that of the contents of its
/// SpcIndirectDataContent (RFC 2315 9.3).
fn message_digest(alloc: Global, file_hash: &[u8]) -> Result<Vec<u8>, DerError> {
    let indirect = indirect_of(alloc, ShaVariant::SHA2_256, file_hash)?;
    digest_of_content(alloc, &indirect, HashAlgorithm::SHA2_256)
}

#[test]
fn digests(rt: HostRuntime) -> Result<(), Fail> {
    let hash = hex::decode(rt.alloc(), HASH)?;
    let wanted = hex::decode(rt.alloc(), DIGEST)?;
    let digest = message_digest(rt.alloc(), &hash)?;
    assert_eq!(rt; digest.as_slice(), wanted.as_slice());
    Ok(())
}

/// The SHA-256 of `abc` (FIPS 180-4).
const HASH: &str = "ba7816bf8f01cfea414140de5dae2223b00361a396177a9cb410ff61f20015ad";

/// The message digest by Python's hashlib.
const DIGEST: &str = "6b00646e9ba32b38bcdfe80a0e22b4671c4d01316d815cc7bb60626b24aa2832";
