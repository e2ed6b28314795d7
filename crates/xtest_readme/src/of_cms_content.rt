//! What an Authenticode signature signs in place of a file.

use cms_content::SpcIndirectDataContent;
use der_core::{DerError, Structure};
use std::alloc::Global;
use std::test::Fail;

/// The digest of a file that an SpcIndirectDataContent has.
fn file_digest(alloc: Global, octets: &[u8]) -> Result<Vec<u8>, DerError> {
    let content = SpcIndirectDataContent::from_der(alloc, octets)?;
    let digest = content.message_digest.digest.as_slice();
    Ok(Vec::from_slice(alloc, digest)?)
}

#[test]
fn reads(rt: HostRuntime) -> Result<(), Fail> {
    let octets = hex::decode(rt.alloc(), CONTENT)?;
    let wanted = hex::decode(rt.alloc(), HASH)?;
    let digest = file_digest(rt.alloc(), &octets)?;
    assert_eq!(rt; digest.as_slice(), wanted.as_slice());
    Ok(())
}

/// The content of a PE image with the SHA-256 of `abc`, as `tools/cases/first_path.py` puts it together.
#[rattlefmt::skip]
const CONTENT: &str = "304c3017060a2b06010401823702010f3009030100a004a20280003031300d060960864801650304020105000420ba7816bf8f01cfea414140de5dae2223b00361a396177a9cb410ff61f20015ad";

/// The SHA-256 of `abc` (FIPS 180-4).
const HASH: &str = "ba7816bf8f01cfea414140de5dae2223b00361a396177a9cb410ff61f20015ad";
