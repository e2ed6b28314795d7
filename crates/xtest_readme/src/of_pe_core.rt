//! The digest of a signed program, and its certificate table.

use pe_core::{PeError, PeImage};
use sig_core::HashAlgorithm;
use std::alloc::{AllocError, Global};
use std::test::Fail;

/// What the signature of a program is about: its digest by SHA-256.
fn digest_of(alloc: Global, image: &PeImage<'_>) -> Result<Vec<u8>, AllocError> {
    image.digest(alloc, HashAlgorithm::SHA2_256)
}

/// Where the signature of a program is, borrowed, or why it has none.
fn signature_of(program: &[u8]) -> Result<&[u8], PeError> {
    match PeImage::parse(program) {
        Ok(image) => Ok(image.table()),
        Err(error) => Err(error),
    }
}

/// The first signature by PKCS #7 in the table of a program, borrowed, if a loader copies nothing of
/// the program that isn't signed.
fn first_signature<'a>(image: &PeImage<'a>) -> Option<&'a [u8]> {
    image.expect_whole().ok()?;
    let mut entries = image.entries().ok()?;
    while let Some(entry) = entries.next() {
        if entry.certificate_type() == 2 {
            return Some(entry.certificate());
        }
    }
    None
}

#[test]
fn finds_and_digests(rt: HostRuntime) -> Result<(), Fail> {
    let program = hex::decode(rt.alloc(), PROGRAM)?;
    let image = PeImage::parse(&program)?;
    let wanted = hex::decode(rt.alloc(), DIGEST)?;
    let digest = digest_of(rt.alloc(), &image)?;
    assert_eq!(rt; digest.as_slice(), wanted.as_slice());
    assert!(rt; Some(signature_of(&program)?) == program.get(328..));
    assert_eq!(rt; first_signature(&image), Some(b"".as_slice()));
    assert_eq!(rt; signature_of(b"MZ".as_slice()).err(), Some(PeError::NotMz));
    Ok(())
}

/// A program of zeros but for its headers, with a table of eight octets, as `tools/cases/pe_rows.py` puts it together.
#[rattlefmt::skip]
const PROGRAM: &str = "4d5a00000000000000000000000000000000000000000000000000000000000000000000000000000000000000000000000000000000000000000000400000005045000000000000000000000000000000000000f00000000b02000000000000000000000000000000000000000000000000000000000000000000000000000000000000000000000000000000000000000000004801000000000000000000000000000000000000000000000000000000000000000000000000000000000000000000001000000000000000000000000000000000000000000000000000000000000000000000004801000008000000000000000000000000000000000000000000000000000000000000000000000000000000000000000000000000000000000000000000000000000000000000000000000000000000000000000000000000000000000000000800000000020200";

/// Its digest by Python's `hashlib`, without the checksum, the table's entry and the table.
const DIGEST: &str = "c128e6210b3fdb3d6e159ba591ff45f2102f540c9ce9aca4775b64cf1bd012ac";
