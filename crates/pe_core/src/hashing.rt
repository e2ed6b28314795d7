//! The digest of parts, one after the other, which aren't joined in memory.

ghost use Rattle.std.specs.Prelude.{◌≡◌, ◌++◌, IfOk, vec_len};
ghost use Rattle.md5.specs.Md5.{md5};
ghost use Rattle.sha1.specs.Sha1.{sha1};
ghost use Rattle.sig_core.specs.Digest.{digest_of, digest_size};

use md5::{Digest as _, Md5};
use sha1::Sha1;
use sha2::{Digest, Sha224, Sha256, Sha384, Sha512};
use sig_core::HashAlgorithm;
use std::alloc::{AllocError, Global};

/// The digest of three parts as one message.
pub(crate) fn digest_of_parts(
    alloc: Global,
    algorithm: HashAlgorithm,
    first: &[u8],
    second: &[u8],
    third: &[u8],
) -> Result<Vec<u8>, AllocError>
    ensures digest { IfOk result (λ digest.
        digest.items ≡ digest_of algorithm (first.now ++ second.now ++ third.now)) }
    ensures size { IfOk result (λ digest. vec_len digest ≡ digest_size algorithm) }
{
    match algorithm {
        HashAlgorithm::MD5 => Vec::from_slice(alloc, &md5_of(first, second, third)),
        HashAlgorithm::SHA1 => Vec::from_slice(alloc, &sha1_of(first, second, third)),
        HashAlgorithm::SHA2_224 => {
            Vec::from_slice(alloc, &sha2_of::<Sha224>(first, second, third))
        }
        HashAlgorithm::SHA2_256 => {
            Vec::from_slice(alloc, &sha2_of::<Sha256>(first, second, third))
        }
        HashAlgorithm::SHA2_384 => {
            Vec::from_slice(alloc, &sha2_of::<Sha384>(first, second, third))
        }
        HashAlgorithm::SHA2_512 => {
            Vec::from_slice(alloc, &sha2_of::<Sha512>(first, second, third))
        }
    }
}

fn md5_of(first: &[u8], second: &[u8], third: &[u8]) -> [u8; 16]
    ensures { result ≡ md5 (first.now ++ second.now ++ third.now) }
{
    let mut hasher = Md5::new();
    hasher.update(first);
    hasher.update(second);
    hasher.update(third);
    hasher.finalize()
}

fn sha1_of(first: &[u8], second: &[u8], third: &[u8]) -> [u8; 20]
    ensures { result ≡ sha1 (first.now ++ second.now ++ third.now) }
{
    let mut hasher = Sha1::new();
    hasher.update(first);
    hasher.update(second);
    hasher.update(third);
    hasher.finalize()
}

/// The digest under one of the functions of SHA-2.
fn sha2_of<D: Digest>(first: &[u8], second: &[u8], third: &[u8]) -> D::Output
    ensures { D.digest_of (first.now ++ second.now ++ third.now) result }
{
    let mut hasher = D::new();
    hasher.update(first);
    hasher.update(second);
    hasher.update(third);
    hasher.finalize()
}
