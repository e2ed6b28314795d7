//! Digests of messages.

ghost use Rattle.std.specs.Prelude.{◌≡◌, IfOk, vec_len};
ghost use Rattle.sig_core.specs.Digest.{digest_of, digest_size, digest_name};

use md5::{Digest as _, Md5};
use sha1::Sha1;
use sha2::{Digest as _, Sha224, Sha256, Sha384, Sha512};
use std::alloc::{AllocError, Global};

/// The digest algorithms: MD5 of RFC 1321, SHA-1 and SHA-2 of FIPS 180-4.
#[derive(Clone, Copy, PartialEq, Eq, Hash, Debug)]
pub enum HashAlgorithm {
    MD5,
    SHA1,
    SHA2_224,
    SHA2_256,
    SHA2_384,
    SHA2_512,
}

impl HashAlgorithm {
    /// Every digest algorithm, in the order of the enum.
    pub const ALL: [HashAlgorithm; 6] = [
        HashAlgorithm::MD5,
        HashAlgorithm::SHA1,
        HashAlgorithm::SHA2_224,
        HashAlgorithm::SHA2_256,
        HashAlgorithm::SHA2_384,
        HashAlgorithm::SHA2_512,
    ];

    /// The digest of the message.
    pub fn digest(self, alloc: Global, msg: &[u8]) -> Result<Vec<u8>, AllocError>
        ensures digest { IfOk result (λ digest. digest.items ≡ digest_of self msg.now) }
        ensures size { IfOk result (λ digest. vec_len digest ≡ digest_size self) }
    {
        match self {
            HashAlgorithm::MD5 => Vec::from_slice(alloc, &Md5::digest(msg)),
            HashAlgorithm::SHA1 => Vec::from_slice(alloc, &Sha1::digest(msg)),
            HashAlgorithm::SHA2_224 => Vec::from_slice(alloc, &Sha224::digest(msg)),
            HashAlgorithm::SHA2_256 => Vec::from_slice(alloc, &Sha256::digest(msg)),
            HashAlgorithm::SHA2_384 => Vec::from_slice(alloc, &Sha384::digest(msg)),
            HashAlgorithm::SHA2_512 => Vec::from_slice(alloc, &Sha512::digest(msg)),
        }
    }

    /// How many octets a digest has.
    pub fn output_size(self) -> usize
        ensures { result ≡ digest_size self }
    {
        match self {
            HashAlgorithm::MD5 => 16,
            HashAlgorithm::SHA1 => 20,
            HashAlgorithm::SHA2_224 => 28,
            HashAlgorithm::SHA2_256 => 32,
            HashAlgorithm::SHA2_384 => 48,
            HashAlgorithm::SHA2_512 => 64,
        }
    }

    /// The name of the algorithm.
    pub fn name(self) -> &'static str
        ensures { result.now ≡ digest_name self }
    {
        match self {
            HashAlgorithm::MD5 => "MD5",
            HashAlgorithm::SHA1 => "SHA-1",
            HashAlgorithm::SHA2_224 => "SHA-224",
            HashAlgorithm::SHA2_256 => "SHA-256",
            HashAlgorithm::SHA2_384 => "SHA-384",
            HashAlgorithm::SHA2_512 => "SHA-512",
        }
    }
}
