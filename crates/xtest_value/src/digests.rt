//! Digests from RFC 1321 and FIPS 180-4.

use sig_core::HashAlgorithm;
use std::alloc::{AllocError, Global};
use std::test::Fail;

/// The digests of `abc` in RFC 1321 and FIPS 180-4, as `openssl dgst` prints them.
#[rattlefmt::skip]
const DIGESTS: [(HashAlgorithm, &str); 6] = [
    (HashAlgorithm::MD5, "900150983cd24fb0d6963f7d28e17f72"),
    (HashAlgorithm::SHA1, "a9993e364706816aba3e25717850c26c9cd0d89d"),
    (HashAlgorithm::SHA2_224, "23097d223405d8228642a477bda255b32aadbce4bda0b3f7e36c9da7"),
    (HashAlgorithm::SHA2_256, "ba7816bf8f01cfea414140de5dae2223b00361a396177a9cb410ff61f20015ad"),
    (HashAlgorithm::SHA2_384, "cb00753f45a35e8bb5a03d699ac65007272c32ab0eded1631a8b605a43ff5bed8086072ba1e7cc2358baeca134c825a7"),
    (HashAlgorithm::SHA2_512, "ddaf35a193617abacc417349ae20413112e6fa4e89a97ea20a9eeee64b55d39a2192992a274fc1a836ba3c23a3feebbd454d4423643ce80e2a9ac94fa54ca49f"),
];

#[test]
fn digests(rt: HostRuntime) -> Result<(), Fail> {
    assert!(rt; HashAlgorithm::ALL.len() == DIGESTS.len());
    for (algorithm, want) in &DIGESTS {
        assert!(rt; HashAlgorithm::ALL.contains(algorithm), "{want}");
        assert!(rt; gives(rt.alloc(), *algorithm, want)?, "{want}");
    }
    Ok(())
}

/// Whether this is the digest of `abc`, and has the size of the algorithm.
fn gives(alloc: Global, algorithm: HashAlgorithm, want: &str) -> Result<bool, AllocError> {
    let digest = algorithm.digest(alloc, b"abc")?;
    let digits = hex::encode(alloc, digest.as_slice())?;
    Ok(digits.as_str() == want && digest.len() == algorithm.output_size())
}
