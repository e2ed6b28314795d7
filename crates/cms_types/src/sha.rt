//! AlgorithmIdentifiers of digest algorithms.

ghost use Rattle.std.specs.Prelude.{◌≡◌, IfOk};
ghost use Rattle.key_types.specs.AlgorithmIdentifier.{algorithm_identifier};
ghost use Rattle.cms_types.specs.DigestAlgorithm.{digest_algorithm};

use key_types::AlgorithmIdentifier;
use sig_core::ShaVariant;
use std::alloc::{AllocError, Global};

/// The AlgorithmIdentifier of a digest algorithm (RFC 2315 6.3) with NULL parameters, as in signed
/// programs. Readers accept NULL and none (RFC 3370 2.1, RFC 5754 2, by which writers are to write
/// none; for MD5 NULL, RFC 3370 2.2).
pub fn new_sha(alloc: Global, hash: ShaVariant) -> Result<AlgorithmIdentifier, AllocError>
    ensures { IfOk result (λ algorithm. algorithm_identifier algorithm ≡ digest_algorithm hash) }
{
    let oid = hash.to_oid(alloc)?;
    let algorithm = AlgorithmIdentifier::with_null(alloc, oid)?;
    Ok(algorithm)
}
