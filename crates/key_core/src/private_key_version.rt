//! Versions of PrivateKeyInfo.

ghost use Rattle.std.specs.Prelude.{◌≡◌, ◌≢◌, IfOk, MatchOption};
ghost use Rattle.der_core.specs.Encoding.{IsWellFormed};
ghost use Rattle.key_core.specs.PrivateKeyVersion.{key_version};
ghost use Rattle.key_core.specs.declared.private_key_version.PrivateKeyVersion.{PrivateKeyVersion};

use der_core::tag::INTEGER;
use der_core::{Elem, Tree, leaf, leaf_at};
use std::alloc::{AllocError, Global};

/// The version of a private key with its algorithm (RFC 5958 2). RFC 5208 5 has only the first.
#[derive(Clone, Copy, Debug, PartialEq, Eq)]
pub enum PrivateKeyVersion {
    /// Encoded as 0.
    V1,
    /// Encoded as 1: the key may have its public key beside it. This isn't checked when a key is
    /// read.
    V2,
}

impl PrivateKeyVersion {
    /// The version that an element is.
    pub(crate) fn at(elem: Elem<'_>) -> Option<PrivateKeyVersion>
        ensures { MatchOption result
            ((v : PrivateKeyVersion) → elem.entry.is.0 ≢ key_version v)
            (λ v. elem.entry.is.0 ≡ key_version v) }
    {
        match leaf_at(elem, INTEGER)? {
            [0] => Some(PrivateKeyVersion::V1),
            [1] => Some(PrivateKeyVersion::V2),
            _ => None,
        }
    }

    /// The element of the version.
    pub(crate) fn write(self, alloc: Global) -> Result<Tree, AllocError>
        ensures { IfOk result (λ tree. (tree ≡ key_version self) × IsWellFormed tree) }
    {
        match self {
            PrivateKeyVersion::V1 => leaf(alloc, INTEGER, &[0]),
            PrivateKeyVersion::V2 => leaf(alloc, INTEGER, &[1]),
        }
    }
}
