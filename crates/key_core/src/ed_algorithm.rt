//! The supported Curve25519 algorithms.

ghost use Rattle.std.specs.Prelude.{◌≡◌, Some, IfOk, IfSome};
ghost use Rattle.asn1_types.specs.Values.{identifier_contents};
ghost use Rattle.key_core.specs.EdAlgorithm.{ed_identifier, ed_text};
ghost use Rattle.key_core.specs.DerivedKeys.{ed_kind};

use asn1_types::{ObjectIdentifier, oids};
use sig_core::SchemeKind;
use std::alloc::{AllocError, Global};
use std::fmt;

/// A Curve25519 algorithm (RFC 8410 3).
#[derive(Clone, Copy, Debug, PartialEq, Eq)]
pub enum EdAlgorithm {
    /// Signatures (RFC 8032).
    Ed25519,
    /// Key agreement (RFC 7748). It signs nothing.
    X25519,
}

impl EdAlgorithm {
    /// All algorithms, in the order of the enum.
    pub const ALL: [EdAlgorithm; 2] = [EdAlgorithm::Ed25519, EdAlgorithm::X25519];

    /// The algorithm with this OID, given by its contents octets, if it is supported.
    pub fn named(oid: &[u8]) -> Option<EdAlgorithm>
        ensures named { (algorithm : EdAlgorithm) → ed_identifier algorithm ≡ oid.now
            → result ≡ Some algorithm }
        ensures name { IfSome result (λ algorithm. ed_identifier algorithm ≡ oid.now) }
    {
        for algorithm in EdAlgorithm::ALL {
            if algorithm.oid_contents() == oid {
                return Some(algorithm);
            }
        }
        None
    }

    /// The OID of the algorithm.
    pub fn to_oid(&self, alloc: Global) -> Result<ObjectIdentifier, AllocError>
        ensures { IfOk result (λ oid. identifier_contents oid ≡ ed_identifier self.now) }
    {
        ObjectIdentifier::from_known(alloc, self.oid_contents())
    }

    /// The contents octets of the OID.
    pub fn oid_contents(self) -> &'static [u8]
        ensures { result.now ≡ ed_identifier self }
    {
        match self {
            EdAlgorithm::Ed25519 => oids::ED25519,
            EdAlgorithm::X25519 => oids::X25519,
        }
    }

    /// The kind of the algorithm's secrets, as a scheme knows it.
    pub fn scheme_kind(self) -> SchemeKind
        ensures { result ≡ ed_kind self }
    {
        match self {
            EdAlgorithm::Ed25519 => SchemeKind::Ed25519,
            EdAlgorithm::X25519 => SchemeKind::X25519,
        }
    }
}

impl fmt::Display for EdAlgorithm {
    ghost output = { λ algorithm. Some (ed_text algorithm) };

    fn fmt<W: fmt::Write>(&self, f: &mut fmt::Formatter<W>) -> fmt::Result {
        match self {
            EdAlgorithm::Ed25519 => write!(f, "Ed25519"),
            EdAlgorithm::X25519 => write!(f, "X25519"),
        }
    }
}
