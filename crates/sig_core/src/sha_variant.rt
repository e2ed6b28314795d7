//! The digest algorithms by their OIDs.

ghost use Rattle.std.specs.Prelude.{◌≡◌, ◌≢◌, ℕ, List, Ok, IfOk, MatchOption};
ghost use Rattle.asn1_types.specs.Values.{identifier_contents};
ghost use Rattle.sig_core.specs.ShaVariant.{digest_identifier, hash_of, GivesVariant, GivesHash};

use crate::error::{UnsupportedAlgorithmError, UnsupportedHashAlgorithmError};
use crate::hash::HashAlgorithm;
use asn1_types::{ObjectIdentifier, oids};
use std::alloc::{AllocError, Global};

/// The digest algorithms that have an OID (RFC 8017 appendix B.1).
#[derive(Clone, Copy, PartialEq, Eq, Debug)]
pub enum ShaVariant {
    MD5,
    SHA1,
    SHA2_224,
    SHA2_256,
    SHA2_384,
    SHA2_512,
}

impl ShaVariant {
    /// Every variant, in the order of the enum.
    pub const ALL: [ShaVariant; 6] = [
        ShaVariant::MD5,
        ShaVariant::SHA1,
        ShaVariant::SHA2_224,
        ShaVariant::SHA2_256,
        ShaVariant::SHA2_384,
        ShaVariant::SHA2_512,
    ];

    /// The variant with this OID, an error exactly if there is none.
    pub fn from_oid(oid: &ObjectIdentifier) -> Result<ShaVariant, UnsupportedAlgorithmError>
        ensures named { (variant : ShaVariant)
            → digest_identifier variant ≡ identifier_contents oid.now → result ≡ Ok variant }
        ensures name { IfOk result
            (λ variant. digest_identifier variant ≡ identifier_contents oid.now) }
    {
        match ShaVariant::named(oid.as_bytes()) {
            Some(variant) => Ok(variant),
            None => Err(UnsupportedAlgorithmError),
        }
    }

    /// The variant whose OID has these contents octets (RFC 8017 appendix B.1), `None` if there is
    /// none.
    pub fn named(contents: &[u8]) -> Option<ShaVariant>
        ensures { MatchOption result
            ((variant : ShaVariant) → digest_identifier variant ≢ contents.now)
            (λ variant. digest_identifier variant ≡ contents.now) }
    {
        for variant in ShaVariant::ALL {
            if variant.oid_contents() == contents {
                return Some(variant);
            }
        }
        None
    }

    /// The algorithm of the variant, SHA-224 too.
    pub fn hash(self) -> HashAlgorithm
        ensures { result ≡ hash_of self }
    {
        match self {
            ShaVariant::MD5 => HashAlgorithm::MD5,
            ShaVariant::SHA1 => HashAlgorithm::SHA1,
            ShaVariant::SHA2_224 => HashAlgorithm::SHA2_224,
            ShaVariant::SHA2_256 => HashAlgorithm::SHA2_256,
            ShaVariant::SHA2_384 => HashAlgorithm::SHA2_384,
            ShaVariant::SHA2_512 => HashAlgorithm::SHA2_512,
        }
    }

    /// The OID of the variant.
    pub fn to_oid(self, alloc: Global) -> Result<ObjectIdentifier, AllocError>
        ensures { IfOk result (λ oid. identifier_contents oid ≡ digest_identifier self) }
    {
        ObjectIdentifier::from_known(alloc, self.oid_contents())
    }

    /// The contents octets of the OID.
    pub fn oid_contents(self) -> &'static [u8]
        ensures { result.now ≡ digest_identifier self }
    {
        match self {
            ShaVariant::MD5 => oids::MD5,
            ShaVariant::SHA1 => oids::SHA1,
            ShaVariant::SHA2_224 => oids::SHA224,
            ShaVariant::SHA2_256 => oids::SHA256,
            ShaVariant::SHA2_384 => oids::SHA384,
            ShaVariant::SHA2_512 => oids::SHA512,
        }
    }
}

/// The variant of the same algorithm. SHA-224 is refused.
impl TryFrom<HashAlgorithm> for ShaVariant {
    type Error = UnsupportedHashAlgorithmError;

    ghost try_from_gives = { GivesVariant };

    fn try_from(hash: HashAlgorithm) -> Result<ShaVariant, UnsupportedHashAlgorithmError> {
        match hash {
            HashAlgorithm::MD5 => Ok(ShaVariant::MD5),
            HashAlgorithm::SHA1 => Ok(ShaVariant::SHA1),
            HashAlgorithm::SHA2_224 => Err(UnsupportedHashAlgorithmError { algorithm: hash }),
            HashAlgorithm::SHA2_256 => Ok(ShaVariant::SHA2_256),
            HashAlgorithm::SHA2_384 => Ok(ShaVariant::SHA2_384),
            HashAlgorithm::SHA2_512 => Ok(ShaVariant::SHA2_512),
        }
    }
}

/// The algorithm of the variant. SHA-224 is refused, as in the other direction.
impl TryFrom<ShaVariant> for HashAlgorithm {
    type Error = UnsupportedHashAlgorithmError;

    ghost try_from_gives = { GivesHash };

    fn try_from(variant: ShaVariant) -> Result<HashAlgorithm, UnsupportedHashAlgorithmError> {
        match variant.hash() {
            HashAlgorithm::SHA2_224 => Err(UnsupportedHashAlgorithmError {
                algorithm: HashAlgorithm::SHA2_224,
            }),
            hash => Ok(hash),
        }
    }
}
