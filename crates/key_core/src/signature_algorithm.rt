//! Signature algorithms and their OIDs.

ghost use Rattle.std.specs.Prelude.{◌≡◌, ◌↔◌, Some, None, Ok, Err, IsTrue, IfOk, IfSome, MatchOption, MatchResult};
ghost use Rattle.der_core.specs.BorrowedOption.{kept_option};
ghost use Rattle.key_types.specs.AlgorithmIdentifier.{oid_of, parameters_of};
ghost use Rattle.key_core.specs.SignatureAlgorithm.{signature_identifier, signature_parameters, signature_hash, NamesSignature, IsWrittenAlgorithm, IsUnnamed, IsUnwritable};
ghost use Rattle.key_core.specs.declared.signature_algorithm.SignatureAlgorithm.TheVariants.{RsaPkcs1v15, Ecdsa};
ghost use Rattle.key_core.specs.declared.signature_error.SigContext.TheVariants as contexts;
ghost use Rattle.key_core.specs.declared.signature_error.SignatureError.TheVariants as errors;

mod signing;
mod verifying;

use crate::signature_error::{SigContext, SignatureError, Unsupported};
use asn1_types::{ObjectIdentifier, oids};
use key_types::AlgorithmIdentifier;
use sig_core::HashAlgorithm;
use std::alloc::{AllocError, Global};

/// A signature algorithm.
#[derive(Clone, Copy, Debug, PartialEq, Eq, Hash)]
pub enum SignatureAlgorithm {
    /// RSASSA-PKCS1-v1_5 over a digest (RFC 8017 8.2).
    RsaPkcs1v15(HashAlgorithm),
    /// ECDSA over a digest (RFC 5758 3.2). MD5, SHA-1 and SHA-224 have no OID here.
    Ecdsa(HashAlgorithm),
    /// Ed25519 over the message itself (RFC 8032 5.1).
    Ed25519,
}

impl SignatureAlgorithm {
    /// All algorithms that have an OID.
    pub const IDENTIFIED: [SignatureAlgorithm; 10] = [
        SignatureAlgorithm::RsaPkcs1v15(HashAlgorithm::MD5),
        SignatureAlgorithm::RsaPkcs1v15(HashAlgorithm::SHA1),
        SignatureAlgorithm::RsaPkcs1v15(HashAlgorithm::SHA2_224),
        SignatureAlgorithm::RsaPkcs1v15(HashAlgorithm::SHA2_256),
        SignatureAlgorithm::RsaPkcs1v15(HashAlgorithm::SHA2_384),
        SignatureAlgorithm::RsaPkcs1v15(HashAlgorithm::SHA2_512),
        SignatureAlgorithm::Ecdsa(HashAlgorithm::SHA2_256),
        SignatureAlgorithm::Ecdsa(HashAlgorithm::SHA2_384),
        SignatureAlgorithm::Ecdsa(HashAlgorithm::SHA2_512),
        SignatureAlgorithm::Ed25519,
    ];

    /// The algorithm that an AlgorithmIdentifier names (RFC 5280 4.1.1.2), by its OID alone: the
    /// parameters are ignored. `UnsupportedAlgorithm` with the OID exactly where it names none.
    pub fn from_algorithm_identifier(
        alloc: Global,
        id: &AlgorithmIdentifier,
    ) -> Result<SignatureAlgorithm, SignatureError>
        ensures answer { MatchResult result (NamesSignature id.now) (IsUnnamed id.now) }
        // A known algorithm is read, even when memory runs out.
        ensures read { (algorithm : SignatureAlgorithm) → NamesSignature id.now algorithm
            → result ≡ Ok algorithm }
    {
        match SignatureAlgorithm::named(id.oid().as_bytes()) {
            Some(algorithm) => Ok(algorithm),
            None => Err(SignatureError::UnsupportedAlgorithm {
                algorithm: Unsupported::Oid(id.oid().try_clone(alloc)?),
            }),
        }
    }

    /// The AlgorithmIdentifier of the algorithm (RFC 5280 4.1.1.2). Its parameters are NULL for RSA
    /// and absent otherwise. `Ec` exactly for ECDSA with MD5, SHA-1 or SHA-224, which have no OID
    /// here.
    pub fn to_algorithm_identifier(
        self,
        alloc: Global,
    ) -> Result<AlgorithmIdentifier, SignatureError>
        ensures answer { MatchResult result (IsWrittenAlgorithm self) (IsUnwritable self) }
        // An algorithm without an OID is refused, even when memory runs out.
        ensures refused { signature_identifier self ≡ None
            → result ≡ Err (errors.Ec contexts.HashNotSupported) }
    {
        let Some(contents) = self.oid_contents() else {
            return Err(SignatureError::Ec {
                context: SigContext::HashNotSupported,
            });
        };
        let oid = ObjectIdentifier::from_known(alloc, contents)?;
        Ok(self.with_parameters(alloc, oid)?)
    }

    /// The digest algorithm: SHA-512 for Ed25519.
    pub fn hash_algorithm(&self) -> HashAlgorithm
        ensures { result ≡ signature_hash self.now }
    {
        match self {
            SignatureAlgorithm::RsaPkcs1v15(hash) | SignatureAlgorithm::Ecdsa(hash) => *hash,
            SignatureAlgorithm::Ed25519 => HashAlgorithm::SHA2_512,
        }
    }

    /// The algorithm with this OID, given by its contents octets, if it is known.
    pub fn named(oid: &[u8]) -> Option<SignatureAlgorithm>
        ensures named { (algorithm : SignatureAlgorithm)
            → signature_identifier algorithm ≡ Some oid.now → result ≡ Some algorithm }
        ensures name { IfSome result (λ algorithm. signature_identifier algorithm ≡ Some oid.now) }
    {
        for algorithm in SignatureAlgorithm::IDENTIFIED {
            if algorithm.has_identifier(oid) {
                return Some(algorithm);
            }
        }
        None
    }

    /// The contents octets of the OID, if the algorithm has one.
    pub fn oid_contents(self) -> Option<&'static [u8]>
        ensures { MatchOption result
            (signature_identifier self ≡ None)
            (λ contents. signature_identifier self ≡ Some contents.now) }
    {
        match self {
            SignatureAlgorithm::RsaPkcs1v15(hash) => Some(rsa_contents(hash)),
            SignatureAlgorithm::Ecdsa(hash) => ecdsa_contents(hash),
            SignatureAlgorithm::Ed25519 => Some(oids::ED25519),
        }
    }

    /// Whether these are the contents octets of the OID.
    fn has_identifier(self, oid: &[u8]) -> bool
        ensures { IsTrue result ↔ (signature_identifier self ≡ Some oid.now) }
    {
        match self.oid_contents() {
            Some(contents) => contents == oid,
            None => false,
        }
    }

    /// The OID with the parameters of the algorithm.
    fn with_parameters(
        self,
        alloc: Global,
        oid: ObjectIdentifier,
    ) -> Result<AlgorithmIdentifier, AllocError>
        ensures { IfOk result (λ id. (oid_of id ≡ oid)
            × (kept_option (parameters_of id) ≡ signature_parameters self)) }
    {
        match self {
            SignatureAlgorithm::RsaPkcs1v15(_) => AlgorithmIdentifier::with_null(alloc, oid),
            SignatureAlgorithm::Ecdsa(_) | SignatureAlgorithm::Ed25519 => {
                Ok(AlgorithmIdentifier::new(oid, None))
            }
        }
    }
}

/// The contents octets of the OID of RSA with a digest algorithm (RFC 8017 A.2.4).
fn rsa_contents(hash: HashAlgorithm) -> &'static [u8]
    ensures { signature_identifier (RsaPkcs1v15 hash) ≡ Some result.now }
{
    match hash {
        HashAlgorithm::MD5 => oids::MD5_WITH_RSA_ENCRYPTION,
        HashAlgorithm::SHA1 => oids::SHA1_WITH_RSA_ENCRYPTION,
        HashAlgorithm::SHA2_224 => oids::SHA224_WITH_RSA_ENCRYPTION,
        HashAlgorithm::SHA2_256 => oids::SHA256_WITH_RSA_ENCRYPTION,
        HashAlgorithm::SHA2_384 => oids::SHA384_WITH_RSA_ENCRYPTION,
        HashAlgorithm::SHA2_512 => oids::SHA512_WITH_RSA_ENCRYPTION,
    }
}

/// The contents octets of the OID of ECDSA with a digest algorithm (RFC 5758 3.2).
fn ecdsa_contents(hash: HashAlgorithm) -> Option<&'static [u8]>
    ensures { MatchOption result
        (signature_identifier (Ecdsa hash) ≡ None)
        (λ contents. signature_identifier (Ecdsa hash) ≡ Some contents.now) }
{
    match hash {
        HashAlgorithm::MD5 | HashAlgorithm::SHA1 | HashAlgorithm::SHA2_224 => None,
        HashAlgorithm::SHA2_256 => Some(oids::ECDSA_WITH_SHA256),
        HashAlgorithm::SHA2_384 => Some(oids::ECDSA_WITH_SHA384),
        HashAlgorithm::SHA2_512 => Some(oids::ECDSA_WITH_SHA512),
    }
}
