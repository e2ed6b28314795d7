//! Public keys of private keys.

ghost use Rattle.std.specs.Prelude.{◌≡◌, None, Err, IfOk, MatchResult};
ghost use Rattle.key_core.specs.MadeKeys.{IsRsaInfo};
ghost use Rattle.key_core.specs.PublicHalf.{public_numbers, IsPublicHalf, RefusesPublicHalf, IsMissingHalf};
ghost use Rattle.key_core.specs.declared.error.KeyError.{KeyError};

use super::PrivateKey;
use crate::error::{KeyContext, KeyError};
use crate::private_key_value::PrivateKeyValue;
use crate::public_key::{PublicKey, rsa_info};
use der_core::Structure;
use key_types::{
    AlgorithmIdentifier, RsaPrivateKey, RsaPublicKey, SubjectKey, SubjectPublicKeyInfo,
};
use std::alloc::{AllocError, Global};

impl PrivateKey {
    /// The public key: of RSA the modulus and the public exponent, of a curve the one that was
    /// given, read or derived. `EC` or `ED` with `PublicKeyMissing` exactly where there is none.
    pub fn to_public_key(&self, alloc: Global) -> Result<PublicKey, KeyError>
        ensures answer { MatchResult result
            (λ key. IsPublicHalf self.now.info.private_key self.now.info.private_key_algorithm
            self.now.public_key key.info)
            (RefusesPublicHalf self.now.info.private_key self.now.public_key) }
        // A missing public key is reported, even when memory runs out.
        ensures missing { (e : KeyError) → self.now.public_key ≡ None
            → IsMissingHalf self.now.info.private_key e → result ≡ Err e }
    {
        let algorithm = &self.info.private_key_algorithm;
        match (&self.info.private_key, &self.public_key) {
            (PrivateKeyValue::Rsa(key), _) => Ok(PublicKey::from(rsa_half(alloc, key)?)),
            (PrivateKeyValue::Ec(_), Some(point)) => Ok(PublicKey::from(SubjectPublicKeyInfo {
                algorithm: algorithm.try_clone(alloc)?,
                subject_public_key: SubjectKey::Ec(point.try_clone(alloc)?),
            })),
            (PrivateKeyValue::Ed(_), Some(bits)) => Ok(PublicKey::from(SubjectPublicKeyInfo {
                algorithm: AlgorithmIdentifier::new(algorithm.oid().try_clone(alloc)?, None),
                subject_public_key: SubjectKey::Ed(bits.try_clone(alloc)?),
            })),
            (PrivateKeyValue::Ec(_), None) => Err(KeyError::EC {
                context: KeyContext::PublicKeyMissing,
            }),
            (PrivateKeyValue::Ed(_), None) => Err(KeyError::ED {
                context: KeyContext::PublicKeyMissing,
            }),
        }
    }
}

/// The public key of an RSA private key.
fn rsa_half(alloc: Global, key: &RsaPrivateKey) -> Result<SubjectPublicKeyInfo, AllocError>
    ensures { IfOk result (IsRsaInfo (public_numbers key.now)) }
{
    let key = RsaPublicKey {
        modulus: key.n.try_clone(alloc)?,
        public_exponent: key.e.try_clone(alloc)?,
    };
    rsa_info(alloc, key)
}
