//! Views of Curve25519 and Curve448 keys. They borrow from a key and don't allocate.

ghost use Rattle.std.specs.Prelude.{◌≡◌};
ghost use Rattle.key_core.specs.EdViews.{GivesEdKeypair, GivesEdPublic, GivesEdPublicOfKeypair};
ghost use Rattle.key_core.specs.NamedEdAlgorithm.{IsNamedEd};

use crate::error::{KeyContext, KeyError};
use crate::named_ed_algorithm::NamedEdAlgorithm;
use crate::private_key::PrivateKey;
use crate::private_key_value::PrivateKeyValue;
use crate::public_key::PublicKey;
use asn1_types::{BitString, ObjectIdentifier};
use key_types::SubjectKey;

/// A borrowed Curve25519 or Curve448 private key.
#[derive(Clone, Copy)]
pub struct EdKeypair<'a> {
    algorithm: &'a ObjectIdentifier,
    secret: &'a [u8],
    public_key: Option<&'a BitString>,
}

impl<'a> EdKeypair<'a> {
    /// The algorithm of the key.
    pub fn algorithm(&self) -> NamedEdAlgorithm<'a>
        ensures { IsNamedEd self.now.algorithm.now result }
    {
        NamedEdAlgorithm::from(self.algorithm)
    }

    /// The octets of the secret.
    pub fn secret(&self) -> &'a [u8]
        ensures { result.now ≡ self.now.secret.now }
    {
        self.secret
    }
}

/// A borrowed Curve25519 or Curve448 public key.
#[derive(Clone, Copy)]
pub struct EdPublicKey<'a> {
    algorithm: &'a ObjectIdentifier,
    key: &'a [u8],
}

impl<'a> EdPublicKey<'a> {
    /// The algorithm of the key.
    pub fn algorithm(&self) -> NamedEdAlgorithm<'a>
        ensures { IsNamedEd self.now.algorithm.now result }
    {
        NamedEdAlgorithm::from(self.algorithm)
    }

    /// The octets of the key.
    pub fn key_bytes(&self) -> &'a [u8]
        ensures { result.now ≡ self.now.key.now }
    {
        self.key
    }
}

/// The parts of a private key. A key of another kind is refused.
impl<'a> TryFrom<&'a PrivateKey> for EdKeypair<'a> {
    type Error = KeyError;

    ghost try_from_gives = { λ key result. GivesEdKeypair key.now result };

    fn try_from(key: &'a PrivateKey) -> Result<EdKeypair<'a>, KeyError> {
        match &key.info.private_key {
            PrivateKeyValue::Ed(secret) => Ok(EdKeypair {
                algorithm: key.info.private_key_algorithm.oid(),
                secret: secret.as_slice(),
                public_key: key.public_key.as_ref(),
            }),
            PrivateKeyValue::Rsa(_) | PrivateKeyValue::Ec(_) => Err(KeyError::ED {
                context: KeyContext::NotEd,
            }),
        }
    }
}

/// The parts of a public key. A key of another kind is refused.
impl<'a> TryFrom<&'a PublicKey> for EdPublicKey<'a> {
    type Error = KeyError;

    ghost try_from_gives = { λ key result. GivesEdPublic key.now.info result };

    fn try_from(key: &'a PublicKey) -> Result<EdPublicKey<'a>, KeyError> {
        let info = key.as_spki();
        match &info.subject_public_key {
            SubjectKey::Ed(bits) => Ok(EdPublicKey {
                algorithm: info.algorithm.oid(),
                key: bits.payload_view(),
            }),
            SubjectKey::Rsa(_) | SubjectKey::Ec(_) | SubjectKey::Mldsa(_) => Err(KeyError::ED {
                context: KeyContext::NotEd,
            }),
        }
    }
}

/// The public key of a key pair. A pair without one is refused.
impl<'a> TryFrom<&EdKeypair<'a>> for EdPublicKey<'a> {
    type Error = KeyError;

    ghost try_from_gives = { λ keypair result. GivesEdPublicOfKeypair keypair.now result };

    fn try_from(keypair: &EdKeypair<'a>) -> Result<EdPublicKey<'a>, KeyError> {
        match keypair.public_key {
            Some(bits) => Ok(EdPublicKey {
                algorithm: keypair.algorithm,
                key: bits.payload_view(),
            }),
            None => Err(KeyError::ED {
                context: KeyContext::PublicKeyMissing,
            }),
        }
    }
}
