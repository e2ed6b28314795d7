//! RSA private keys as in PKCS #1, without an algorithm.

ghost use Rattle.std.specs.Prelude.{◌≡◌, ◌≢◌, ◌∷◌, [], Err, IfOk, MatchResult};
ghost use Rattle.der_core.specs.Encoding.{encoding, IsDer};
ghost use Rattle.der_core.specs.Refusals.{RefusesOctets, RefusesInner};
ghost use Rattle.key_types.specs.declared.key_kind.KeyKind.TheVariants as kinds;
ghost use Rattle.key_types.specs.RsaPrivateKey.{rsa_private_key};
ghost use Rattle.key_types.specs.declared.rsa_private_key.RsaPrivateKey.{RsaPrivateKey};
ghost use Rattle.key_core.specs.KeyRefusals.{RefusesFaults, RefusesOthers, IsUnreadKey, IsUnwrittenKey};
ghost use Rattle.key_core.specs.PrivateKeyValue.{private_kind};
ghost use Rattle.key_core.specs.PrivatePkcs1.{IsRsaContainer, IsRsaPrivateKey, IsPrivatePkcs1, IsPkcs1OfPrivate, RefusesPrivatePkcs1};
ghost use Rattle.key_core.specs.declared.element.Element.TheVariants as elements;
ghost use Rattle.key_core.specs.declared.error.KeyContext.TheVariants as contexts;
ghost use Rattle.key_core.specs.declared.error.KeyError.TheVariants as errors;

use super::PrivateKey;
use crate::element::Element;
use crate::error::{KeyContext, KeyError};
use crate::private_key_info::PrivateKeyInfo;
use crate::private_key_value::PrivateKeyValue;
use crate::private_key_version::PrivateKeyVersion;
use asn1_types::ObjectIdentifier;
use asn1_types::oids::RSA_ENCRYPTION;
use der_core::Structure;
use key_types::{AlgorithmIdentifier, RsaPrivateKey};
use std::alloc::{AllocError, Global};

impl PrivateKey {
    /// Reads the encoding of an RSAPrivateKey with two primes (RFC 8017 A.1.2). The parameters of
    /// its algorithm are NULL. Octets that are no element, or another structure, are refused as
    /// `Asn1Deserialization`, even when memory runs out.
    pub fn from_pkcs1(alloc: Global, der: &[u8]) -> Result<PrivateKey, KeyError>
        ensures answer { MatchResult result
            (IsPrivatePkcs1 der.now)
            (IsUnreadKey elements.RsaPrivateKey (RefusesOctets IsRsaPrivateKey der.now)) }
        // Octets with a fault are refused with it, even when memory runs out.
        ensures faulty { RefusesFaults elements.RsaPrivateKey der.now result }
        // An element of another structure is refused as such, even when memory runs out.
        ensures shapeless { RefusesOthers IsRsaPrivateKey elements.RsaPrivateKey der.now result }
    {
        match RsaPrivateKey::from_der(alloc, der) {
            Ok(key) => Ok(PrivateKey {
                info: rsa_container(alloc, key)?,
                public_key: None,
            }),
            Err(source) => Err(KeyError::unread(Element::RsaPrivateKey, source)),
        }
    }

    /// The encoding of the RSAPrivateKey of an RSA key (RFC 8017 A.1.2). A key of another kind is
    /// refused as `Rsa`, one without an encoding as `Asn1Serialization`.
    pub fn to_pkcs1(&self, alloc: Global) -> Result<Vec<u8>, KeyError>
        ensures answer { MatchResult result
            (λ octets. IsPkcs1OfPrivate self.now.info.private_key octets.items)
            (RefusesPrivatePkcs1 self.now.info.private_key) }
        // A key of another kind is refused, even when memory runs out.
        ensures refused { private_kind self.now.info.private_key ≢ kinds.Rsa
            → result ≡ Err (errors.Rsa contexts.NotRsa) }
    {
        match &self.info.private_key {
            PrivateKeyValue::Rsa(key) => written(alloc, key),
            PrivateKeyValue::Ec(_) | PrivateKeyValue::Ed(_) => Err(KeyError::Rsa {
                context: KeyContext::NotRsa,
            }),
        }
    }
}

/// The container of an RSA key.
fn rsa_container(alloc: Global, key: RsaPrivateKey) -> Result<PrivateKeyInfo, AllocError>
    ensures { IfOk result (IsRsaContainer key) }
{
    let oid = ObjectIdentifier::from_known(alloc, RSA_ENCRYPTION)?;
    Ok(PrivateKeyInfo {
        version: PrivateKeyVersion::V1,
        private_key_algorithm: AlgorithmIdentifier::with_null(alloc, oid)?,
        private_key: PrivateKeyValue::Rsa(key),
        attributes: None,
        public_key: None,
    })
}

/// The encoding of the key.
fn written(alloc: Global, key: &RsaPrivateKey) -> Result<Vec<u8>, KeyError>
    ensures { MatchResult result
        (λ octets. (octets.items ≡ encoding (rsa_private_key key.now))
        × IsDer (rsa_private_key key.now))
        (IsUnwrittenKey elements.RsaPrivateKey (RefusesInner (rsa_private_key key.now ∷ []))) }
{
    match key.to_der(alloc) {
        Ok(octets) => Ok(octets),
        Err(source) => Err(KeyError::unwritten(Element::RsaPrivateKey, source)),
    }
}
