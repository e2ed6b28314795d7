//! RSA public keys as in PKCS #1, without an algorithm.

ghost use Rattle.std.specs.Prelude.{◌≡◌, ◌≢◌, ◌∷◌, [], Err, MatchResult};
ghost use Rattle.der_core.specs.Encoding.{encoding, IsDer};
ghost use Rattle.der_core.specs.Refusals.{RefusesOctets, RefusesInner};
ghost use Rattle.key_types.specs.RsaPublicKey.{rsa_public_key};
ghost use Rattle.key_types.specs.SubjectKey.{kind_of_key};
ghost use Rattle.key_types.specs.declared.key_kind.KeyKind.TheVariants as kinds;
ghost use Rattle.key_types.specs.declared.public_key.RsaPublicKey.{RsaPublicKey};
ghost use Rattle.key_core.specs.KeyRefusals.{RefusesFaults, RefusesOthers, IsUnreadKey, IsUnwrittenKey};
ghost use Rattle.key_core.specs.Pkcs1.{IsRsaPublicKey, IsPkcs1Key, IsPkcs1Of, RefusesPkcs1};
ghost use Rattle.key_core.specs.declared.element.Element.TheVariants as elements;
ghost use Rattle.key_core.specs.declared.error.KeyContext.TheVariants as contexts;
ghost use Rattle.key_core.specs.declared.error.KeyError.TheVariants as errors;

use super::{PublicKey, rsa_info};
use crate::element::Element;
use crate::error::{KeyContext, KeyError};
use der_core::Structure;
use key_types::{RsaPublicKey, SubjectKey};
use std::alloc::Global;

impl PublicKey {
    /// Reads the encoding of an RSAPublicKey (RFC 8017 A.1.1). The parameters of its algorithm are
    /// NULL. Octets that are no element, or another structure, are refused as
    /// `Asn1Deserialization`, even when memory runs out.
    pub fn from_pkcs1(alloc: Global, der: &[u8]) -> Result<PublicKey, KeyError>
        ensures answer { MatchResult result
            (λ key. IsPkcs1Key der.now key.info)
            (IsUnreadKey elements.RsaPublicKey (RefusesOctets IsRsaPublicKey der.now)) }
        // Octets with a fault are refused with it, even when memory runs out.
        ensures faulty { RefusesFaults elements.RsaPublicKey der.now result }
        // An element of another structure is refused as such, even when memory runs out.
        ensures shapeless { RefusesOthers IsRsaPublicKey elements.RsaPublicKey der.now result }
    {
        match RsaPublicKey::from_der(alloc, der) {
            Ok(key) => Ok(PublicKey {
                info: rsa_info(alloc, key)?,
            }),
            Err(source) => Err(KeyError::unread(Element::RsaPublicKey, source)),
        }
    }

    /// The encoding of the RSAPublicKey of an RSA key (RFC 8017 A.1.1). A key of another kind is
    /// refused as `Rsa`, one without an encoding as `Asn1Serialization`.
    pub fn to_pkcs1(&self, alloc: Global) -> Result<Vec<u8>, KeyError>
        ensures answer { MatchResult result
            (λ octets. IsPkcs1Of self.now.info.subject_public_key octets.items)
            (RefusesPkcs1 self.now.info.subject_public_key) }
        // A key of another kind is refused, even when memory runs out.
        ensures refused { kind_of_key self.now.info.subject_public_key ≢ kinds.Rsa
            → result ≡ Err (errors.Rsa contexts.NotRsa) }
    {
        match &self.info.subject_public_key {
            SubjectKey::Rsa(key) => written(alloc, key),
            SubjectKey::Ec(_) | SubjectKey::Ed(_) | SubjectKey::Mldsa(_) => Err(KeyError::Rsa {
                context: KeyContext::NotRsa,
            }),
        }
    }
}

/// The encoding of the key.
fn written(alloc: Global, key: &RsaPublicKey) -> Result<Vec<u8>, KeyError>
    ensures { MatchResult result
        (λ octets. (octets.items ≡ encoding (rsa_public_key key.now))
        × IsDer (rsa_public_key key.now))
        (IsUnwrittenKey elements.RsaPublicKey (RefusesInner (rsa_public_key key.now ∷ []))) }
{
    match key.to_der(alloc) {
        Ok(octets) => Ok(octets),
        Err(source) => Err(KeyError::unwritten(Element::RsaPublicKey, source)),
    }
}
