//! Public keys.

ghost use Rattle.std.specs.Prelude.{◌≡◌, ◌↔◌, ◌∷◌, ◌++◌, [], Some, IsTrue, IfOk, Err, MatchResult};
ghost use Rattle.der_core.specs.Encoding.{encoding, IsDer};
ghost use Rattle.der_core.specs.Borrowed.{AreDer};
ghost use Rattle.der_core.specs.Refusals.{RefusesOctets, RefusesInner};
ghost use Rattle.der_core.specs.Structure.{IsWithin};
ghost use Rattle.der_core.specs.Writing.{RefusesToWrite};
ghost use Rattle.asn1_types.specs.Elements.{object_identifier};
ghost use Rattle.key_types.specs.PublicKeyInfo.{public_key_info, inner_key, IsPublicKeyInfo};
ghost use Rattle.key_types.specs.SubjectKey.{kind_of_key};
ghost use Rattle.key_types.specs.declared.key_info.SubjectPublicKeyInfo.{SubjectPublicKeyInfo};
ghost use Rattle.key_core.specs.KeyRefusals.{RefusesFaults, RefusesOthers, IsUnreadKey, IsUnwrittenKey};
ghost use Rattle.key_core.specs.MadeKeys.{IsRsaInfo, IsRsaKey, IsEcKey, IsEdKey, NamesEd, RefusesEd};
ghost use Rattle.key_core.specs.declared.element.Element.TheVariants as elements;
ghost use Rattle.key_core.specs.declared.error.KeyContext.TheVariants as contexts;
ghost use Rattle.key_core.specs.declared.error.KeyError.TheVariants as errors;

pub(crate) mod coordinates;
mod pkcs1;

use crate::element::Element;
use crate::error::{KeyContext, KeyError};
use asn1_types::oids::{EC_PUBLIC_KEY, RSA_ENCRYPTION};
use asn1_types::{BitString, IntegerAsn1, ObjectIdentifier};
use der_core::tag::OBJECT_IDENTIFIER;
use der_core::{DerError, Raw, Structure, leaf};
use key_types::{AlgorithmIdentifier, KeyKind, RsaPublicKey, SubjectKey, SubjectPublicKeyInfo};
use std::alloc::{AllocError, Global};

/// A public key with its algorithm.
#[derive(Debug)]
pub struct PublicKey {
    info: SubjectPublicKeyInfo,
}

/// By hand, so that dropping a key is a call: else each function that drops one is proved through
/// all its parts.
impl Drop for PublicKey {
    fn drop(self) {
        let PublicKey { info: _info } = self;
    }
}

impl PublicKey {
    /// Reads the encoding of a SubjectPublicKeyInfo (RFC 5280 4.1.2.7). Octets that are no element,
    /// or another structure, are refused as `Asn1Deserialization`, even when memory runs out.
    pub fn from_der(alloc: Global, der: &[u8]) -> Result<PublicKey, KeyError>
        ensures answer { MatchResult result
            (λ key. IsWithin IsPublicKeyInfo der.now key.info)
            (IsUnreadKey elements.SubjectPublicKeyInfo (RefusesOctets IsPublicKeyInfo der.now)) }
        // Octets with a fault are refused with it, even when memory runs out.
        ensures faulty { RefusesFaults elements.SubjectPublicKeyInfo der.now result }
        // An element of another structure is refused as such, even when memory runs out.
        ensures shapeless { RefusesOthers IsPublicKeyInfo elements.SubjectPublicKeyInfo der.now
            result }
    {
        match SubjectPublicKeyInfo::from_der(alloc, der) {
            Ok(info) => Ok(PublicKey { info }),
            Err(source) => Err(KeyError::unread(Element::SubjectPublicKeyInfo, source)),
        }
    }

    /// The encoding of the key's SubjectPublicKeyInfo (RFC 5280 4.1.2.7). A key without an encoding
    /// is refused as `Asn1Serialization`.
    pub fn to_der(&self, alloc: Global) -> Result<Vec<u8>, KeyError>
        ensures { MatchResult result
            (λ octets. (octets.items ≡ encoding (public_key_info self.now.info))
            × IsDer (public_key_info self.now.info)
            × AreDer (inner_key self.now.info.subject_public_key))
            (IsUnwrittenKey elements.SubjectPublicKeyInfo
            (RefusesInner (inner_key self.now.info.subject_public_key
            ++ public_key_info self.now.info ∷ []))) }
    {
        match self.info.to_der(alloc) {
            Ok(octets) => Ok(octets),
            Err(source) => Err(KeyError::unwritten(Element::SubjectPublicKeyInfo, source)),
        }
    }

    /// The RSA key with these numbers, each in big-endian order.
    pub fn from_rsa_components(
        alloc: Global,
        modulus: &[u8],
        public_exponent: &[u8],
    ) -> Result<PublicKey, AllocError>
        ensures { IfOk result (λ key. IsRsaKey modulus.now public_exponent.now key.info) }
    {
        let key = RsaPublicKey {
            modulus: IntegerAsn1::from_bytes_be_unsigned(alloc, modulus)?,
            public_exponent: IntegerAsn1::from_bytes_be_unsigned(alloc, public_exponent)?,
        };
        Ok(PublicKey {
            info: rsa_info(alloc, key)?,
        })
    }

    /// The EC key with these octets as its point, on the curve with this OID. Neither is checked.
    /// An OID of more than 4,294,967,295 octets is refused as `Asn1Serialization`.
    pub fn from_ec_encoded_components(
        alloc: Global,
        curve: ObjectIdentifier,
        point: &[u8],
    ) -> Result<PublicKey, KeyError>
        ensures { MatchResult result (λ key. IsEcKey curve point.now key.info) (IsUnwrittenKey
            elements.SubjectPublicKeyInfo (RefusesToWrite (object_identifier curve))) }
    {
        match ec_key(alloc, &curve, point) {
            Ok(info) => Ok(PublicKey { info }),
            Err(source) => Err(KeyError::unwritten(Element::SubjectPublicKeyInfo, source)),
        }
    }

    /// The key with these octets, of the Curve25519 or Curve448 algorithm with this OID (RFC 8410
    /// 3). `ED` exactly where the OID names none. The size isn't checked.
    pub fn from_ed_encoded_components(
        alloc: Global,
        algorithm: ObjectIdentifier,
        public_key: &[u8],
    ) -> Result<PublicKey, KeyError>
        ensures answer { MatchResult result (λ key. IsEdKey algorithm public_key.now key.info)
            (RefusesEd algorithm) }
        // Another OID is refused, even when memory runs out.
        ensures refused { (NamesEd algorithm → ⊥)
            → result ≡ Err (errors.ED contexts.UnsupportedEd) }
    {
        if !KeyKind::Ed.is_named(algorithm.as_bytes()) {
            return Err(KeyError::ED {
                context: KeyContext::UnsupportedEd,
            });
        }
        let bits = BitString::with_bytes(alloc, public_key)?;
        Ok(PublicKey {
            info: SubjectPublicKeyInfo {
                algorithm: AlgorithmIdentifier::new(algorithm, None),
                subject_public_key: SubjectKey::Ed(bits),
            },
        })
    }

    /// The kind of the key.
    pub fn kind(&self) -> KeyKind
        ensures { result ≡ kind_of_key self.now.info.subject_public_key }
    {
        self.info.subject_public_key.kind()
    }

    /// The SubjectPublicKeyInfo of the key (RFC 5280 4.1.2.7).
    pub fn as_spki(&self) -> &SubjectPublicKeyInfo
        ensures { result.now ≡ self.now.info }
    {
        &self.info
    }

    /// A copy of the key.
    pub fn try_clone(&self, alloc: Global) -> Result<PublicKey, AllocError>
        ensures { IfOk result (λ copy. copy ≡ self.now) }
    {
        Ok(PublicKey {
            info: self.info.try_clone(alloc)?,
        })
    }

    /// The SubjectPublicKeyInfo of the key.
    fn into_info(self) -> SubjectPublicKeyInfo
        ensures { result ≡ self.info }
    {
        let PublicKey { info } = self;
        info
    }
}

/// The RSA key with its algorithm, whose parameters are NULL.
pub(crate) fn rsa_info(alloc: Global, key: RsaPublicKey) -> Result<SubjectPublicKeyInfo, AllocError>
    ensures { IfOk result (λ info. IsRsaInfo key info) }
{
    let oid = ObjectIdentifier::from_known(alloc, RSA_ENCRYPTION)?;
    Ok(SubjectPublicKeyInfo {
        algorithm: AlgorithmIdentifier::with_null(alloc, oid)?,
        subject_public_key: SubjectKey::Rsa(key),
    })
}

/// The point with these octets on the curve with this OID.
fn ec_key(
    alloc: Global,
    curve: &ObjectIdentifier,
    point: &[u8],
) -> Result<SubjectPublicKeyInfo, DerError>
    ensures { MatchResult result (IsEcKey curve.now point.now)
        (RefusesToWrite (object_identifier curve.now)) }
{
    let parameters = named_curve(alloc, curve)?;
    let oid = ObjectIdentifier::from_known(alloc, EC_PUBLIC_KEY)?;
    let bits = BitString::with_bytes(alloc, point)?;
    Ok(SubjectPublicKeyInfo {
        algorithm: AlgorithmIdentifier::new(oid, Some(parameters)),
        subject_public_key: SubjectKey::Ec(bits),
    })
}

/// The OID of a curve as parameters (RFC 5480 2.1.1).
pub(crate) fn named_curve(alloc: Global, curve: &ObjectIdentifier) -> Result<Raw, DerError>
    ensures { MatchResult result
        (λ raw. raw.element ≡ object_identifier curve.now)
        (RefusesToWrite (object_identifier curve.now)) }
{
    let tree = leaf(alloc, OBJECT_IDENTIFIER, curve.as_bytes())?;
    Raw::from_tree(alloc, &tree)
}

impl From<SubjectPublicKeyInfo> for PublicKey {
    ghost from_gives = { λ info key. key.info ≡ info };

    fn from(info: SubjectPublicKeyInfo) -> PublicKey {
        PublicKey { info }
    }
}

impl From<PublicKey> for SubjectPublicKeyInfo {
    ghost from_gives = { λ key info. info ≡ key.info };

    fn from(key: PublicKey) -> SubjectPublicKeyInfo {
        key.into_info()
    }
}

/// Keys are equal exactly where their encodings are.
impl PartialEq for PublicKey {
    ghost use Rattle.der_core.specs.Equality.{same_octets};
    ghost use Rattle.der_core.specs.Facts.Equality.{same_octets_per};

    ghost eq = { same_octets (λ key. public_key_info key.info) };

    ghost laws = { same_octets_per (λ key. public_key_info key.info) };

    fn eq(&self, other: &PublicKey) -> bool
        ensures octets { result ≡ same_octets (λ key. public_key_info key.info) self.now other.now }
        ensures same { IsTrue result ↔ (self.now ≡ other.now) }
    {
        self.info == other.info
    }
}

impl Eq for PublicKey {
    ghost use Rattle.der_core.specs.Facts.Equality.{same_octets_equiv};

    ghost laws = { same_octets_equiv (λ key. public_key_info key.info) };
}
