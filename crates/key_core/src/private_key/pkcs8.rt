//! Private keys with their algorithms as in PKCS #8.

ghost use Rattle.std.specs.Prelude.{◌≡◌, ◌≢◌, Option, Some, Err, MatchOption, MatchResult};
ghost use Rattle.asn1_types.specs.Elements.{object_identifier};
ghost use Rattle.asn1_types.specs.Values.{identifier_contents};
ghost use Rattle.asn1_types.specs.declared.oid.ObjectIdentifier.{ObjectIdentifier};
ghost use Rattle.der_core.specs.Encoding.{encoding};
ghost use Rattle.der_core.specs.BorrowedOption.{kept_option};
ghost use Rattle.key_types.specs.AlgorithmIdentifier.{parameters_of};
ghost use Rattle.key_core.specs.CurveKeys.{IsCurveKey};
ghost use Rattle.key_core.specs.DerivedKeys.{IsEdOf, IsEdKeyOf, IsEcRefusal, IsEdRefusal};
ghost use Rattle.key_core.specs.KeyRefusals.{RefusesFaults, RefusesOthers};
ghost use Rattle.key_core.specs.Pkcs8.{IsKeptKey, RefusesEcInfo, RefusesEdInfo, RefusesKept, IsPkcs8Key, RefusesPkcs8};
ghost use Rattle.key_core.specs.PrivateKeyInfo.{IsPrivateKeyInfo};
ghost use Rattle.key_core.specs.declared.ed_algorithm.EdAlgorithm.{EdAlgorithm};
ghost use Rattle.key_core.specs.declared.element.Element.TheVariants as elements;
ghost use Rattle.key_core.specs.declared.private_key_info.PrivateKeyInfo.{PrivateKeyInfo};

use super::PrivateKey;
use super::curve_key::curve_key;
use super::derived::ed_key_of;
use crate::ed_algorithm::EdAlgorithm;
use crate::element::Element;
use crate::error::{KeyContext, KeyError};
use crate::private_key_info::PrivateKeyInfo;
use crate::private_key_value::PrivateKeyValue;
use asn1_types::{BitString, ObjectIdentifier};
use der_core::tag::OBJECT_IDENTIFIER;
use der_core::{Elem, Structure, leaf_at};
use key_types::{AlgorithmIdentifier, ECPrivateKey};
use sig_core::Scheme;
use std::alloc::Global;

impl PrivateKey {
    /// Reads the encoding of a PrivateKeyInfo (RFC 5208 5, RFC 5958 2). An RSA, Curve25519 or
    /// Curve448 key is stored as it was read. The public key of Ed25519 and X25519 is the one that
    /// the scheme derives, whatever is beside the private one; the key is refused as `ED` where the
    /// secret hasn't 32 octets or the scheme derives none. That of Ed448 and X448 is missing. An EC
    /// key is written anew on the curve that the parameters name, and refused as `EC` where they
    /// name none; its point is that of `from_ec_der_with_curve_oid`. Octets that are no element, or
    /// another structure, are refused as `Asn1Deserialization`, even when memory runs out.
    pub fn from_pkcs8<S: Scheme>(
        alloc: Global,
        der: &[u8],
        scheme: &S,
    ) -> Result<PrivateKey, KeyError>
        ensures answer { MatchResult result (IsPkcs8Key (S.derives scheme.now) der.now)
            (RefusesPkcs8 (S.derives scheme.now) der.now) }
        // Octets with a fault are refused with it, even when memory runs out.
        ensures faulty { RefusesFaults elements.PrivateKeyInfo der.now result }
        // An element of another structure is refused as such, even when memory runs out.
        ensures shapeless { RefusesOthers IsPrivateKeyInfo elements.PrivateKeyInfo der.now result }
    {
        match PrivateKeyInfo::from_der(alloc, der) {
            Ok(info) => kept(alloc, info, scheme),
            Err(source) => Err(KeyError::unread(Element::PrivateKeyInfo, source)),
        }
    }
}

/// The key of a container that was read.
fn kept<S: Scheme>(alloc: Global, info: PrivateKeyInfo, scheme: &S) -> Result<PrivateKey, KeyError>
    ensures { MatchResult result
        (IsKeptKey (S.derives scheme.now) info.private_key info)
        (RefusesKept (S.derives scheme.now) info.private_key info) }
{
    let public_key = match &info.private_key {
        PrivateKeyValue::Rsa(_) => None,
        PrivateKeyValue::Ec(key) => {
            return kept_ec(alloc, &info.private_key_algorithm, key, scheme);
        }
        PrivateKeyValue::Ed(secret) => {
            ed_key(
                alloc,
                info.private_key_algorithm.oid(),
                secret.as_slice(),
                scheme,
            )?
        }
    };
    Ok(PrivateKey { info, public_key })
}

/// The EC key on the curve that the parameters of its algorithm name.
fn kept_ec<S: Scheme>(
    alloc: Global,
    algorithm: &AlgorithmIdentifier,
    key: &ECPrivateKey,
    scheme: &S,
) -> Result<PrivateKey, KeyError>
    ensures { MatchResult result
        (λ made. (curve : ObjectIdentifier)
        × (kept_option (parameters_of algorithm.now) ≡ Some (object_identifier curve))
        × IsCurveKey (S.derives scheme.now) curve key.now made)
        (IsEcRefusal (RefusesEcInfo (S.derives scheme.now) key.now
        (kept_option (parameters_of algorithm.now)))) }
{
    match curve_octets(algorithm) {
        Some(octets) => {
            let Ok(curve) = ObjectIdentifier::from_content(alloc, octets) else {
                return Err(KeyError::Memory);
            };
            curve_key(alloc, &curve, key, scheme)
        }
        None => Err(KeyError::EC {
            context: KeyContext::CurveParameters,
        }),
    }
}

/// The contents octets of the OID that the parameters of an algorithm are.
pub(crate) fn curve_octets(algorithm: &AlgorithmIdentifier) -> Option<&[u8]>
    ensures { MatchOption result
        ((curve : ObjectIdentifier)
        → kept_option (parameters_of algorithm.now) ≢ Some (object_identifier curve))
        (λ octets. (curve : ObjectIdentifier)
        × (kept_option (parameters_of algorithm.now) ≡ Some (object_identifier curve))
        × (identifier_contents curve ≡ octets.now)) }
{
    match algorithm.parameters() {
        Some(parameters) => identifier_at(parameters.elem()),
        None => None,
    }
}

/// The contents octets of an OBJECT IDENTIFIER.
fn identifier_at<'a>(elem: Elem<'a>) -> Option<&'a [u8]>
    ensures { MatchOption result
        ((identifier : ObjectIdentifier) → elem.entry.is.0 ≢ object_identifier identifier)
        (λ octets. (identifier : ObjectIdentifier)
        × (elem.entry.is.0 ≡ object_identifier identifier)
        × (identifier_contents identifier ≡ octets.now)) }
{
    if !ObjectIdentifier::has_shape(elem) {
        return None;
    }
    Some(leaf_at(elem, OBJECT_IDENTIFIER)?)
}

/// The Curve25519 or Curve448 public key.
fn ed_key<S: Scheme>(
    alloc: Global,
    algorithm: &ObjectIdentifier,
    secret: &[u8],
    scheme: &S,
) -> Result<Option<BitString>, KeyError>
    ensures { MatchResult result
        (λ public_key. (known : Option EdAlgorithm)
        × IsEdOf (identifier_contents algorithm.now) known
        × IsEdKeyOf (S.derives scheme.now) known secret.now public_key)
        (IsEdRefusal
        (RefusesEdInfo (S.derives scheme.now) secret.now (identifier_contents algorithm.now))) }
{
    ed_key_of(alloc, known_algorithm(algorithm), secret, scheme)
}

/// The supported algorithm with this OID.
fn known_algorithm(algorithm: &ObjectIdentifier) -> Option<EdAlgorithm>
    ensures { IsEdOf (identifier_contents algorithm.now) result }
{
    EdAlgorithm::named(algorithm.as_bytes())
}
