//! EC private keys as in SEC 1, without an algorithm.

ghost use Rattle.std.specs.Prelude.{◌≡◌, Some, Err, MatchResult};
ghost use Rattle.asn1_types.specs.Values.{identifier_contents};
ghost use Rattle.asn1_types.specs.declared.oid.ObjectIdentifier.{ObjectIdentifier};
ghost use Rattle.key_core.specs.EcCurve.{curve_identifier};
ghost use Rattle.der_core.specs.Encoding.{encoding};
ghost use Rattle.der_core.specs.Refusals.{RefusesOctets};
ghost use Rattle.der_core.specs.Structure.{IsWithin};
ghost use Rattle.key_types.specs.declared.ec_private_key.ECPrivateKey.{ECPrivateKey};
ghost use Rattle.key_core.specs.CurveKeys.{IsECPrivateKey, IsCurveKey, RefusesCurveKey, IsSec1Key, IsSec1KeyOn, IsSec1KeyOnKnown, RefusesSec1, RefusesOwnCurve, RefusesKnownCurve};
ghost use Rattle.key_core.specs.DerivedKeys.{IsEcRefusal};
ghost use Rattle.key_core.specs.KeyRefusals.{RefusesFaults, RefusesOthers, IsUnreadKey};
ghost use Rattle.key_core.specs.declared.element.Element.TheVariants as elements;

use super::PrivateKey;
use super::curve_key::curve_key;
use crate::ec_curve::EcCurve;
use crate::element::Element;
use crate::error::{KeyContext, KeyError};
use asn1_types::ObjectIdentifier;
use der_core::Structure;
use key_types::ECPrivateKey;
use sig_core::Scheme;
use std::alloc::Global;

impl PrivateKey {
    /// Reads the encoding of an ECPrivateKey (RFC 5915 3) on the curve that it names; it is refused
    /// as `EC` where it names none. If it has no point and the curve is supported, the scheme
    /// derives one; then the key is refused as `EC` where the secret hasn't the size of the field,
    /// or the scheme derives none. On another curve the point stays missing. Octets that are no
    /// element, or another structure, are refused as `Asn1Deserialization`, even when memory runs
    /// out.
    pub fn from_ec_der<S: Scheme>(
        alloc: Global,
        der: &[u8],
        scheme: &S,
    ) -> Result<PrivateKey, KeyError>
        ensures answer { MatchResult result (IsSec1Key (S.derives scheme.now) der.now)
            (RefusesSec1 (λ read. RefusesOwnCurve (S.derives scheme.now) read.parameters read)
            der.now) }
        // Octets with a fault are refused with it, even when memory runs out.
        ensures faulty { RefusesFaults elements.EcPrivateKey der.now result }
        // An element of another structure is refused as such, even when memory runs out.
        ensures shapeless { RefusesOthers IsECPrivateKey elements.EcPrivateKey der.now result }
    {
        match read(alloc, der) {
            Ok(key) => own_curve_key(alloc, &key, scheme),
            Err(error) => Err(error),
        }
    }

    /// Reads an ECPrivateKey as `from_ec_der` does, but on this curve, whatever curve it names.
    pub fn from_ec_der_with_curve<S: Scheme>(
        alloc: Global,
        der: &[u8],
        curve: EcCurve,
        scheme: &S,
    ) -> Result<PrivateKey, KeyError>
        ensures answer { MatchResult result
            (IsSec1KeyOnKnown (S.derives scheme.now) curve der.now)
            (RefusesSec1 (RefusesKnownCurve (S.derives scheme.now) curve) der.now) }
        // Octets with a fault are refused with it, even when memory runs out.
        ensures faulty { RefusesFaults elements.EcPrivateKey der.now result }
        // An element of another structure is refused as such, even when memory runs out.
        ensures shapeless { RefusesOthers IsECPrivateKey elements.EcPrivateKey der.now result }
    {
        match read(alloc, der) {
            Ok(key) => known_curve_key(alloc, curve, &key, scheme),
            Err(error) => Err(error),
        }
    }

    /// Reads an ECPrivateKey as `from_ec_der` does, but on the curve with this OID, whatever curve
    /// it names. An OID of more than 4,294,967,295 octets is reported as out of memory.
    pub fn from_ec_der_with_curve_oid<S: Scheme>(
        alloc: Global,
        der: &[u8],
        curve_oid: ObjectIdentifier,
        scheme: &S,
    ) -> Result<PrivateKey, KeyError>
        ensures answer { MatchResult result
            (IsSec1KeyOn (S.derives scheme.now) curve_oid der.now)
            (RefusesSec1 (RefusesCurveKey (S.derives scheme.now) curve_oid) der.now) }
        // Octets with a fault are refused with it, even when memory runs out.
        ensures faulty { RefusesFaults elements.EcPrivateKey der.now result }
        // An element of another structure is refused as such, even when memory runs out.
        ensures shapeless { RefusesOthers IsECPrivateKey elements.EcPrivateKey der.now result }
    {
        match read(alloc, der) {
            Ok(key) => curve_key(alloc, &curve_oid, &key, scheme),
            Err(error) => Err(error),
        }
    }
}

/// The ECPrivateKey in octets.
fn read(alloc: Global, der: &[u8]) -> Result<ECPrivateKey, KeyError>
    ensures answer { MatchResult result
        (IsWithin IsECPrivateKey der.now)
        (IsUnreadKey elements.EcPrivateKey (RefusesOctets IsECPrivateKey der.now)) }
    // Octets with a fault are refused with it, even when memory runs out.
    ensures faulty { RefusesFaults elements.EcPrivateKey der.now result }
    // An element of another structure is refused as such, even when memory runs out.
    ensures shapeless { RefusesOthers IsECPrivateKey elements.EcPrivateKey der.now result }
{
    match ECPrivateKey::from_der(alloc, der) {
        Ok(key) => Ok(key),
        Err(source) => Err(KeyError::unread(Element::EcPrivateKey, source)),
    }
}

/// The key on the curve that the ECPrivateKey names.
fn own_curve_key<S: Scheme>(
    alloc: Global,
    read: &ECPrivateKey,
    scheme: &S,
) -> Result<PrivateKey, KeyError>
    ensures { MatchResult result
        (λ key. (curve : ObjectIdentifier) × (read.now.parameters ≡ Some curve)
        × IsCurveKey (S.derives scheme.now) curve read.now key)
        (IsEcRefusal (RefusesOwnCurve (S.derives scheme.now) read.now.parameters read.now)) }
{
    match &read.parameters {
        Some(curve) => curve_key(alloc, curve, read, scheme),
        None => Err(KeyError::EC {
            context: KeyContext::CurveMissing,
        }),
    }
}

/// The key of an ECPrivateKey on a supported curve.
fn known_curve_key<S: Scheme>(
    alloc: Global,
    curve: EcCurve,
    read: &ECPrivateKey,
    scheme: &S,
) -> Result<PrivateKey, KeyError>
    ensures { MatchResult result
        (λ key. (oid : ObjectIdentifier) × (identifier_contents oid ≡ curve_identifier curve)
        × IsCurveKey (S.derives scheme.now) oid read.now key)
        (IsEcRefusal (RefusesKnownCurve (S.derives scheme.now) curve read.now)) }
{
    let oid = curve.to_oid(alloc)?;
    curve_key(alloc, &oid, read, scheme)
}
