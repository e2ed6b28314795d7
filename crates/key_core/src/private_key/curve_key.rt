//! EC private keys: their containers, and keys that were read.

ghost use Rattle.std.specs.Prelude.{◌≡◌, Some, IfOk, MatchResult};
ghost use Rattle.std.specs.Option.{option_map};
ghost use Rattle.asn1_types.specs.Values.{identifier_contents};
ghost use Rattle.key_core.specs.CurveKeys.{anew, IsEcContainer, IsCurveKey, RefusesCurveKey};
ghost use Rattle.key_core.specs.DerivedKeys.{IsCurveOf, IsEcRefusal};

use super::PrivateKey;
use super::derived::point_of;
use crate::ec_curve::EcCurve;
use crate::error::KeyError;
use crate::private_key_info::PrivateKeyInfo;
use crate::private_key_value::PrivateKeyValue;
use crate::private_key_version::PrivateKeyVersion;
use crate::public_key::named_curve;
use asn1_types::ObjectIdentifier;
use asn1_types::oids::EC_PUBLIC_KEY;
use der_core::Structure;
use key_types::{AlgorithmIdentifier, ECPrivateKey};
use sig_core::Scheme;
use std::alloc::{AllocError, Global};

/// The key on this curve of an ECPrivateKey. If it has no point and the curve is supported, the
/// point is derived.
pub(super) fn curve_key<S: Scheme>(
    alloc: Global,
    curve: &ObjectIdentifier,
    read: &ECPrivateKey,
    scheme: &S,
) -> Result<PrivateKey, KeyError>
    ensures { MatchResult result
        (IsCurveKey (S.derives scheme.now) curve.now read.now)
        (IsEcRefusal (RefusesCurveKey (S.derives scheme.now) curve.now read.now)) }
{
    let public_key = point_of(alloc, known_curve(curve), read, scheme)?;
    let key = written_anew(alloc, curve, read)?;
    Ok(PrivateKey {
        info: ec_container(alloc, curve, key)?,
        public_key,
    })
}

/// The container of an EC key. An OID that is too long for an element is reported as out of memory.
pub(super) fn ec_container(
    alloc: Global,
    curve: &ObjectIdentifier,
    key: ECPrivateKey,
) -> Result<PrivateKeyInfo, AllocError>
    ensures { IfOk result (IsEcContainer curve.now key) }
{
    let Ok(parameters) = named_curve(alloc, curve) else {
        return Err(AllocError);
    };
    let oid = ObjectIdentifier::from_known(alloc, EC_PUBLIC_KEY)?;
    Ok(PrivateKeyInfo {
        version: PrivateKeyVersion::V1,
        private_key_algorithm: AlgorithmIdentifier::new(oid, Some(parameters)),
        private_key: PrivateKeyValue::Ec(key),
        attributes: None,
        public_key: None,
    })
}

/// The supported curve with this OID.
fn known_curve(curve: &ObjectIdentifier) -> Option<EcCurve>
    ensures { IsCurveOf (identifier_contents curve.now) result }
{
    EcCurve::named(curve.as_bytes())
}

/// What is written for a key that was read: it names this curve where it named one.
fn written_anew(
    alloc: Global,
    curve: &ObjectIdentifier,
    read: &ECPrivateKey,
) -> Result<ECPrivateKey, AllocError>
    ensures { IfOk result (λ key. key ≡ anew curve.now read.now) }
{
    let mut key = read.try_clone(alloc)?;
    if let Some(_) = key.parameters {
        key.parameters = Some(curve.try_clone(alloc)?);
    }
    Ok(key)
}
