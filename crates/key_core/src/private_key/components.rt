//! Curve private keys from their components.

ghost use Rattle.std.specs.Prelude.{◌≡◌, ◌∷◌, ◌++◌, Option, Some, Err, IfOk, MatchResult};
ghost use Rattle.std.specs.Option.{option_copied, option_map};
ghost use Rattle.asn1_types.specs.Values.{bit_string_contents};
ghost use Rattle.asn1_types.specs.declared.bit_string.BitString.{BitString};
ghost use Rattle.key_core.specs.CurveKeys.{given, IsGivenCurveKey, IsGivenPointKey};
ghost use Rattle.key_core.specs.DerivedKeys.{whole_bits};
ghost use Rattle.key_core.specs.EdKeys.{IsGivenEdKey, version_beside};
ghost use Rattle.key_core.specs.MadeKeys.{AreCoordinates, RefusesCoordinates, NamesEd};
ghost use Rattle.key_core.specs.declared.error.KeyContext.TheVariants as contexts;
ghost use Rattle.key_core.specs.declared.error.KeyError.TheVariants as errors;

use super::PrivateKey;
use super::curve_key::ec_container;
use crate::ec_curve::EcCurve;
use crate::error::{KeyContext, KeyError};
use crate::private_key_info::PrivateKeyInfo;
use crate::private_key_value::PrivateKeyValue;
use crate::private_key_version::PrivateKeyVersion;
use crate::public_key::coordinates::{are_coordinates, uncompressed};
use asn1_types::{BitString, ObjectIdentifier};
use der_core::{Octets, copy_option};
use key_types::{AlgorithmIdentifier, ECPrivateKey};
use std::alloc::{AllocError, Global};

impl PrivateKey {
    /// The key with this secret and the point with these coordinates, each in big-endian order, on
    /// the curve. `EC` with `CoordinateSize` exactly where a coordinate hasn't the size of the
    /// curve's field. Neither the size of the secret is checked, nor whether the two belong
    /// together.
    pub fn from_ec_components(
        alloc: Global,
        curve: EcCurve,
        secret: &[u8],
        point_x: &[u8],
        point_y: &[u8],
    ) -> Result<PrivateKey, KeyError>
        ensures answer { MatchResult result
            (IsGivenPointKey curve secret.now point_x.now point_y.now)
            (RefusesCoordinates curve point_x.now point_y.now) }
        // Coordinates of another length are refused, even when memory runs out.
        ensures refused { (AreCoordinates curve point_x.now point_y.now → ⊥)
            → result ≡ Err (errors.EC contexts.CoordinateSize) }
    {
        if !are_coordinates(curve, point_x, point_y) {
            return Err(KeyError::EC {
                context: KeyContext::CoordinateSize,
            });
        }
        let oid = curve.to_oid(alloc)?;
        let point = uncompressed(alloc, point_x, point_y)?;
        Ok(PrivateKey::from_ec_encoded_components(alloc, oid, secret, Some(&point))?)
    }

    /// The key with this secret and, if given, the point with these octets, on the curve with this
    /// OID. None of the three is checked. An OID of more than 4,294,967,295 octets is reported as
    /// out of memory.
    pub fn from_ec_encoded_components(
        alloc: Global,
        curve_oid: ObjectIdentifier,
        secret: &[u8],
        point: Option<&[u8]>,
    ) -> Result<PrivateKey, AllocError>
        ensures { IfOk result (IsGivenCurveKey curve_oid secret.now (option_copied point.entry)) }
    {
        let public_key = bits_of(alloc, point)?;
        let key = given_key(alloc, &curve_oid, secret, &public_key)?;
        Ok(PrivateKey {
            info: ec_container(alloc, &curve_oid, key)?,
            public_key,
        })
    }

    /// The key with this secret and, if given, the public key with these octets, of the Curve25519
    /// or Curve448 algorithm with this OID, which must be that of Ed25519, X25519, Ed448 or X448
    /// (RFC 8410 3). Neither the sizes are checked, nor whether the two belong together.
    pub fn from_ed_encoded_components(
        alloc: Global,
        algorithm_oid: ObjectIdentifier,
        secret: &[u8],
        public_key: Option<&[u8]>,
    ) -> Result<PrivateKey, AllocError>
        requires { NamesEd algorithm_oid }
        ensures { IfOk result
            (IsGivenEdKey algorithm_oid secret.now (option_copied public_key.entry)) }
    {
        let version = version_beside(public_key);
        let public_key = bits_of(alloc, public_key)?;
        let beside = copy_option(alloc, &public_key)?;
        // The secret comes last: nothing fails after it, so it is only dropped as part of a key.
        let secret = Octets::from_slice(alloc, secret)?;
        let info = PrivateKeyInfo {
            version,
            private_key_algorithm: AlgorithmIdentifier::new(algorithm_oid, None),
            private_key: PrivateKeyValue::Ed(secret),
            attributes: None,
            public_key: beside,
        };
        Ok(PrivateKey { info, public_key })
    }
}

/// The ECPrivateKey with these parts.
fn given_key(
    alloc: Global,
    curve: &ObjectIdentifier,
    secret: &[u8],
    point: &Option<BitString>,
) -> Result<ECPrivateKey, AllocError>
    ensures { IfOk result (λ key. key ≡ given curve.now secret.now point.now) }
{
    let parameters = Some(curve.try_clone(alloc)?);
    let public_key = copy_option(alloc, point)?;
    Ok(ECPrivateKey {
        private_key: Octets::from_slice(alloc, secret)?,
        parameters,
        public_key,
    })
}

/// The bits with these octets, if any.
fn bits_of(alloc: Global, octets: Option<&[u8]>) -> Result<Option<BitString>, AllocError>
    ensures { IfOk result (λ bits. option_map bit_string_contents bits
        ≡ option_map whole_bits (option_copied octets.entry)) }
{
    match octets {
        Some(octets) => Ok(Some(BitString::with_bytes(alloc, octets)?)),
        None => Ok(None),
    }
}

/// The version of a container with this public key.
fn version_beside(public_key: Option<&[u8]>) -> PrivateKeyVersion
    ensures { result ≡ version_beside (option_copied public_key.entry) }
{
    match public_key {
        Some(_) => PrivateKeyVersion::V2,
        None => PrivateKeyVersion::V1,
    }
}
