//! Curve public keys that a scheme derives from secrets.

ghost use Rattle.std.specs.Prelude.{Some, MatchResult};
ghost use Rattle.key_core.specs.DerivedKeys.{curve_kind, ed_kind, IsDerived, RefusesDerived, IsPointOf, RefusesPoint, IsEdKeyOf, RefusesEdKey, IsEcRefusal, IsEdRefusal};
ghost use Rattle.key_core.specs.EcCurve.{field_size};

use crate::ec_curve::EcCurve;
use crate::ed_algorithm::EdAlgorithm;
use crate::error::{KeyContext, KeyError};
use asn1_types::BitString;
use key_types::ECPrivateKey;
use sig_core::{Scheme, SchemeError};
use std::alloc::Global;

/// The size of a Curve25519 secret in octets (RFC 8032 5.1.5, RFC 7748 5).
const ED_SECRET_SIZE: usize = 32;

/// The public key of an EC key: the point in the private key, else the derived one if the curve is
/// supported, else none.
pub(super) fn point_of<S: Scheme>(
    alloc: Global,
    known: Option<EcCurve>,
    key: &ECPrivateKey,
    scheme: &S,
) -> Result<Option<BitString>, KeyError>
    ensures { MatchResult result
        (IsPointOf (S.derives scheme.now) known key.now.private_key key.now.public_key)
        (IsEcRefusal
        (RefusesPoint (S.derives scheme.now) known key.now.private_key key.now.public_key)) }
{
    match (&key.public_key, known) {
        (Some(point), _) => Ok(Some(point.try_clone(alloc)?)),
        (None, Some(curve)) => {
            let secret = key.private_key.as_slice();
            Ok(Some(derived_point(alloc, curve, secret, scheme)?))
        }
        (None, None) => Ok(None),
    }
}

/// The public key of a Curve25519 or Curve448 key: the derived one if the algorithm is supported,
/// else none.
pub(super) fn ed_key_of<S: Scheme>(
    alloc: Global,
    known: Option<EdAlgorithm>,
    secret: &[u8],
    scheme: &S,
) -> Result<Option<BitString>, KeyError>
    ensures { MatchResult result
        (IsEdKeyOf (S.derives scheme.now) known secret.now)
        (IsEdRefusal (RefusesEdKey (S.derives scheme.now) known secret.now)) }
{
    match known {
        Some(algorithm) => Ok(Some(derived_ed_key(alloc, algorithm, secret, scheme)?)),
        None => Ok(None),
    }
}

/// The point that the scheme derives from a curve secret.
fn derived_point<S: Scheme>(
    alloc: Global,
    curve: EcCurve,
    secret: &[u8],
    scheme: &S,
) -> Result<BitString, KeyError>
    ensures { MatchResult result
        (λ point. IsDerived (S.derives scheme.now) (curve_kind curve) (field_size curve) secret.now
        (Some point))
        (IsEcRefusal (RefusesDerived (S.derives scheme.now) (curve_kind curve) (field_size curve)
        secret.now)) }
{
    if secret.len() != curve.field_size() {
        return Err(KeyError::EC {
            context: KeyContext::SecretSize,
        });
    }
    match scheme.public_of(alloc, curve.scheme_kind(), secret) {
        Ok(key) => Ok(BitString::with_bytes(alloc, &key)?),
        Err(SchemeError::Refused) => Err(KeyError::EC {
            context: KeyContext::SchemeRefused,
        }),
        Err(SchemeError::Memory) => Err(KeyError::Memory),
    }
}

/// The key that the scheme derives from a Curve25519 secret.
fn derived_ed_key<S: Scheme>(
    alloc: Global,
    algorithm: EdAlgorithm,
    secret: &[u8],
    scheme: &S,
) -> Result<BitString, KeyError>
    ensures { MatchResult result
        (λ key. IsDerived (S.derives scheme.now) (ed_kind algorithm) 32 secret.now (Some key))
        (IsEdRefusal (RefusesDerived (S.derives scheme.now) (ed_kind algorithm) 32 secret.now)) }
{
    if secret.len() != ED_SECRET_SIZE {
        return Err(KeyError::ED {
            context: KeyContext::SecretSize,
        });
    }
    match scheme.public_of(alloc, algorithm.scheme_kind(), secret) {
        Ok(key) => Ok(BitString::with_bytes(alloc, &key)?),
        Err(SchemeError::Refused) => Err(KeyError::ED {
            context: KeyContext::SchemeRefused,
        }),
        Err(SchemeError::Memory) => Err(KeyError::Memory),
    }
}
