//! Points of the supported curves from coordinates.

ghost use Rattle.std.specs.Prelude.{◌≡◌, ◌↔◌, ◌∷◌, ◌++◌, IsTrue, IfOk, Err, MatchResult};
ghost use Rattle.key_core.specs.MadeKeys.{AreCoordinates, IsPointKey, RefusesCoordinates};
ghost use Rattle.key_core.specs.declared.error.KeyContext.TheVariants as contexts;
ghost use Rattle.key_core.specs.declared.error.KeyError.TheVariants as errors;

use super::{PublicKey, ec_key};
use crate::ec_curve::EcCurve;
use crate::error::{KeyContext, KeyError};
use std::alloc::{AllocError, Global};

/// The first octet of an uncompressed point (SEC 1 2.3.3).
const UNCOMPRESSED: u8 = 4;

impl PublicKey {
    /// The point with these coordinates on the curve, each in big-endian order. `EC` exactly where
    /// one hasn't the size of the curve's field. Whether the point is on the curve isn't checked.
    pub fn from_ec_components(
        alloc: Global,
        curve: EcCurve,
        x: &[u8],
        y: &[u8],
    ) -> Result<PublicKey, KeyError>
        ensures answer { MatchResult result
            (λ key. IsPointKey curve x.now y.now key.info)
            (RefusesCoordinates curve x.now y.now) }
        // Coordinates of another length are refused, even when memory runs out.
        ensures refused { (AreCoordinates curve x.now y.now → ⊥)
            → result ≡ Err (errors.EC contexts.CoordinateSize) }
    {
        if !are_coordinates(curve, x, y) {
            return Err(KeyError::EC {
                context: KeyContext::CoordinateSize,
            });
        }
        let oid = curve.to_oid(alloc)?;
        let point = uncompressed(alloc, x, y)?;
        match ec_key(alloc, &oid, &point) {
            Ok(info) => Ok(PublicKey { info }),
            // The OID of a supported curve can be written, so this is out of memory.
            Err(_) => Err(KeyError::Memory),
        }
    }
}

/// Whether the coordinates have the size of the curve's field.
pub(crate) fn are_coordinates(curve: EcCurve, x: &[u8], y: &[u8]) -> bool
    ensures { IsTrue result ↔ AreCoordinates curve x.now y.now }
{
    x.len() == curve.field_size() && y.len() == curve.field_size()
}

/// The uncompressed point with these coordinates.
pub(crate) fn uncompressed(alloc: Global, x: &[u8], y: &[u8]) -> Result<Vec<u8>, AllocError>
    ensures { IfOk result (λ point. point.items ≡ 0x04 ∷ x.now ++ y.now) }
{
    let mut point = Vec::new(alloc);
    point.push(UNCOMPRESSED)?;
    point.extend_from_slice(x)?;
    point.extend_from_slice(y)?;
    Ok(point)
}
