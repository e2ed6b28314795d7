//! Elements wrapped in strings.

ghost use Rattle.std.specs.Prelude.{◌≡◌, ◌∷◌, ◌++◌, [], false, ℕ, IsTrue, MatchResult};
ghost use Rattle.der_core.specs.Encoding.{encoding, IsDer};
ghost use Rattle.der_core.specs.Borrowed.{AreDer};
ghost use Rattle.der_core.specs.Refusals.{RefusesShape, RefusesInner};
ghost use Rattle.der_core.specs.Structure.{IsWithin, FitsWithin};

use crate::error::DerError;
use crate::structure::Structure;
use crate::testing::exact_elem;
use std::alloc::Global;

/// Whether the octets of a string are the encoding of a value.
pub fn has_within<T: Structure>(octets: &[u8]) -> bool
    ensures fits { IsTrue result → FitsWithin T.spells octets.now }
    ensures unfit { result ≡ false → (value : T) → IsWithin T.spells octets.now value → ⊥ }
{
    match exact_elem(octets) {
        Ok(elem) => T::has_shape(elem),
        Err(_) => false,
    }
}

/// The value whose encoding the octets of a string are. Fails with `Shape` for all other octets,
/// malformed ones too, or with `Memory`.
pub fn read_within<T: Structure>(alloc: Global, octets: &[u8]) -> Result<T, DerError>
    ensures { MatchResult result (IsWithin T.spells octets.now)
        (RefusesShape (IsWithin T.spells octets.now)) }
{
    match exact_elem(octets) {
        Ok(elem) => T::read_at(alloc, elem),
        Err(_) => Err(DerError::Shape),
    }
}

/// The encoding of the value, as the contents of a string. The errors are those of
/// `Structure::to_der`.
pub fn write_within<T: Structure>(alloc: Global, value: &T) -> Result<Vec<u8>, DerError>
    ensures { MatchResult result
        (λ octets. (octets.items ≡ encoding (T.written value.now)) × IsDer (T.written value.now)
        × AreDer (T.inner value.now))
        (RefusesInner (T.inner value.now ++ T.written value.now ∷ [])) }
{
    value.to_der(alloc)
}
