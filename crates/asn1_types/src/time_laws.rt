//! Laws on times.

ghost use Rattle.std.specs.Prelude.{◌++◌, ◌≡◌, ◌↔◌, IsTrue};
ghost use Rattle.std.specs.Cmp.Lexicographic.{slice_cmp};
ghost use Rattle.std.specs.Ordering.{nat_cmp};
ghost use Rattle.std.specs.Hash as fed;
ghost use Rattle.asn1_types.specs.declared.generalized_time.GeneralizedTime.{GeneralizedTime};
ghost use Rattle.asn1_types.specs.declared.utc_time.UTCTime.{UTCTime};
ghost use Rattle.asn1_types.specs.Time.{generalized_fields, utc_fields};

use crate::{GeneralizedTime, UTCTime};
use std::hash::Hash;

/// Times are ordered by their fields, the year first; times that compare equal are the same, and
/// all fields are hashed.
pub fn times_are_their_fields()
    ensures order { (a b : GeneralizedTime) → ⟦<GeneralizedTime as Ord>⟧.cmp a b
        ≡ slice_cmp nat_cmp (generalized_fields a) (generalized_fields b) }
    ensures equal { (a b : GeneralizedTime)
        → IsTrue (⟦<GeneralizedTime as PartialEq>⟧.eq a b) ↔ (a ≡ b) }
    ensures hashed { (t : GeneralizedTime) → ⟦<GeneralizedTime as Hash>⟧.hash_input t
        ≡ fed.u16 t.year ++ fed.u8 t.month ++ fed.u8 t.day ++ fed.u8 t.hour ++ fed.u8 t.minute
        ++ fed.u8 t.second }
    ensures utc_order { (a b : UTCTime) → ⟦<UTCTime as Ord>⟧.cmp a b
        ≡ slice_cmp nat_cmp (utc_fields a) (utc_fields b) }
    ensures utc_equal { (a b : UTCTime) → IsTrue (⟦<UTCTime as PartialEq>⟧.eq a b) ↔ (a ≡ b) }
    ensures utc_hashed { (t : UTCTime)
        → ⟦<UTCTime as Hash>⟧.hash_input t ≡ ⟦<GeneralizedTime as Hash>⟧.hash_input t.time }
{}
