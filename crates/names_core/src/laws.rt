//! Laws on dates and general names.

ghost use Rattle.std.specs.Prelude.{◌≡◌, ◌↔◌, ◌++◌, IsTrue};
ghost use Rattle.std.specs.Cmp.Lexicographic.{slice_cmp};
ghost use Rattle.std.specs.Ordering.{nat_cmp};
ghost use Rattle.std.specs.declared.cmp.Ordering.TheVariants.{Equal};
ghost use Rattle.std.specs.Hash as fed;
ghost use Rattle.asn1_types.specs.declared.generalized_time.GeneralizedTime.{GeneralizedTime};
ghost use Rattle.asn1_types.specs.Time.{day_of, generalized_fields, hour_of, minute_of, month_of, second_of, year_of};
ghost use Rattle.name_types.specs.declared.general_name.RawGeneralName.{RawGeneralName};
ghost use Rattle.names_core.specs.GeneralName.{raw_name};
ghost use Rattle.names_core.specs.declared.general_name.GeneralName.{GeneralName};

use crate::UtcDate;
use std::hash::Hash;

/// Dates are ordered by their fields, the year first; dates that compare as neither before nor
/// after one another are the same, equal dates are the same, and all fields are hashed.
pub fn dates_are_their_fields()
    ensures order { (a b : GeneralizedTime) → ⟦<UtcDate as Ord>⟧.cmp a b
        ≡ slice_cmp nat_cmp (generalized_fields a) (generalized_fields b) }
    ensures tied { (a b : GeneralizedTime) → (⟦<UtcDate as Ord>⟧.cmp a b ≡ Equal) ↔ (a ≡ b) }
    ensures equal { (a b : GeneralizedTime) → IsTrue (⟦<UtcDate as PartialEq>⟧.eq a b) ↔ (a ≡ b) }
    ensures hashed { (date : GeneralizedTime) → ⟦<UtcDate as Hash>⟧.hash_input date
        ≡ fed.u16 (year_of date) ++ fed.u8 (month_of date) ++ fed.u8 (day_of date)
        ++ fed.u8 (hour_of date) ++ fed.u8 (minute_of date) ++ fed.u8 (second_of date) }
{}

/// General names and raw names are one to one: each raw name is that of exactly one general name,
/// so converting a name there and back gives the original.
pub fn general_names_are_their_raw_names()
    ensures one { (a b : GeneralName) → raw_name a ≡ raw_name b → a ≡ b }
    ensures each { (raw : RawGeneralName) → (name : GeneralName) × (raw ≡ raw_name name) }
{}
