//! The times of certificates.

ghost use Rattle.std.specs.Prelude.{◌≡◌, ◌↔◌, IsTrue};

use crate::{GeneralizedTime, UTCTime};
use der_core::{DerError, Elem, Structure, Tree};
use std::alloc::{AllocError, Global};

/// A time in one of its two forms (RFC 5280 4.1.2.5). A reader doesn't require the form that
/// belongs to the year.
#[derive(Debug, Drop)]
pub enum Time {
    /// A UTCTime, of the years 1950 to 2049 (RFC 5280 4.1.2.5.1).
    Utc(UTCTime),
    /// A GeneralizedTime (RFC 5280 4.1.2.5.2).
    Generalized(GeneralizedTime),
}

impl Structure for Time {
    ghost use Rattle.asn1_types.specs.Elements.{time};
    ghost use Rattle.asn1_types.specs.Facts.Elements.{times};

    ghost written = { time };

    ghost spells = { λ element value. element ≡ time value };

    fn has_shape(elem: Elem<'_>) -> bool {
        UTCTime::has_shape(elem) || GeneralizedTime::has_shape(elem)
    }

    fn read_at(alloc: Global, elem: Elem<'_>) -> Result<Time, DerError> {
        if UTCTime::has_shape(elem) {
            return Ok(Time::Utc(UTCTime::read_at(alloc, elem)?));
        }
        Ok(Time::Generalized(GeneralizedTime::read_at(alloc, elem)?))
    }

    fn write(&self, alloc: Global) -> Result<Tree, DerError> {
        match self {
            Time::Utc(time) => time.write(alloc),
            Time::Generalized(time) => time.write(alloc),
        }
    }

    fn try_clone(&self, alloc: Global) -> Result<Time, AllocError> {
        Ok(match self {
            Time::Utc(time) => Time::Utc(time.try_clone(alloc)?),
            Time::Generalized(time) => Time::Generalized(time.try_clone(alloc)?),
        })
    }

    ghost grammar = { times };
}

/// Times are equal exactly if their encodings are.
impl PartialEq for Time {
    ghost use Rattle.asn1_types.specs.Elements.{time};
    ghost use Rattle.der_core.specs.Equality.{same_octets};
    ghost use Rattle.der_core.specs.Facts.Equality.{same_octets_per};

    ghost eq = { same_octets time };

    ghost laws = { same_octets_per time };

    fn eq(&self, other: &Time) -> bool
        ensures octets { result ≡ same_octets time self.now other.now }
        ensures same { IsTrue result ↔ (self.now ≡ other.now) }
    {
        match (self, other) {
            (Time::Utc(a), Time::Utc(b)) => *a == *b,
            (Time::Generalized(a), Time::Generalized(b)) => *a == *b,
            _ => false,
        }
    }
}

impl Eq for Time {
    ghost use Rattle.asn1_types.specs.Elements.{time};
    ghost use Rattle.der_core.specs.Facts.Equality.{same_octets_equiv};

    ghost laws = { same_octets_equiv time };
}
