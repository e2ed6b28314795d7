//! The times and the key of a borrowed certificate.

ghost use Rattle.std.specs.Prelude.{◌≡◌, ◌≢◌, Some, MatchOption};
ghost use Rattle.asn1_types.specs.Elements.{time};
ghost use Rattle.asn1_types.specs.declared.time.Time.{Time};
ghost use Rattle.key_types.specs.PublicKeyInfo.{IsPublicKeyInfo};
ghost use Rattle.key_types.specs.declared.key_info.SubjectPublicKeyInfo.{SubjectPublicKeyInfo};
ghost use Rattle.x509_types.specs.CertificateFields.{kid, bits_of};
ghost use Rattle.x509_types.specs.Validity.{validity};
ghost use Rattle.x509_types.specs.declared.certificate.validity.Validity.{Validity};

use asn1_types::{GeneralizedTime, Time, UTCTime};
use der_core::tag::{BIT_STRING, GENERALIZED_TIME, SEQUENCE, UTC_TIME};
use der_core::{Elem, leaf_at, two_kids};

/// The first time of a validity.
pub(crate) fn first_time(elem: Elem<'_>) -> Option<Time>
    ensures { MatchOption result
        ((value : Validity) → elem.entry.is.0 ≢ validity value)
        (λ not_before. kid 0 elem.entry.is.0 ≡ Some (time not_before)) }
{
    let (first, _second) = two_kids(elem, SEQUENCE)?;
    let not_before = time_at(first)?;
    Some(not_before)
}

/// The second time of a validity.
pub(crate) fn second_time(elem: Elem<'_>) -> Option<Time>
    ensures { MatchOption result
        ((value : Validity) → elem.entry.is.0 ≢ validity value)
        (λ not_after. kid 1 elem.entry.is.0 ≡ Some (time not_after)) }
{
    let (_first, second) = two_kids(elem, SEQUENCE)?;
    let not_after = time_at(second)?;
    Some(not_after)
}

/// The time that the element encodes. It doesn't allocate.
fn time_at(elem: Elem<'_>) -> Option<Time>
    ensures { MatchOption result
        ((value : Time) → elem.entry.is.0 ≢ time value)
        (λ value. elem.entry.is.0 ≡ time value) }
{
    if let Some(contents) = leaf_at(elem, UTC_TIME) {
        return Some(Time::Utc(UTCTime::from_content(contents)?));
    }
    let contents = leaf_at(elem, GENERALIZED_TIME)?;
    Some(Time::Generalized(GeneralizedTime::from_content(contents)?))
}

/// The algorithm of a key, and the octets that hold the bits of the key.
pub(crate) fn key_parts<'a>(elem: Elem<'a>) -> Option<(Elem<'a>, &'a [u8])>
    ensures { MatchOption result
        ((info : SubjectPublicKeyInfo) → IsPublicKeyInfo elem.entry.is.0 info → ⊥)
        (λ parts. (kid 0 elem.entry.is.0 ≡ Some parts.0.is.0)
        × (bits_of (kid 1 elem.entry.is.0) ≡ Some parts.1.now)) }
{
    let (algorithm, key) = two_kids(elem, SEQUENCE)?;
    let contents = leaf_at(key, BIT_STRING)?;
    let (_unused, octets) = contents.split_first()?;
    Some((algorithm, octets))
}
