//! Curves by OID, supported or not.

ghost use Rattle.std.specs.Prelude.{◌≡◌, Some, IfOk};
ghost use Rattle.asn1_types.specs.Values.{identifier_contents, lent_contents};
ghost use Rattle.key_core.specs.NamedEcCurve.{IsNamedCurve, named_curve_identifier, named_curve_text};

use crate::ec_curve::EcCurve;
use asn1_types::{LentIdentifier, ObjectIdentifier};
use std::alloc::{AllocError, Global};
use std::fmt;

/// A curve by its OID, which is borrowed where the curve isn't supported.
#[derive(Clone, Copy, Debug)]
pub enum NamedEcCurve<'a> {
    Known(EcCurve),
    /// Any other curve.
    Unsupported(LentIdentifier<'a>),
}

impl<'a> NamedEcCurve<'a> {
    /// The curve with this OID.
    pub(crate) fn of(identifier: LentIdentifier<'a>) -> NamedEcCurve<'a>
        ensures { IsNamedCurve (lent_contents identifier.entry) result }
    {
        match EcCurve::named(identifier.as_bytes()) {
            Some(curve) => NamedEcCurve::Known(curve),
            None => NamedEcCurve::Unsupported(identifier),
        }
    }

    /// The OID of the curve.
    pub fn to_oid(&self, alloc: Global) -> Result<ObjectIdentifier, AllocError>
        ensures { IfOk result (λ oid. identifier_contents oid ≡ named_curve_identifier self.now) }
    {
        match self {
            NamedEcCurve::Known(curve) => curve.to_oid(alloc),
            NamedEcCurve::Unsupported(identifier) => identifier.to_identifier(alloc),
        }
    }
}

/// A supported curve exactly where the OID names one.
impl<'a> From<&'a ObjectIdentifier> for NamedEcCurve<'a> {
    ghost from_gives = { λ oid named. IsNamedCurve (identifier_contents oid.now) named };

    fn from(oid: &'a ObjectIdentifier) -> NamedEcCurve<'a> {
        NamedEcCurve::of(oid.lent())
    }
}

impl<'a> fmt::Display for NamedEcCurve<'a> {
    ghost output = { λ named. Some (named_curve_text named) };

    fn fmt<W: fmt::Write>(&self, f: &mut fmt::Formatter<W>) -> fmt::Result {
        match self {
            NamedEcCurve::Known(curve) => write!(f, "{curve}"),
            NamedEcCurve::Unsupported(identifier) => write!(f, "Unsupported(OID: {identifier})"),
        }
    }
}
