//! The supported NIST curves.

ghost use Rattle.std.specs.Prelude.{◌≡◌, Some, IfOk, IfSome};
ghost use Rattle.asn1_types.specs.Values.{identifier_contents};
ghost use Rattle.key_core.specs.EcCurve.{curve_identifier, curve_text, field_size};
ghost use Rattle.key_core.specs.DerivedKeys.{curve_kind};

use asn1_types::{ObjectIdentifier, oids};
use sig_core::SchemeKind;
use std::alloc::{AllocError, Global};
use std::fmt;

/// A NIST curve over a prime field (FIPS 186-4 D.1.2), named as in RFC 5480 2.1.1.1.
#[derive(Clone, Copy, Debug, PartialEq, Eq)]
pub enum EcCurve {
    /// P-256, secp256r1.
    NistP256,
    /// P-384, secp384r1.
    NistP384,
    /// P-521, secp521r1.
    NistP521,
}

impl EcCurve {
    /// All curves, in the order of the enum.
    pub const ALL: [EcCurve; 3] = [EcCurve::NistP256, EcCurve::NistP384, EcCurve::NistP521];

    /// The curve with this OID, given by its contents octets, if it is supported.
    pub fn named(oid: &[u8]) -> Option<EcCurve>
        ensures named { (curve : EcCurve) → curve_identifier curve ≡ oid.now → result ≡ Some curve }
        ensures name { IfSome result (λ curve. curve_identifier curve ≡ oid.now) }
    {
        for curve in EcCurve::ALL {
            if curve.oid_contents() == oid {
                return Some(curve);
            }
        }
        None
    }

    /// The OID of the curve.
    pub fn to_oid(&self, alloc: Global) -> Result<ObjectIdentifier, AllocError>
        ensures { IfOk result (λ oid. identifier_contents oid ≡ curve_identifier self.now) }
    {
        ObjectIdentifier::from_known(alloc, self.oid_contents())
    }

    /// The contents octets of the OID.
    pub fn oid_contents(self) -> &'static [u8]
        ensures { result.now ≡ curve_identifier self }
    {
        match self {
            EcCurve::NistP256 => oids::SECP256R1,
            EcCurve::NistP384 => oids::SECP384R1,
            EcCurve::NistP521 => oids::SECP521R1,
        }
    }

    /// The size of a field element in octets: of a coordinate of a point, and of a secret.
    pub fn field_size(self) -> usize
        ensures { result ≡ field_size self }
    {
        match self {
            EcCurve::NistP256 => 32,
            EcCurve::NistP384 => 48,
            EcCurve::NistP521 => 66,
        }
    }

    /// The kind of the curve's secrets, as a scheme knows it.
    pub fn scheme_kind(self) -> SchemeKind
        ensures { result ≡ curve_kind self }
    {
        match self {
            EcCurve::NistP256 => SchemeKind::P256,
            EcCurve::NistP384 => SchemeKind::P384,
            EcCurve::NistP521 => SchemeKind::P521,
        }
    }
}

impl fmt::Display for EcCurve {
    ghost output = { λ curve. Some (curve_text curve) };

    fn fmt<W: fmt::Write>(&self, f: &mut fmt::Formatter<W>) -> fmt::Result {
        match self {
            EcCurve::NistP256 => write!(f, "NIST-P256"),
            EcCurve::NistP384 => write!(f, "NIST-P384"),
            EcCurve::NistP521 => write!(f, "NIST-P521"),
        }
    }
}
