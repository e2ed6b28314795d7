//! The kinds of unsigned attributes, by OID.

ghost use Rattle.std.specs.Prelude.{◌≡◌};
ghost use Rattle.cms_types.specs.UnsignedKind.{named_unsigned};

use asn1_types::oids::{COUNTERSIGNATURE, RFC3161_COUNTER_SIGN};

/// A kind of unsigned attributes.
#[derive(Clone, Copy, Debug, PartialEq, Eq)]
pub enum UnsignedKind {
    /// Counter-signatures (RFC 5652 11.4).
    CounterSign,
    /// Signed data over the signature, Microsoft's form of a counter-signature.
    MsCounterSign,
    /// Any other.
    Other,
}

impl UnsignedKind {
    /// The kind of attributes that an OID names, given by its contents octets.
    pub fn named(oid: &[u8]) -> UnsignedKind
        ensures { result ≡ named_unsigned oid.now }
    {
        if oid == COUNTERSIGNATURE {
            return UnsignedKind::CounterSign;
        }
        if oid == RFC3161_COUNTER_SIGN {
            return UnsignedKind::MsCounterSign;
        }
        UnsignedKind::Other
    }
}
