//! The kinds of public keys, by the OIDs of their algorithms.

ghost use Rattle.std.specs.Prelude.{◌≡◌, ◌↔◌, IsTrue, MatchOption};
ghost use Rattle.der_core.specs.Elements.{null};
ghost use Rattle.der_core.specs.BorrowedOption.{at_option};
ghost use Rattle.key_types.specs.AlgorithmIdentifier.{algorithm_identifier};
ghost use Rattle.key_types.specs.KeyKind.{names_kind, IsAlgorithmOf, IsAlgorithmWith, MayHave, IsOid};
ghost use Rattle.key_types.specs.declared.algorithm.AlgorithmIdentifier.{AlgorithmIdentifier};

use crate::algorithm::AlgorithmIdentifier;
use crate::algorithm_fields::AlgorithmFields;
use asn1_types::ObjectIdentifier;
use asn1_types::oids::{
    EC_PUBLIC_KEY, ED448, ED25519, ML_DSA_44, ML_DSA_65, ML_DSA_87, RSA_ENCRYPTION, X448, X25519,
};
use der_core::tag::{NULL, OBJECT_IDENTIFIER};
use der_core::{Elem, Structure, is_same, leaf_at};

/// A kind of public keys.
#[derive(Clone, Copy, Debug, PartialEq, Eq)]
pub enum KeyKind {
    /// RSA, with parameters NULL (RFC 3279 2.3.1); absent ones are accepted, too.
    Rsa,
    /// A point of a named curve (RFC 5480 2.1.1).
    Ec,
    /// The Edwards and Montgomery curves 25519 and 448 (RFC 8410 3).
    Ed,
    /// ML-DSA (RFC 9881 2).
    Mldsa,
}

impl KeyKind {
    /// The kind of keys that an OID, given as contents octets, identifies.
    pub fn named(oid: &[u8]) -> Option<KeyKind>
        ensures { MatchOption result
            ((kind : KeyKind) → IsTrue (names_kind kind oid.now) → ⊥)
            (λ kind. IsTrue (names_kind kind oid.now)) }
    {
        if KeyKind::Rsa.is_named(oid) {
            return Some(KeyKind::Rsa);
        }
        if KeyKind::Ec.is_named(oid) {
            return Some(KeyKind::Ec);
        }
        if KeyKind::Ed.is_named(oid) {
            return Some(KeyKind::Ed);
        }
        if KeyKind::Mldsa.is_named(oid) {
            return Some(KeyKind::Mldsa);
        }
        None
    }

    /// Whether an OID, given as contents octets, identifies the kind.
    pub fn is_named(self, oid: &[u8]) -> bool
        ensures { result ≡ names_kind self oid.now }
    {
        match self {
            KeyKind::Rsa => oid == RSA_ENCRYPTION,
            KeyKind::Ec => oid == EC_PUBLIC_KEY,
            KeyKind::Ed => { oid == X25519 || oid == X448 || oid == ED25519 || oid == ED448 }
            KeyKind::Mldsa => { oid == ML_DSA_44 || oid == ML_DSA_65 || oid == ML_DSA_87 }
        }
    }

    /// The kind of keys that the algorithm is for, `None` if there is none or it can't have the
    /// parameters.
    pub fn of(algorithm: &AlgorithmIdentifier) -> Option<KeyKind>
        ensures { MatchOption result
            ((kind : KeyKind) → IsAlgorithmOf kind algorithm.now → ⊥)
            (λ kind. IsAlgorithmOf kind algorithm.now) }
    {
        let oid = algorithm.oid().as_bytes();
        match algorithm.parameters() {
            Some(parameters) => KeyKind::with(oid, Some(parameters.elem())),
            None => KeyKind::with(oid, None),
        }
    }

    /// The kind of keys that a borrowed algorithm is for.
    pub(crate) fn at(elem: Elem<'_>) -> Option<KeyKind>
        ensures { MatchOption result
            ((kind : KeyKind) (algorithm : AlgorithmIdentifier)
            → elem.entry.is.0 ≡ algorithm_identifier algorithm → IsAlgorithmOf kind algorithm
            → ⊥)
            (λ kind. (algorithm : AlgorithmIdentifier)
            × (elem.entry.is.0 ≡ algorithm_identifier algorithm)
            × IsAlgorithmOf kind algorithm) }
    {
        if !AlgorithmIdentifier::has_shape(elem) {
            return None;
        }
        let fields = AlgorithmFields::of(elem)?;
        let oid = leaf_at(fields.oid, OBJECT_IDENTIFIER)?;
        Some(KeyKind::with(oid, fields.parameters)?)
    }

    /// The kind of keys that an OID, given as contents octets, identifies, `None` if there is none
    /// or it can't have the parameters.
    fn with(oid: &[u8], parameters: Option<Elem<'_>>) -> Option<KeyKind>
        ensures { MatchOption result
            ((kind : KeyKind) → IsAlgorithmWith kind oid.now (at_option parameters.entry) → ⊥)
            (λ kind. IsAlgorithmWith kind oid.now (at_option parameters.entry)) }
    {
        let kind = KeyKind::named(oid)?;
        if kind.may_have(parameters) {
            Some(kind)
        } else {
            None
        }
    }

    /// Whether keys of the kind may have these parameters.
    fn may_have(self, parameters: Option<Elem<'_>>) -> bool
        ensures { IsTrue result ↔ MayHave self (at_option parameters.entry) }
    {
        match (self, parameters) {
            (KeyKind::Rsa, None) => true,
            (KeyKind::Rsa, Some(parameters)) => is_null(parameters),
            (KeyKind::Ec, None) => false,
            (KeyKind::Ec, Some(parameters)) => is_oid(parameters),
            (KeyKind::Ed | KeyKind::Mldsa, _) => true,
        }
    }
}

/// Whether the element is NULL.
fn is_null(elem: Elem<'_>) -> bool
    ensures { IsTrue result ↔ (elem.entry.is.0 ≡ null) }
{
    is_same(elem.whole, &[NULL, 0])
}

/// Whether the element is an OBJECT IDENTIFIER.
fn is_oid(elem: Elem<'_>) -> bool
    ensures { IsTrue result ↔ IsOid elem.entry.is.0 }
{
    ObjectIdentifier::has_shape(elem)
}
