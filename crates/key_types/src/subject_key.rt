//! The public keys of subjects.

ghost use Rattle.std.specs.Prelude.{◌≡◌, ◌↔◌, false, IfOk, IsTrue, MatchResult};
ghost use Rattle.der_core.specs.Encoding.{IsWellFormed};
ghost use Rattle.der_core.specs.Refusals.{RefusesShape, RefusesInner};
ghost use Rattle.key_types.specs.SubjectKey.{kind_of_key};
ghost use Rattle.key_types.specs.PublicKeyInfo.{IsKeyOf, IsSubjectKey, inner_key};
ghost use Rattle.key_types.specs.declared.subject_key.SubjectKey.{SubjectKey};
ghost use Rattle.key_types.specs.declared.subject_key.SubjectKey.TheVariants.{Rsa};
ghost use Rattle.key_types.specs.declared.public_key.RsaPublicKey.{RsaPublicKey};

use crate::key_kind::KeyKind;
use crate::public_key::RsaPublicKey;
use asn1_types::BitString;
use der_core::tag::BIT_STRING;
use der_core::{
    DerError, Elem, Octets, Structure, Tree, bit_octets_at, has_within, read_within, write_within,
};
use std::alloc::{AllocError, Global};

/// A public key, by the kind of its algorithm (RFC 5280 4.1.2.7).
#[derive(Debug, Drop)]
pub enum SubjectKey {
    /// An RSA key (RFC 3279 2.3.1).
    Rsa(RsaPublicKey),
    /// A point of a named curve (RFC 5480 2.2).
    Ec(BitString),
    /// A key on curve 25519 or 448 (RFC 8410 4).
    Ed(BitString),
    /// An ML-DSA key (RFC 9881 4).
    Mldsa(BitString),
}

impl SubjectKey {
    /// The kind of the key.
    pub fn kind(&self) -> KeyKind
        ensures { result ≡ kind_of_key self.now }
    {
        match self {
            SubjectKey::Rsa(_) => KeyKind::Rsa,
            SubjectKey::Ec(_) => KeyKind::Ec,
            SubjectKey::Ed(_) => KeyKind::Ed,
            SubjectKey::Mldsa(_) => KeyKind::Mldsa,
        }
    }

    /// Whether the element encodes a key of the kind.
    pub(crate) fn has_shape_of(kind: KeyKind, elem: Elem<'_>) -> bool
        ensures fits { IsTrue result → (key : SubjectKey) × IsKeyOf kind elem.entry.is.0 key }
        ensures unfit { result ≡ false → (key : SubjectKey) → IsKeyOf kind elem.entry.is.0 key → ⊥ }
    {
        match kind {
            KeyKind::Rsa => has_rsa_key(elem),
            KeyKind::Ec => BitString::has_shape(elem),
            KeyKind::Ed => BitString::has_shape(elem),
            KeyKind::Mldsa => BitString::has_shape(elem),
        }
    }

    /// The key of the kind that the element encodes.
    pub(crate) fn read_at(
        alloc: Global,
        kind: KeyKind,
        elem: Elem<'_>,
    ) -> Result<SubjectKey, DerError>
        ensures { MatchResult result (IsKeyOf kind elem.entry.is.0)
            (RefusesShape (IsKeyOf kind elem.entry.is.0)) }
    {
        match kind {
            KeyKind::Rsa => Ok(SubjectKey::Rsa(read_rsa_key(alloc, elem)?)),
            KeyKind::Ec => Ok(SubjectKey::Ec(BitString::read_at(alloc, elem)?)),
            KeyKind::Ed => Ok(SubjectKey::Ed(BitString::read_at(alloc, elem)?)),
            KeyKind::Mldsa => Ok(SubjectKey::Mldsa(BitString::read_at(alloc, elem)?)),
        }
    }

    /// The element of the key.
    pub(crate) fn write(&self, alloc: Global) -> Result<Tree, DerError>
        ensures { MatchResult result
            (λ tree. IsSubjectKey tree self.now × IsWellFormed tree)
            (RefusesInner (inner_key self.now)) }
    {
        match self {
            SubjectKey::Rsa(key) => write_rsa_key(alloc, key),
            SubjectKey::Ec(bits) | SubjectKey::Ed(bits) | SubjectKey::Mldsa(bits) => {
                bits.write(alloc)
            }
        }
    }

    /// A copy of the key.
    pub fn try_clone(&self, alloc: Global) -> Result<SubjectKey, AllocError>
        ensures { IfOk result (λ copy. copy ≡ self.now) }
    {
        Ok(match self {
            SubjectKey::Rsa(key) => SubjectKey::Rsa(key.try_clone(alloc)?),
            SubjectKey::Ec(bits) => SubjectKey::Ec(Structure::try_clone(bits, alloc)?),
            SubjectKey::Ed(bits) => SubjectKey::Ed(Structure::try_clone(bits, alloc)?),
            SubjectKey::Mldsa(bits) => SubjectKey::Mldsa(Structure::try_clone(bits, alloc)?),
        })
    }
}

/// Whether the element is a BIT STRING without unused bits that encodes an RSA key.
fn has_rsa_key(elem: Elem<'_>) -> bool
    ensures fits { IsTrue result → (key : RsaPublicKey) × IsSubjectKey elem.entry.is.0 (Rsa key) }
    ensures unfit { result ≡ false → (key : RsaPublicKey) → IsSubjectKey elem.entry.is.0 (Rsa key)
        → ⊥ }
{
    match bit_octets_at(elem) {
        Some(payload) => has_within::<RsaPublicKey>(payload),
        None => false,
    }
}

/// The RSA key in a BIT STRING without unused bits.
fn read_rsa_key(alloc: Global, elem: Elem<'_>) -> Result<RsaPublicKey, DerError>
    ensures { MatchResult result
        (λ key. IsSubjectKey elem.entry.is.0 (Rsa key))
        (RefusesShape (λ key. IsSubjectKey elem.entry.is.0 (Rsa key))) }
{
    match bit_octets_at(elem) {
        Some(payload) => read_within(alloc, payload),
        None => Err(DerError::Shape),
    }
}

/// The BIT STRING of an RSA key.
fn write_rsa_key(alloc: Global, key: &RsaPublicKey) -> Result<Tree, DerError>
    ensures { MatchResult result
        (λ tree. IsSubjectKey tree (Rsa key.now) × IsWellFormed tree)
        (RefusesInner (inner_key (Rsa key.now))) }
{
    let payload = write_within(alloc, key)?;
    let mut content = Vec::with_capacity(alloc, payload.len().saturating_add(1))?;
    content.push(0)?;
    content.extend_from_slice(&payload)?;
    Ok(Tree::leaf(BIT_STRING, Octets::from(content)))
}

/// Keys are equal exactly if their kinds and their encodings are.
impl PartialEq for SubjectKey {
    ghost use Rattle.std.specs.Ordering.{on};
    ghost use Rattle.std.specs.Cmp.Lexicographic.{nat_list_eq_equiv};
    ghost use Rattle.std.specs.Cmp.{on_per, partial_equiv_from_equiv};
    ghost use Rattle.std.specs.Prelude.{bytes_eq};
    ghost use Rattle.key_types.specs.PublicKeyInfo.{key_octets};

    ghost eq = { on (λ value. key_octets value) bytes_eq };

    ghost laws = { on_per (λ value. key_octets value)
        (partial_equiv_from_equiv nat_list_eq_equiv) };

    fn eq(&self, other: &SubjectKey) -> bool
        ensures octets { result ≡ bytes_eq (key_octets self.now) (key_octets other.now) }
        ensures same { IsTrue result ↔ (self.now ≡ other.now) }
    {
        match (self, other) {
            (SubjectKey::Rsa(a), SubjectKey::Rsa(b)) => *a == *b,
            (SubjectKey::Ec(a), SubjectKey::Ec(b)) => *a == *b,
            (SubjectKey::Ed(a), SubjectKey::Ed(b)) => *a == *b,
            (SubjectKey::Mldsa(a), SubjectKey::Mldsa(b)) => *a == *b,
            _ => false,
        }
    }
}

impl Eq for SubjectKey {
    ghost use Rattle.std.specs.Cmp.Lexicographic.{nat_list_eq_equiv};
    ghost use Rattle.std.specs.Cmp.{on_equiv};
    ghost use Rattle.key_types.specs.PublicKeyInfo.{key_octets};

    ghost laws = { on_equiv (λ value. key_octets value) nat_list_eq_equiv };
}
