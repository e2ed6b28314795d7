//! Private keys by their kinds.

ghost use Rattle.std.specs.Prelude.{◌≡◌, ◌∷◌, [], false, IfOk, IsTrue, MatchResult, ◌↔◌};
ghost use Rattle.der_core.specs.Encoding.{encoding, IsDer};
ghost use Rattle.der_core.specs.Refusals.{RefusesShape, RefusesInner};
ghost use Rattle.key_core.specs.PrivateKeyValue.{private_kind, private_key, IsPrivateKeyOf};
ghost use Rattle.key_core.specs.declared.private_key_value.PrivateKeyValue.{PrivateKeyValue};

use der_core::{DerError, Octets, Structure, has_within, read_within, write_within};
use key_types::{ECPrivateKey, KeyKind, RsaPrivateKey};
use std::alloc::{AllocError, Global};

/// A private key, as its algorithm encodes it. It has no `Debug`, so no secret is printed by
/// mistake.
pub enum PrivateKeyValue {
    /// An RSA key (RFC 8017 A.1.2).
    Rsa(RsaPrivateKey),
    /// An EC key (RFC 5915 3).
    Ec(ECPrivateKey),
    /// A Curve25519 or Curve448 key (RFC 8410 7).
    Ed(Octets),
}

/// Overwrites the secret; RSA and EC keys do so in their own drop.
impl Drop for PrivateKeyValue {
    fn drop(self) {
        match self {
            PrivateKeyValue::Rsa(_key) => {}
            PrivateKeyValue::Ec(_key) => {}
            PrivateKeyValue::Ed(octets) => octets.overwrite(),
        }
    }
}

impl PrivateKeyValue {
    /// The kind of the key.
    pub fn kind(&self) -> KeyKind
        ensures { result ≡ private_kind self.now }
    {
        match self {
            PrivateKeyValue::Rsa(_) => KeyKind::Rsa,
            PrivateKeyValue::Ec(_) => KeyKind::Ec,
            PrivateKeyValue::Ed(_) => KeyKind::Ed,
        }
    }

    /// Whether the octets encode a key of the kind.
    pub(crate) fn is_of(kind: KeyKind, octets: &[u8]) -> bool
        ensures fits { IsTrue result
            → (key : PrivateKeyValue) × IsPrivateKeyOf kind octets.now key }
        ensures unfit { result ≡ false → (key : PrivateKeyValue)
            → IsPrivateKeyOf kind octets.now key → ⊥ }
    {
        match kind {
            KeyKind::Rsa => has_within::<RsaPrivateKey>(octets),
            KeyKind::Ec => has_within::<ECPrivateKey>(octets),
            KeyKind::Ed => has_within::<Octets>(octets),
            KeyKind::Mldsa => false,
        }
    }

    /// Reads a key of the kind.
    pub(crate) fn read(
        alloc: Global,
        kind: KeyKind,
        octets: &[u8],
    ) -> Result<PrivateKeyValue, DerError>
        ensures { MatchResult result (IsPrivateKeyOf kind octets.now)
            (RefusesShape (IsPrivateKeyOf kind octets.now)) }
    {
        match kind {
            KeyKind::Rsa => Ok(PrivateKeyValue::Rsa(read_within(alloc, octets)?)),
            KeyKind::Ec => Ok(PrivateKeyValue::Ec(read_within(alloc, octets)?)),
            KeyKind::Ed => Ok(PrivateKeyValue::Ed(read_within(alloc, octets)?)),
            KeyKind::Mldsa => Err(DerError::Shape),
        }
    }

    /// The encoding of the key.
    pub(crate) fn write(&self, alloc: Global) -> Result<Octets, DerError>
        ensures { MatchResult result
            (λ octets. (octets ≡ encoding (private_key self.now)) × IsDer (private_key self.now))
            (RefusesInner (private_key self.now ∷ [])) }
    {
        let octets = match self {
            PrivateKeyValue::Rsa(key) => write_within(alloc, key)?,
            PrivateKeyValue::Ec(key) => write_within(alloc, key)?,
            PrivateKeyValue::Ed(octets) => write_within(alloc, octets)?,
        };
        Ok(Octets::from(octets))
    }

    /// A copy of the key.
    pub fn try_clone(&self, alloc: Global) -> Result<PrivateKeyValue, AllocError>
        ensures { IfOk result (λ copy. copy ≡ self.now) }
    {
        Ok(match self {
            PrivateKeyValue::Rsa(key) => PrivateKeyValue::Rsa(key.try_clone(alloc)?),
            PrivateKeyValue::Ec(key) => PrivateKeyValue::Ec(key.try_clone(alloc)?),
            PrivateKeyValue::Ed(octets) => {
                PrivateKeyValue::Ed(Structure::try_clone(octets, alloc)?)
            }
        })
    }
}

/// Keys are equal exactly where their kinds and encodings are. Not constant-time.
impl PartialEq for PrivateKeyValue {
    ghost use Rattle.std.specs.Ordering.{on};
    ghost use Rattle.std.specs.Cmp.Lexicographic.{nat_list_eq_equiv};
    ghost use Rattle.std.specs.Cmp.{on_per, partial_equiv_from_equiv};
    ghost use Rattle.std.specs.Prelude.{bytes_eq};
    ghost use Rattle.key_core.specs.PrivateKeyValue.{private_key_octets};

    ghost eq = { on (λ value. private_key_octets value) bytes_eq };

    ghost laws = { on_per (λ value. private_key_octets value)
        (partial_equiv_from_equiv nat_list_eq_equiv) };

    fn eq(&self, other: &PrivateKeyValue) -> bool
        ensures octets { result ≡ bytes_eq (private_key_octets self.now)
            (private_key_octets other.now) }
        ensures same { IsTrue result ↔ (self.now ≡ other.now) }
    {
        match (self, other) {
            (PrivateKeyValue::Rsa(a), PrivateKeyValue::Rsa(b)) => *a == *b,
            (PrivateKeyValue::Ec(a), PrivateKeyValue::Ec(b)) => *a == *b,
            (PrivateKeyValue::Ed(a), PrivateKeyValue::Ed(b)) => *a == *b,
            _ => false,
        }
    }
}

impl Eq for PrivateKeyValue {
    ghost use Rattle.std.specs.Cmp.Lexicographic.{nat_list_eq_equiv};
    ghost use Rattle.std.specs.Cmp.{on_equiv};
    ghost use Rattle.key_core.specs.PrivateKeyValue.{private_key_octets};

    ghost laws = { on_equiv (λ value. private_key_octets value) nat_list_eq_equiv };
}
