//! Strings of bits.

ghost use Rattle.std.specs.Prelude.{◌≡◌, ◌↔◌, ◌&&◌, ◌==◌, List, ℕ, [], ◌∷◌, IfOk, IsTrue, MatchOption, MatchResult, Err, bytes_eq};
ghost use Rattle.std.proofs.Common.{rules};
ghost use Rattle.std.specs.Cmp.Rules.{comparing};
ghost use Rattle.asn1_types.specs.Contents.{RefusesContents};
ghost use Rattle.asn1_types.specs.BitString.{IsBitString, HasBitString};

use der_core::{DerError, Octets};
use std::alloc::{AllocError, Global};

const MAX_UNUSED: u8 = 7;

/// A BIT STRING: octets, and how many bits of the last one are unused (X.690 8.6).
#[derive(Debug, Drop)]
pub struct BitString {
    unused: u8,
    payload: Octets,
    pub ghost formed: { IsBitString unused payload },
}

impl BitString {
    /// Whether the octets are the contents of a BIT STRING: a count of unused bits, at most seven
    /// and zero if nothing follows, then the octets that hold the bits (X.690 8.6.2).
    pub fn is_content(bytes: &[u8]) -> bool
        ensures formed { IsTrue result ↔ HasBitString bytes.now }
    {
        parts(bytes).is_some()
    }

    /// The BIT STRING with these contents octets, `Shape` exactly if they are invalid (X.690
    /// 8.6.2).
    pub fn from_content(alloc: Global, bytes: &[u8]) -> Result<BitString, DerError>
        ensures read { MatchResult result
            (λ bits. bytes.now ≡ bits.unused ∷ bits.payload)
            (RefusesContents (HasBitString bytes.now)) }
        // A refusal comes before memory is allocated.
        ensures refused { (HasBitString bytes.now → ⊥) → result ≡ Err DerError.Shape }
    {
        let Some((unused, payload)) = parts(bytes) else {
            return Err(DerError::Shape);
        };
        Ok(BitString {
            unused,
            payload: Octets::from_slice(alloc, payload)?,
        })
    }

    /// The contents octets: the count of unused bits, then the octets that hold the bits.
    pub fn to_content(&self, alloc: Global) -> Result<Octets, AllocError>
        ensures { IfOk result (λ content. content ≡ self.now.unused ∷ self.now.payload) }
    {
        let payload = self.payload_view();
        let mut content = Vec::with_capacity(alloc, payload.len().saturating_add(1))?;
        content.push(self.unused)?;
        content.extend_from_slice(payload)?;
        Ok(Octets::from(content))
    }

    /// The BIT STRING of all bits of the octets.
    pub fn with_bytes(alloc: Global, bytes: &[u8]) -> Result<BitString, AllocError>
        ensures { IfOk result (λ bits. (bits.unused ≡ 0) × (bits.payload ≡ bytes.now)) }
    {
        BitString::with_unused(alloc, bytes, 0)
    }

    /// The BIT STRING of all bits of the octets but the last `unused` ones: at most 7, and none if
    /// there are no octets (X.690 8.6.2.2, 8.6.2.3).
    pub fn with_unused(alloc: Global, bytes: &[u8], unused: u8) -> Result<BitString, AllocError>
        requires { IsBitString unused bytes.now }
        ensures { IfOk result (λ bits. (bits.unused ≡ unused) × (bits.payload ≡ bytes.now)) }
    {
        Ok(BitString {
            unused,
            payload: Octets::from_slice(alloc, bytes)?,
        })
    }

    /// The octets that hold the bits.
    pub fn payload_view(&self) -> &[u8]
        ensures { result.now ≡ self.now.payload }
    {
        self.payload.as_slice()
    }

    /// How many bits of the last octet are unused.
    pub fn unused(&self) -> u8
        ensures { result ≡ self.now.unused }
    {
        self.unused
    }

    /// A copy of the string.
    pub fn try_clone(&self, alloc: Global) -> Result<BitString, AllocError>
        ensures { IfOk result (λ copy. copy ≡ self.now) }
    {
        Ok(BitString {
            unused: self.unused,
            payload: self.payload.try_clone(alloc)?,
        })
    }
}

impl PartialEq for BitString {
    ghost eq = { λ a b. a.unused == b.unused && bytes_eq a.payload b.payload };

    ghost laws = { Prim.search (comparing, rules) };

    fn eq(&self, other: &BitString) -> bool
        ensures value { result ≡ (self.now.unused == other.now.unused
            && bytes_eq self.now.payload other.now.payload) }
        ensures same { IsTrue result ↔ (self.now ≡ other.now) }
    {
        self.unused == other.unused && self.payload == other.payload
    }
}

impl Eq for BitString {
    ghost laws = { Prim.search (comparing, rules) };
}

/// The count of unused bits and the octets that hold the bits.
fn parts(bytes: &[u8]) -> Option<(u8, &[u8])>
    ensures { MatchOption result
        (HasBitString bytes.now → ⊥)
        (λ parts. (bytes.now ≡ parts.0 ∷ parts.1.now) × IsBitString parts.0 parts.1.now) }
{
    let (unused, payload) = bytes.split_first()?;
    if *unused > MAX_UNUSED || (payload.is_empty() && *unused != 0) {
        return None;
    }
    Some((*unused, payload))
}
