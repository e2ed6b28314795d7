//! Integers of any size.

ghost use Rattle.std.specs.Prelude.{◌≡◌, ◌↔◌, ◌≢◌, ◌<◌, ◌≤◌, List, ℕ, [], ◌∷◌, length, slice_index, IfOk, IsTrue, MatchResult, Err, bytes_eq};
ghost use Rattle.std.proofs.Common.{rules};
ghost use Rattle.std.specs.Cmp.Rules.{comparing};
ghost use Rattle.asn1_types.specs.Contents.{RefusesContents};
ghost use Rattle.asn1_types.specs.Integer.{IsInteger, number_of, IsUnsignedInteger, unsigned_octets};
ghost use Rattle.der_core.specs.Head.{IsOctets};

use der_core::{DerError, Octets};
use std::alloc::{AllocError, Global};

/// An INTEGER as its contents octets, in two's complement, the most significant first (X.690 8.3).
#[derive(Debug, Drop)]
pub struct IntegerAsn1 {
    contents: Octets,
    pub ghost formed: { IsInteger contents },
}

impl IntegerAsn1 {
    /// Whether octets are the contents of an INTEGER: there is at least one (X.690 8.3.1).
    pub fn is_content(bytes: &[u8]) -> bool
        ensures formed { IsTrue result ↔ IsInteger bytes.now }
    {
        !bytes.is_empty()
    }

    /// The INTEGER with these contents octets, `Shape` exactly if there are none (X.690 8.3.1).
    pub fn from_content(alloc: Global, bytes: &[u8]) -> Result<IntegerAsn1, DerError>
        ensures read { MatchResult result
            (λ integer. integer.contents ≡ bytes.now)
            (RefusesContents (IsInteger bytes.now)) }
        // A refusal comes before memory is allocated.
        ensures refused { (IsInteger bytes.now → ⊥) → result ≡ Err DerError.Shape }
    {
        if !IntegerAsn1::is_content(bytes) {
            return Err(DerError::Shape);
        }
        Ok(IntegerAsn1 {
            contents: Octets::from_slice(alloc, bytes)?,
        })
    }

    /// The number that big-endian octets encode, with the shortest contents: leading zeros are
    /// dropped, no octets are the number 0, and a zero octet is prepended to a first octet of 0x80
    /// or more, whose first bit would be the sign (X.690 8.3.2, 8.3.3).
    pub fn from_bytes_be_unsigned(alloc: Global, bytes: &[u8]) -> Result<IntegerAsn1, AllocError>
        ensures { IfOk result
            (λ integer. IsUnsignedInteger (number_of bytes.now) integer.contents) }
    {
        let digits = without_zeros(bytes);
        let mut contents = Vec::with_capacity(alloc, digits.len().saturating_add(1))?;
        // The first bit would be 1, or there would be no octet.
        if !matches!(digits, [0..=0x7F, ..]) {
            contents.push(0)?;
        }
        contents.extend_from_slice(digits)?;
        Ok(IntegerAsn1 {
            contents: Octets::from(contents),
        })
    }

    /// The contents octets without a leading zero octet, unless it is the only one. As an unsigned
    /// number they have the same value.
    pub fn as_unsigned_bytes_be(&self) -> &[u8]
        ensures octets { result.now ≡ unsigned_octets self.now.contents }
        ensures number { number_of result.now ≡ number_of self.now.contents }
    {
        match self.contents.as_slice() {
            [0, rest @ ..] if !rest.is_empty() => rest,
            contents => contents,
        }
    }

    /// The contents octets.
    pub fn as_signed_bytes_be(&self) -> &[u8]
        ensures { result.now ≡ self.now.contents }
    {
        self.contents.as_slice()
    }

    /// A copy of the integer.
    pub fn try_clone(&self, alloc: Global) -> Result<IntegerAsn1, AllocError>
        ensures { IfOk result (λ copy. copy ≡ self.now) }
    {
        Ok(IntegerAsn1 {
            contents: self.contents.try_clone(alloc)?,
        })
    }

    /// Overwrites the octets with zeros before they are freed, for secrets.
    pub fn overwrite(self) {
        let IntegerAsn1 { contents } = self;
        contents.overwrite();
    }
}

impl PartialEq for IntegerAsn1 {
    ghost eq = { λ a b. bytes_eq a.contents b.contents };

    ghost laws = { Prim.search (comparing, rules) };

    fn eq(&self, other: &IntegerAsn1) -> bool
        ensures value { result ≡ bytes_eq self.now.contents other.now.contents }
        ensures same { IsTrue result ↔ (self.now ≡ other.now) }
    {
        self.contents == other.contents
    }
}

impl Eq for IntegerAsn1 {
    ghost laws = { Prim.search (comparing, rules) };
}

/// The octets from the first that isn't zero on.
fn without_zeros(octets: &[u8]) -> &[u8]
    ensures number { number_of result.now ≡ number_of octets.now }
    ensures no_zero { result.now ≢ [] → 0 < slice_index result.now 0 }
{
    let mut rest = octets;
    while let [0, after @ ..] = rest {
        rest = after;
    }
    rest
}

/// A non-negative number has one shortest contents, and no shorter ones: they have no leading zeros
/// but the one that is the number 0 or that a first octet of 0x80 or more needs.
pub fn one_shortest_integer()
    ensures one { (number : ℕ) (a b : List ℕ) → IsOctets a → IsOctets b → IsUnsignedInteger number a
        → IsUnsignedInteger number b → a ≡ b }
    ensures none_shorter { (number : ℕ) (a b : List ℕ) → IsOctets b → IsUnsignedInteger number a
        → IsInteger b → slice_index b 0 < 128 → number_of b ≡ number → length a ≤ length b }
    ensures zeros_before { (octets : List ℕ) → number_of (0 ∷ octets) ≡ number_of octets }
    ensures zero { IsUnsignedInteger (number_of []) (0 ∷ []) }
    ensures low { (first : ℕ) (octets : List ℕ) → 0 < first → first < 128
        → IsUnsignedInteger (number_of (first ∷ octets)) (first ∷ octets) }
    ensures high { (first : ℕ) (octets : List ℕ) → 128 ≤ first
        → IsUnsignedInteger (number_of (first ∷ octets)) (0 ∷ first ∷ octets) }
{}
