//! Strings of a seven-bit alphabet.

ghost use Rattle.std.specs.Prelude.{◌≡◌, ◌↔◌, IfOk, IsTrue, MatchResult, Err, bytes_eq};
ghost use Rattle.std.proofs.Common.{rules};
ghost use Rattle.std.specs.Cmp.Rules.{comparing};
ghost use Rattle.std.proofs.Props.{props};
ghost use Rattle.asn1_types.specs.Contents.{RefusesContents};
ghost use Rattle.asn1_types.specs.Ia5String.{IsIa5, RefusesCharSet};

use crate::error::CharSetError;
use der_core::{DerError, Octets};
use std::alloc::{AllocError, Global};
use std::str;

/// An IA5String: a text of octets of at most 127 each (X.680 41).
#[derive(Debug, Drop)]
pub struct Ia5String {
    text: Octets,
    pub ghost ascii: { IsIa5 text } by { Prim.hlevel props },
}

impl Ia5String {
    /// The string with this text, `CharSet` exactly if one of its octets is above 127.
    pub fn from_string(alloc: Global, text: &str) -> Result<Ia5String, CharSetError>
        ensures made { MatchResult result
            (λ string. string.text ≡ text.now)
            (RefusesCharSet (IsIa5 text.now)) }
        // A refusal comes before memory is allocated.
        ensures refused { (IsIa5 text.now → ⊥) → result ≡ Err CharSetError.CharSet }
    {
        if !text.is_ascii() {
            return Err(CharSetError::CharSet);
        }
        Ok(Ia5String {
            text: Octets::from_slice(alloc, text.as_bytes())?,
        })
    }

    /// Whether octets are the contents of an IA5String: none is above 127.
    pub fn is_content(bytes: &[u8]) -> bool
        ensures formed { IsTrue result ↔ IsIa5 bytes.now }
    {
        bytes.is_ascii()
    }

    /// The string with these contents octets, `Shape` exactly if one is above 127.
    pub fn from_content(alloc: Global, bytes: &[u8]) -> Result<Ia5String, DerError>
        ensures read { MatchResult result
            (λ string. string.text ≡ bytes.now)
            (RefusesContents (IsIa5 bytes.now)) }
        // A refusal comes before memory is allocated.
        ensures refused { (IsIa5 bytes.now → ⊥) → result ≡ Err DerError.Shape }
    {
        if !Ia5String::is_content(bytes) {
            return Err(DerError::Shape);
        }
        Ok(Ia5String {
            text: Octets::from_slice(alloc, bytes)?,
        })
    }

    /// The text, whose octets are the contents octets.
    pub fn as_str(&self) -> &str
        ensures { result.now ≡ self.now.text }
    {
        // SAFETY: octets of at most 127 are valid UTF-8.
        unsafe { str::from_utf8_unchecked(self.text.as_slice()) }
    }

    /// A copy of the string.
    pub fn try_clone(&self, alloc: Global) -> Result<Ia5String, AllocError>
        ensures { IfOk result (λ copy. copy ≡ self.now) }
    {
        Ok(Ia5String {
            text: self.text.try_clone(alloc)?,
        })
    }
}

impl PartialEq for Ia5String {
    ghost eq = { λ a b. bytes_eq a.text b.text };

    ghost laws = { Prim.search (comparing, rules) };

    fn eq(&self, other: &Ia5String) -> bool
        ensures value { result ≡ bytes_eq self.now.text other.now.text }
        ensures same { IsTrue result ↔ (self.now ≡ other.now) }
    {
        self.text == other.text
    }
}

impl Eq for Ia5String {
    ghost laws = { Prim.search (comparing, rules) };
}
