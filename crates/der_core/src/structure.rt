//! What all structures have in common.

ghost use Rattle.std.specs.Prelude.{◌≡◌, ◌∷◌, ◌++◌, [], ℕ, List, false, IsTrue, IfOk, IfErr, Ok, Err, MatchResult};
ghost use Rattle.der_core.specs.DerElement.{DerElement};
ghost use Rattle.der_core.specs.Encoding.{encoding, IsDer, IsWellFormed};
ghost use Rattle.der_core.specs.Borrowed.{AreDer};
ghost use Rattle.der_core.specs.Reading.{IsExactFault};
ghost use Rattle.der_core.specs.Refusals.{RefusesShape, RefusesOctets, RefusesInner};
ghost use Rattle.der_core.specs.Structure.{Fits, IsWithin, IsGrammar};
ghost use Rattle.der_core.specs.declared.error.DerError.TheVariants as errors;
ghost use Rattle.der_core.specs.declared.fault.DerFault.{DerFault};

use crate::elem::Elem;
use crate::error::DerError;
use crate::testing::exact_elem;
use crate::tree::Tree;
use crate::writing::write;
use std::alloc::{AllocError, Global};

/// An ASN.1 structure: a type whose values are read from elements and written as elements.
pub trait Structure: Sized + Drop {
    // The element that is written for a value.
    ghost written: { Self → DerElement };

    // The element encodes this value.
    ghost spells: { DerElement → Self → Type 0 };

    // The elements that the encoding wraps in strings, from left to right.
    ghost inner: { Self → List DerElement } = { λ _. [] };

    /// Whether the element encodes a value. It doesn't allocate.
    fn has_shape(elem: Elem<'_>) -> bool
        ensures fits { IsTrue result → Fits spells elem.entry.is.0 }
        ensures unfit { result ≡ false → (value : Self) → spells elem.entry.is.0 value → ⊥ };

    /// The value that a borrowed element encodes. Fails with `Shape`, if it encodes none, or
    /// `Memory`.
    fn read_at(alloc: Global, elem: Elem<'_>) -> Result<Self, DerError>
        ensures { MatchResult result (spells elem.entry.is.0)
            (RefusesShape (spells elem.entry.is.0)) };

    /// The element of the value, which encodes it. Fails with the error of `der_core::write` for
    /// the first element wrapped in a string that can't be written, from left to right, or with
    /// `Memory`.
    fn write(&self, alloc: Global) -> Result<Tree, DerError>
        ensures { MatchResult result
            (λ tree. (tree ≡ written self.now) × IsWellFormed tree × AreDer (inner self.now))
            (RefusesInner (inner self.now)) };

    /// A copy of the value.
    fn try_clone(&self, alloc: Global) -> Result<Self, AllocError>
        ensures { IfOk result (λ copy. copy ≡ self.now) };

    // An element encodes at most one value; the element that is written for a value encodes it.
    ghost grammar: { IsGrammar spells written inner };

    /// The value that a tree encodes. Fails with `Shape`, if it encodes none, or `Memory`. The tree
    /// must be within limits, as every tree is that was read.
    final fn read(alloc: Global, tree: &Tree) -> Result<Self, DerError>
        requires { IsDer tree.now }
        ensures { MatchResult result (spells tree.now) (RefusesShape (spells tree.now)) }
    {
        let octets = write(alloc, tree)?;
        let elem = exact_elem(&octets)?;
        Self::read_at(alloc, elem)
    }

    /// The value that the octets encode, all of them. Malformed octets and other shapes are refused
    /// without allocating.
    final fn from_der(alloc: Global, octets: &[u8]) -> Result<Self, DerError>
        // The value is the one that the octets encode. The error is out of memory, the first fault,
        // the first trailing octet, or `Shape` if the element encodes no value.
        ensures answer { MatchResult result (IsWithin spells octets.now)
            (RefusesOctets spells octets.now) }
        // Octets with a fault are refused with it, even if memory runs out.
        ensures faulty { (at : ℕ) (fault : DerFault) → IsExactFault octets.now at fault
            → result ≡ Err (errors.Malformed (record { at = at; fault = fault })) }
        // An element that encodes no value is refused as such, even if memory runs out.
        ensures shapeless { (element : DerElement) → IsDer element → octets.now ≡ encoding element
            → ((value : Self) → spells element value → ⊥) → result ≡ Err errors.Shape }
    {
        let elem = exact_elem(octets)?;
        if !Self::has_shape(elem) {
            return Err(DerError::Shape);
        }
        Self::read_at(alloc, elem)
    }

    /// The encoding of the value. Fails with the error of `der_core::write` for the first element
    /// that can't be written, or with `Memory`: elements wrapped in strings come first, from left
    /// to right, then the value's own.
    final fn to_der(&self, alloc: Global) -> Result<Vec<u8>, DerError>
        ensures { MatchResult result
            (λ octets. (octets.items ≡ encoding (written self.now)) × IsDer (written self.now)
            × AreDer (inner self.now))
            (RefusesInner (inner self.now ++ written self.now ∷ [])) }
    {
        let tree = self.write(alloc)?;
        write(alloc, &tree)
    }
}
