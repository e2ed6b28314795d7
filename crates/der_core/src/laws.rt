//! Laws on encodings, their sizes, and faults.

ghost use Rattle.std.specs.Prelude.{◌≡◌, ◌↔◌, ℕ, ◌<◌, ◌≤◌, ◌^◌, List, length, Result, Ok, Err, MatchResult};
ghost use Rattle.der_core.specs.DerElement.{DerElement};
ghost use Rattle.der_core.specs.Encoding.{encoding, nesting, IsDer, IsShort, IsWellFormed, most_levels};
ghost use Rattle.der_core.specs.Borrowed.{AreDer};
ghost use Rattle.der_core.specs.Refusals.{RefusesInner, RefusesOctets};
ghost use Rattle.der_core.specs.Size.{size, AreSmall};
ghost use Rattle.der_core.specs.Structure.{IsWithin};
ghost use Rattle.der_core.specs.Writing.{RefusesToWrite};
ghost use Rattle.der_core.specs.Fault.{IsFirstFault};
ghost use Rattle.der_core.specs.Head.{IsOctets, head_at, HasHead};
ghost use Rattle.der_core.specs.Reading.{IsPrefixFree, HasNoFirst};
ghost use Rattle.der_core.specs.declared.error.DerError.{DerError};
ghost use Rattle.der_core.specs.declared.error.DerError.TheVariants as errors;
ghost use Rattle.der_core.specs.declared.fault.DerFault.{DerFault};

use crate::error::DerError;
use crate::reading::read_exact;
use crate::structure::Structure;
use crate::tree::Tree;
use crate::writing::write;
use std::alloc::Global;

/// No encoding is a proper prefix of another.
pub fn no_encoding_begins_another()
    ensures { IsPrefixFree }
{}

/// Octets have at most one first fault, and have one exactly if they don't begin with an element.
pub fn one_first_fault()
    ensures at_most_one { (octets : List ℕ) (p q : ℕ) (e f : DerFault) → IsFirstFault octets p e
        → IsFirstFault octets q f → (p ≡ q) × (e ≡ f) }
    ensures instead_of_an_element { (octets : List ℕ) (p : ℕ) (e : DerFault)
        → IsFirstFault octets p e → HasNoFirst octets }
    ensures where_no_element { (octets : List ℕ) → IsOctets octets → HasNoFirst octets
        → (p : ℕ) × (e : DerFault) × IsFirstFault octets p e }
{}

/// The tests of a head pass for exactly those octets that begin with a tag, the shortest form of a
/// length, and contents of that length.
pub fn tests_of_a_head()
    ensures only_of_a_head { (levels tag : ℕ) (octets contents rest : List ℕ) → IsOctets octets
        → head_at levels octets ≡ Ok (tag, contents, rest)
        → HasHead levels octets tag contents rest }
    ensures of_each_head { (levels tag : ℕ) (octets contents rest : List ℕ)
        → HasHead levels octets tag contents rest
        → head_at levels octets ≡ Ok (tag, contents, rest) }
{}

/// Reading what was written gives the same tree.
pub fn read_back(alloc: Global, tree: &Tree) -> Result<Tree, DerError>
    requires { IsWellFormed tree.now }
    ensures back { MatchResult result (λ again. IsDer tree.now × (again ≡ tree.now))
        (RefusesToWrite tree.now) }
    ensures deep { most_levels < nesting tree.now → result ≡ Err errors.TooDeep }
{
    let octets = write(alloc, tree)?;
    read_exact(alloc, &octets)
}

/// An element isn't longer than its size, and small elements are written, unless memory runs out.
pub fn small_elements_are_written()
    ensures bounded { (element : DerElement) → length (encoding element) ≤ size element }
    ensures short { (element : DerElement) → size element < 2 ^ 32 → IsShort element }
    ensures only_memory { (elements : List DerElement) (e : DerError) → AreSmall elements
        → RefusesInner elements e → e ≡ errors.Memory }
{}

/// Values of a structure are equal exactly if their encodings are, and the octets that are written
/// for a value encode it.
pub fn values_are_their_octets<T: Structure>()
    ensures equal { (a b : T) → AreDer (T.inner a) → AreDer (T.inner b)
        → (encoding (T.written a) ≡ encoding (T.written b)) ↔ (a ≡ b) }
    ensures spelled { (value : T) → AreDer (T.inner value) → IsDer (T.written value)
        → IsWithin T.spells (encoding (T.written value)) value }
{}

/// Octets that encode a value are read as that value, or memory runs out: so says `answer` of
/// [`Structure::from_der`].
pub fn values_are_read_again<T: Structure>()
    ensures { (octets : List ℕ) (value : T) (read : Result T DerError)
        → IsWithin T.spells octets value
        → MatchResult read (IsWithin T.spells octets) (RefusesOctets T.spells octets)
        → MatchResult read (λ again. again ≡ value) (λ e. e ≡ errors.Memory) }
{}
