//! Basic constraints (RFC 5280 4.2.1.9).

ghost use Rattle.std.specs.Prelude.{◌≡◌, ◌≢◌, ◌↔◌, ℕ, IfOk, IsTrue, MatchOption};
ghost use Rattle.der_core.specs.Encoding.{IsWellFormed};
ghost use Rattle.extension_types.specs.BasicConstraints.{constraints_with, small_integer, IsBasicConstraints, HasBadLength, TakesLength};

use crate::boolean::next_boolean;
use der_core::tag::{INTEGER, SEQUENCE};
use der_core::{DerError, Elem, Kids, NewKids, Structure, Tree, leaf, leaf_at, write_boolean};
use std::alloc::{AllocError, Global};

/// Whether the subject of a certificate is a CA, and how long paths below it may be (RFC 5280
/// 4.2.1.9). An absent flag and an explicit FALSE are different values.
#[derive(Clone, Copy, Debug)]
pub struct BasicConstraints {
    ca: Option<bool>,
    pathlen: Option<u8>,
}

impl BasicConstraints {
    ghost use Rattle.extension_types.specs.declared.basic_constraints.BasicConstraints.{BasicConstraints};

    /// The constraints with this flag and this path length.
    pub fn new(ca: Option<bool>, pathlen: Option<u8>) -> BasicConstraints
        ensures { result ≡ constraints_with ca pathlen }
    {
        BasicConstraints { ca, pathlen }
    }

    /// Whether the subject is a CA, `None` if the flag is absent, which means FALSE.
    pub fn ca(&self) -> Option<bool>
        ensures { result ≡ self.now.ca }
    {
        self.ca
    }

    /// How many non-self-issued intermediate certificates may follow this one in a path, `None` for
    /// no limit.
    pub fn pathlen(&self) -> Option<u8>
        ensures { result ≡ self.now.pathlen }
    {
        self.pathlen
    }

    /// The constraints that the element encodes. It doesn't allocate.
    fn at(elem: Elem<'_>) -> Option<BasicConstraints>
        ensures { MatchOption result
            ((b : BasicConstraints) → IsBasicConstraints elem.entry.is.0 b → ⊥)
            (IsBasicConstraints elem.entry.is.0) }
    {
        let mut kids = Kids::of(elem, SEQUENCE)?;
        let ca = next_boolean(&mut kids)?;
        let pathlen = next_length(&mut kids)?;
        kids.end()?;
        Some(BasicConstraints { ca, pathlen })
    }
}

/// The path length, which may be absent.
fn next_length(kids: &mut Kids<'_>) -> Option<Option<u8>>
    ensures { MatchOption result
        (HasBadLength kids.old.are.0)
        (λ number. TakesLength kids.old.are.0 number kids.new.are.0) }
{
    let Some(elem) = kids.next() else {
        return Some(None);
    };
    Some(Some(small_integer_at(elem)?))
}

/// The number of an INTEGER from 0 to 255 with the shortest contents (X.690 8.3.2), `None` for any
/// other element.
pub fn small_integer_at(elem: Elem<'_>) -> Option<u8>
    ensures { MatchOption result
        ((number : ℕ) → elem.entry.is.0 ≢ small_integer number)
        (λ number. elem.entry.is.0 ≡ small_integer number) }
{
    match leaf_at(elem, INTEGER)? {
        [number] if *number < 0x80 => Some(*number),
        [0, number] if *number >= 0x80 => Some(*number),
        _ => None,
    }
}

/// The INTEGER of a number, with the shortest contents (X.690 8.3.2).
fn write_small_integer(alloc: Global, number: u8) -> Result<Tree, AllocError>
    ensures { IfOk result (λ tree. (tree ≡ small_integer number) × IsWellFormed tree) }
{
    if number < 0x80 {
        leaf(alloc, INTEGER, &[number])
    } else {
        leaf(alloc, INTEGER, &[0, number])
    }
}

impl Structure for BasicConstraints {
    ghost use Rattle.extension_types.specs.BasicConstraints.{basic_constraints, IsBasicConstraints};
    ghost use Rattle.extension_types.specs.Facts.Constraints.{all_basic_constraints};

    ghost written = { basic_constraints };

    ghost spells = { IsBasicConstraints };

    fn has_shape(elem: Elem<'_>) -> bool {
        BasicConstraints::at(elem).is_some()
    }

    fn read_at(_alloc: Global, elem: Elem<'_>) -> Result<BasicConstraints, DerError> {
        BasicConstraints::at(elem).ok_or(DerError::Shape)
    }

    fn write(&self, alloc: Global) -> Result<Tree, DerError> {
        let mut kids = NewKids::new(alloc);
        if let Some(ca) = self.ca {
            kids.push(write_boolean(alloc, ca)?)?;
        }
        if let Some(pathlen) = self.pathlen {
            kids.push(write_small_integer(alloc, pathlen)?)?;
        }
        Ok(kids.into_branch(SEQUENCE))
    }

    fn try_clone(&self, _alloc: Global) -> Result<BasicConstraints, AllocError> {
        Ok(*self)
    }

    ghost grammar = { all_basic_constraints };
}

/// Constraints are equal exactly if their encodings are.
impl PartialEq for BasicConstraints {
    ghost use Rattle.der_core.specs.Equality.{same_octets};
    ghost use Rattle.der_core.specs.Facts.Equality.{same_octets_per};
    ghost use Rattle.extension_types.specs.BasicConstraints.{basic_constraints};

    ghost eq = { same_octets basic_constraints };

    ghost laws = { same_octets_per basic_constraints };

    fn eq(&self, other: &BasicConstraints) -> bool
        ensures octets { result ≡ same_octets basic_constraints self.now other.now }
        ensures same { IsTrue result ↔ (self.now ≡ other.now) }
    {
        self.ca == other.ca && self.pathlen == other.pathlen
    }
}

impl Eq for BasicConstraints {
    ghost use Rattle.der_core.specs.Facts.Equality.{same_octets_equiv};
    ghost use Rattle.extension_types.specs.BasicConstraints.{basic_constraints};

    ghost laws = { same_octets_equiv basic_constraints };
}
