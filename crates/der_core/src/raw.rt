//! Elements owned as raw octets.

ghost use Rattle.std.specs.Prelude.{◌≡◌, ◌↔◌, ◌<◌, Err, IfOk, IsTrue, MatchResult};
ghost use Rattle.der_core.specs.DerElement.{tag_of};
ghost use Rattle.der_core.specs.Encoding.{encoding, nesting, IsWellFormed, IsDer, most_levels};
ghost use Rattle.der_core.specs.Equality.{same_octets};
ghost use Rattle.der_core.specs.Facts.Equality.{same_octets_per, same_octets_equiv};
ghost use Rattle.der_core.specs.Owned.{Kept, IsKept};
ghost use Rattle.der_core.specs.Facts.Owned.{Kept-prop};
ghost use Rattle.der_core.specs.Writing.{RefusesToWrite};
ghost use Rattle.der_core.specs.declared.error.DerError.TheVariants as errors;

use crate::elem::Elem;
use crate::error::DerError;
use crate::kids::Kids;
use crate::reading::tree_of;
use crate::structure::Structure;
use crate::tree::Tree;
use crate::writing::write;
use std::alloc::{AllocError, Global};
use std::marker::Model;

/// One element, owned as its raw octets. Contracts see the element, which is within limits.
#[derive(Debug, Drop)]
pub struct Raw {
    octets: Vec<u8>,
    ghost kept: { Kept octets.items } by { Kept-prop octets.items },
}

impl Model for Raw {
    ghost use Rattle.der_core.specs.Owned.{KeptElement};
    ghost use Rattle.der_core.specs.Facts.Owned.{coded_kept};

    ghost Value = { KeptElement };

    ghost coded = { coded_kept };

    ghost view = { λ r. record { element = r.kept.0; der = r.kept.1.0 } };
}

impl Raw {
    /// The encoding of the tree. The errors are those of `write`.
    pub fn from_tree(alloc: Global, tree: &Tree) -> Result<Raw, DerError>
        requires { IsWellFormed tree.now }
        ensures kept { MatchResult result (λ raw. IsDer tree.now × (raw.element ≡ tree.now))
            (RefusesToWrite tree.now) }
        // The depth is checked before memory is allocated.
        ensures deep { most_levels < nesting tree.now → result ≡ Err errors.TooDeep }
    {
        Ok(Raw::keep(write(alloc, tree)?))
    }

    /// A copy of the octets of a borrowed element.
    pub fn from_elem(alloc: Global, elem: Elem<'_>) -> Result<Raw, AllocError>
        ensures { IfOk result (λ raw. raw.element ≡ elem.entry.is.0) }
    {
        Ok(Raw::keep(Vec::from_slice(alloc, elem.whole)?))
    }

    /// The element, borrowed.
    pub fn elem(&self) -> Elem<'_>
        ensures { result.is.0 ≡ self.now.element }
    {
        let mut one = Kids { rest: &self.octets };
        match one.next() {
            Some(elem) => elem,
            None => unreachable!(),
        }
    }

    /// The element as a tree.
    pub fn tree(&self, alloc: Global) -> Result<Tree, AllocError>
        ensures { IfOk result (λ tree. tree ≡ self.now.element) }
    {
        tree_of(alloc, self.elem())
    }

    /// The octets of the element.
    pub fn as_bytes(&self) -> &[u8]
        ensures { result.now ≡ encoding self.now.element }
    {
        &self.octets
    }

    /// The identifier octet of the element.
    pub fn tag(&self) -> u8
        ensures { result ≡ tag_of self.now.element }
    {
        self.elem().tag
    }

    /// How many levels the element has.
    pub fn nesting(&self) -> u8
        ensures { result ≡ nesting self.now.element }
    {
        nesting_at(self.elem())
    }

    /// A copy of the value.
    pub fn try_clone(&self, alloc: Global) -> Result<Raw, AllocError>
        ensures { IfOk result (λ copy. copy ≡ self.now) }
    {
        Ok(Raw::keep(Vec::from_slice(alloc, &self.octets)?))
    }

    /// Takes octets that are the encoding of an element within limits.
    fn keep(octets: Vec<u8>) -> Raw
        requires { Kept octets.items }
        ensures { IsKept octets.items result.element }
    {
        Raw { octets }
    }
}

/// Any element, as its raw octets.
impl Structure for Raw {
    ghost use Rattle.der_core.specs.Facts.Owned.{same_kept};
    ghost use Rattle.der_core.specs.Facts.Grammars.{printed};

    ghost written = { λ raw. raw.element };

    ghost spells = { λ element raw. element ≡ raw.element };

    fn has_shape(_elem: Elem<'_>) -> bool {
        true
    }

    fn read_at(alloc: Global, elem: Elem<'_>) -> Result<Raw, DerError> {
        Ok(Raw::from_elem(alloc, elem)?)
    }

    fn write(&self, alloc: Global) -> Result<Tree, DerError> {
        Ok(self.tree(alloc)?)
    }

    fn try_clone(&self, alloc: Global) -> Result<Raw, AllocError> {
        Raw::try_clone(self, alloc)
    }

    ghost grammar = { printed (λ raw. raw.element) same_kept (λ raw. raw.der.formed) };
}

/// Elements are equal exactly if their octets are.
impl PartialEq for Raw {
    ghost eq = { same_octets (λ kept. kept.element) };

    ghost laws = { same_octets_per (λ kept. kept.element) };

    fn eq(&self, other: &Raw) -> bool
        ensures octets { result ≡ same_octets (λ kept. kept.element) self.now other.now }
        ensures same { IsTrue result ↔ (self.now ≡ other.now) }
    {
        self.as_bytes() == other.as_bytes()
    }
}

impl Eq for Raw {
    ghost laws = { same_octets_equiv (λ kept. kept.element) };
}

/// How many levels the element has, itself included.
fn nesting_at(elem: Elem<'_>) -> u8
    ensures { result ≡ nesting elem.entry.is.0 }
{
    let Some(mut kids) = Kids::within(elem) else {
        return 1;
    };
    let mut deepest = 0;
    while let Some(kid) = kids.next() {
        deepest = nesting_at(kid).max(deepest);
    }
    deepest + 1
}
