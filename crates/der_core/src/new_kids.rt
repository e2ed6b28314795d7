//! The elements of a constructed element that is being written.

ghost use Rattle.std.specs.Prelude.{◌≡◌, [], ◌∷◌, ◌++◌, OnErr, OnOk};
ghost use Rattle.der_core.specs.DerElement.{Constructed, row};
ghost use Rattle.der_core.specs.Encoding.{IsWellFormed, AreWellFormed, IsTag, form_bit};
ghost use Rattle.der_core.specs.Facts.InBounds.{AreWellFormed-prop};

use crate::tree::{Tree, Trees};
use std::alloc::{AllocError, Global};

/// Well-formed elements in order, of a constructed element that is being written.
#[derive(Drop)]
pub struct NewKids {
    pub(crate) kids: Trees,
    ghost formed: { AreWellFormed (row kids) } by { AreWellFormed-prop (row kids) },
}

impl NewKids {
    /// No elements.
    pub fn new(alloc: Global) -> NewKids
        ensures { result.kids ≡ [] }
    {
        NewKids {
            kids: Trees::new(alloc),
        }
    }

    /// Appends an element.
    pub fn push(&mut self, kid: Tree) -> Result<(), AllocError>
        requires { IsWellFormed kid }
        ensures ok { OnOk result (self.new.kids ≡ self.old.kids ++ kid ∷ []) }
        ensures err { OnErr result (self.new.kids ≡ self.old.kids) }
    {
        self.kids.push(kid)
    }

    /// The constructed element of this tag that holds them.
    pub fn into_branch(self, tag: u8) -> Tree
        requires { IsTag tag × (form_bit tag ≡ 1) }
        ensures branch { result ≡ Constructed tag (row self.kids) }
        ensures formed { IsWellFormed result }
    {
        let NewKids { kids } = self;
        Tree::branch(tag, kids)
    }
}
