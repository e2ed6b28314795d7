//! Elements under explicit tags (X.690 8.14.2).

ghost use Rattle.std.specs.Prelude.{◌≡◌, ◌≢◌, IfOk, MatchOption};
ghost use Rattle.der_core.specs.DerElement.{DerElement};
ghost use Rattle.der_core.specs.Elements.{explicit};
ghost use Rattle.der_core.specs.Encoding.{IsWellFormed, IsTag, form_bit};

use crate::elem::Elem;
use crate::kids::Kids;
use crate::new_kids::NewKids;
use crate::tree::Tree;
use std::alloc::{AllocError, Global};

/// The one element in a constructed element of this tag, `None` for any other element.
pub fn explicit_at<'a>(elem: Elem<'a>, tag: u8) -> Option<Elem<'a>>
    ensures { MatchOption result
        ((kid : DerElement) → elem.entry.is.0 ≢ explicit tag kid)
        (λ kid. elem.entry.is.0 ≡ explicit tag kid.is.0) }
{
    let mut kids = Kids::of(elem, tag)?;
    let kid = kids.next()?;
    kids.end()?;
    Some(kid)
}

/// The constructed element of this tag that holds one element.
pub fn explicit(alloc: Global, tag: u8, kid: Tree) -> Result<Tree, AllocError>
    requires { IsTag tag × (form_bit tag ≡ 1) × IsWellFormed kid }
    ensures { IfOk result (λ tree. (tree ≡ explicit tag kid) × IsWellFormed tree) }
{
    let mut kids = NewKids::new(alloc);
    kids.push(kid)?;
    Ok(kids.into_branch(tag))
}
