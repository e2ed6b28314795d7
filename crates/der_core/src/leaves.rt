//! Primitive elements.

ghost use Rattle.std.specs.Prelude.{◌≡◌, ◌≢◌, IfOk, List, ℕ, Bool, MatchOption};
ghost use Rattle.der_core.specs.DerElement.{Primitive};
ghost use Rattle.der_core.specs.Elements.{bit_octets};
ghost use Rattle.der_core.specs.Encoding.{IsWellFormed, IsTag, form_bit};
ghost use Rattle.der_core.specs.Default.{IsBoolean, boolean};

use crate::elem::Elem;
use crate::kids::Kids;
use crate::octets::{Octets, is_same};
use crate::tag::{BIT_STRING, BOOLEAN};
use crate::tree::Tree;
use std::alloc::{AllocError, Global};

/// The contents octets of a primitive element of this tag, `None` for any other element.
pub fn leaf_at<'a>(elem: Elem<'a>, tag: u8) -> Option<&'a [u8]>
    ensures { MatchOption result
        ((content : List ℕ) → elem.entry.is.0 ≢ Primitive tag content)
        (λ content. elem.entry.is.0 ≡ Primitive tag content.now) }
{
    if elem.tag != tag {
        return None;
    }
    match Kids::within(elem) {
        Some(_) => None,
        None => Some(elem.content),
    }
}

/// `Some` if the element is primitive and has this tag and these contents octets.
pub fn expect_leaf(elem: Elem<'_>, tag: u8, content: &[u8]) -> Option<()>
    ensures { MatchOption result
        (elem.entry.is.0 ≢ Primitive tag content.now)
        (λ _. elem.entry.is.0 ≡ Primitive tag content.now) }
{
    let found = leaf_at(elem, tag)?;
    if is_same(found, content) {
        Some(())
    } else {
        None
    }
}

/// The octets of a BIT STRING with no unused bits in its last octet (X.690 8.6.2.2), `None` for any
/// other element.
pub fn bit_octets_at<'a>(elem: Elem<'a>) -> Option<&'a [u8]>
    ensures { MatchOption result
        ((octets : List ℕ) → elem.entry.is.0 ≢ bit_octets octets)
        (λ octets. elem.entry.is.0 ≡ bit_octets octets.now) }
{
    match leaf_at(elem, BIT_STRING)? {
        [0, octets @ ..] => Some(octets),
        _ => None,
    }
}

/// The value of a BOOLEAN: one octet, zero for false, any other for true (X.690 8.2); `None` for
/// any other element.
#[inline(always)]
pub fn boolean_at(elem: Elem<'_>) -> Option<bool>
    ensures { MatchOption result
        ((b : Bool) → IsBoolean elem.entry.is.0 b → ⊥)
        (IsBoolean elem.entry.is.0) }
{
    let content = leaf_at(elem, BOOLEAN)?;
    match content {
        [octet] => Some(*octet != 0),
        _ => None,
    }
}

/// The primitive element with this tag and a copy of the contents octets.
pub fn leaf(alloc: Global, tag: u8, content: &[u8]) -> Result<Tree, AllocError>
    requires { IsTag tag × (form_bit tag ≡ 0) }
    ensures { IfOk result (λ tree. (tree ≡ Primitive tag content.now) × IsWellFormed tree) }
{
    Ok(Tree::leaf(tag, Octets::from_slice(alloc, content)?))
}

/// The BOOLEAN element of a flag: FF for TRUE (X.690 11.1).
pub fn write_boolean(alloc: Global, b: bool) -> Result<Tree, AllocError>
    ensures { IfOk result (λ tree. (tree ≡ boolean b) × IsWellFormed tree) }
{
    leaf(alloc, BOOLEAN, &[if b { 0xFF } else { 0x00 }])
}
