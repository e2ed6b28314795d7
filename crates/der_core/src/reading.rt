//! Reading octets as trees.

ghost use Rattle.std.specs.Prelude.{◌≡◌, ℕ, Err, MatchResult, IfOk};
ghost use Rattle.der_core.specs.Encoding.{encoding, IsDer};
ghost use Rattle.der_core.specs.Fault.{IsFirstFault};
ghost use Rattle.der_core.specs.Reading.{IsFirst, IsExactFault, RefusesMalformed};
ghost use Rattle.der_core.specs.declared.fault.DerFault.{DerFault};
ghost use Rattle.der_core.specs.declared.error.DerError.TheVariants as errors;

use crate::elem::Elem;
use crate::error::DerError;
use crate::kids::Kids;
use crate::octets::Octets;
use crate::testing::{exact_elem, first_of};
use crate::tree::{Tree, Trees};
use std::alloc::{AllocError, Global};

/// The first element of the octets as a tree, and its length in octets. The octets may go on after
/// it.
pub fn read_first(alloc: Global, bytes: &[u8]) -> Result<(Tree, usize), DerError>
    // The tree is the element that the octets begin with. The error is out of memory, or the first
    // fault from left to right.
    ensures answer { MatchResult result (λ x. IsFirst bytes.now x.0 x.1)
        (RefusesMalformed (IsFirstFault bytes.now)) }
    // Octets with a fault are refused with it, even if memory runs out.
    ensures faulty { (at : ℕ) (fault : DerFault) → IsFirstFault bytes.now at fault
        → result ≡ Err (errors.Malformed (record { at = at; fault = fault })) }
{
    let elem = first_of(bytes)?;
    let tree = tree_of(alloc, elem)?;
    Ok((tree, elem.whole.len()))
}

/// The octets as a tree: all of them are one element.
pub fn read_exact(alloc: Global, bytes: &[u8]) -> Result<Tree, DerError>
    // The tree is the element whose encoding the octets are. The error is out of memory, the first
    // fault, or the first trailing octet.
    ensures answer { MatchResult result (λ t. IsDer t × (bytes.now ≡ encoding t))
        (RefusesMalformed (IsExactFault bytes.now)) }
    // Octets with a fault or trailing octets are refused with that, even if memory runs out.
    ensures faulty { (at : ℕ) (fault : DerFault) → IsExactFault bytes.now at fault
        → result ≡ Err (errors.Malformed (record { at = at; fault = fault })) }
{
    let elem = exact_elem(bytes)?;
    Ok(tree_of(alloc, elem)?)
}

/// An element as a tree.
#[cycle(building)]
pub(crate) fn tree_of(alloc: Global, elem: Elem<'_>) -> Result<Tree, AllocError>
    ensures { IfOk result (λ tree. tree ≡ elem.entry.is.0) }
{
    match Kids::within(elem) {
        Some(kids) => Ok(Tree::branch(elem.tag, trees_of(alloc, kids)?)),
        None => Ok(Tree::leaf(elem.tag, Octets::from_slice(alloc, elem.content)?)),
    }
}

/// Elements as trees.
#[cycle(building)]
fn trees_of(alloc: Global, mut kids: Kids<'_>) -> Result<Trees, AllocError>
    ensures { IfOk result (λ trees. trees ≡ kids.entry.are.0) }
{
    let mut trees = Trees::new(alloc);
    while let Some(kid) = kids.next() {
        trees.push(tree_of(alloc, kid)?)?;
    }
    Ok(trees)
}
