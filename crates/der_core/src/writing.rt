//! Writing a tree as its one encoding.
//!
//! A length comes before its contents, so an element is put down from its last octet to its first,
//! and the whole is reversed once.

ghost use Rattle.std.specs.Prelude.{◌≡◌, ◌≤◌, ◌<◌, ◌^◌, ◌++◌, ◌↔◌, ◌∷◌, [], length, reverse, IsTrue, IfOk, OnOk, MatchResult, All, Err};
ghost use Rattle.der_core.specs.DerElement.{DerElement, row};
ghost use Rattle.der_core.specs.Encoding.{IsWellFormed, IsDer, IsShort, nesting, deepest, encoding, encodings, AreShort, length_octets, most_levels};
ghost use Rattle.der_core.specs.Writing.{RefusesToWrite, RefusesLong};
ghost use Rattle.der_core.specs.declared.error.DerError.TheVariants as errors;

use crate::error::DerError;
use crate::tree::{Form, MAX_NESTING, Tree};
use std::alloc::{AllocError, Global};

/// Writes a tree in DER, each length in its shortest form (X.690 8.1, 10.1).
///
/// It fails with `TooDeep` for a tree of more than 64 levels, else with `TooLong` if some contents
/// have more than 4,294,967,295 octets.
pub fn write(alloc: Global, tree: &Tree) -> Result<Vec<u8>, DerError>
    requires { IsWellFormed tree.now }
    ensures written { MatchResult result
        (λ octets. IsDer tree.now × (octets.items ≡ encoding tree.now)) (RefusesToWrite tree.now) }
    // The depth is checked before memory is allocated.
    ensures deep { most_levels < nesting tree.now → result ≡ Err errors.TooDeep }
{
    if !is_nested_within(tree, MAX_NESTING) {
        return Err(DerError::TooDeep);
    }
    let mut backwards = Vec::new(alloc);

    put_element(&mut backwards, tree)?;
    backwards.reverse();
    Ok(backwards)
}

fn is_nested_within(tree: &Tree, levels: u8) -> bool
    ensures { IsTrue result ↔ (nesting tree.now ≤ levels) }
{
    if levels == 0 {
        return false;
    }
    let Some(kids) = tree.kids() else {
        return true;
    };
    for kid in kids {
        if !is_nested_within(kid, levels - 1) {
            return false;
        }
    }
    true
}

/// Puts an element, last octet first.
#[cycle(put)]
fn put_element(out: &mut Vec<u8>, tree: &Tree) -> Result<(), DerError>
    ensures { MatchResult result
        (λ _. IsShort tree.now × (out.new.items ≡ out.old.items ++ reverse (encoding tree.now)))
        (RefusesLong (IsShort tree.now)) }
{
    match &tree.form {
        Form::Primitive(tag, content) => {
            put_backwards(out, content.as_slice())?;
            put_header(out, *tag, content.as_slice().len())
        }
        Form::Constructed(tag, kids) => {
            let end = out.len();
            put_elements(out, kids)?;
            put_header(out, *tag, out.len() - end)
        }
    }
}

/// Puts elements, the last of them first.
#[cycle(put)]
fn put_elements(out: &mut Vec<u8>, kids: &[Tree]) -> Result<(), DerError>
    ensures { MatchResult result
        (λ _. AreShort (row kids.now)
        × (out.new.items ≡ out.old.items ++ reverse (encodings (row kids.now))))
        (RefusesLong (AreShort (row kids.now))) }
{
    for i in (0..kids.len()).rev() {
        put_element(out, &kids[i])?;
    }
    Ok(())
}

fn put_backwards(out: &mut Vec<u8>, octets: &[u8]) -> Result<(), AllocError>
    ensures { OnOk result (out.new.items ≡ out.old.items ++ reverse octets.now) }
{
    for i in (0..octets.len()).rev() {
        out.push(octets[i])?;
    }
    Ok(())
}

/// Puts the length of the contents, and the identifier octet before it.
fn put_header(out: &mut Vec<u8>, tag: u8, length: usize) -> Result<(), DerError>
    ensures { MatchResult result
        (λ _. (length < 2 ^ 32)
        × (out.new.items ≡ out.old.items ++ reverse (tag ∷ length_octets length)))
        (RefusesLong (length < 2 ^ 32)) }
{
    let Ok(length) = u32::try_from(length) else {
        return Err(DerError::TooLong);
    };
    put_length(out, length)?;
    out.push(tag)?;
    Ok(())
}

/// Puts the shortest definite form of a length (X.690 8.1.3, 10.1).
#[tactic(auto, unfolding(crate::specs::Encoding::length_octets))]
fn put_length(out: &mut Vec<u8>, length: u32) -> Result<(), AllocError>
    ensures { OnOk result (out.new.items ≡ out.old.items ++ reverse (length_octets length)) }
{
    let [a, b, c, d] = length.to_be_bytes();
    match length {
        0..=0x7F => out.extend_from_slice(&[d]),
        0x80..=0xFF => out.extend_from_slice(&[d, 0x81]),
        0x100..=0xFFFF => out.extend_from_slice(&[d, c, 0x82]),
        0x1_0000..=0xFF_FFFF => out.extend_from_slice(&[d, c, b, 0x83]),
        0x100_0000.. => out.extend_from_slice(&[d, c, b, a, 0x84]),
    }
}
