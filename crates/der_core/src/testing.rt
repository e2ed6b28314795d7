//! Testing octets for elements without copying or allocating.

ghost use Rattle.std.specs.Prelude.{◌≡◌, ◌+◌, ◌-◌, ◌^◌, ◌<◌, ◌++◌, length, IfSome, IsTrue, MatchOption, MatchResult};
ghost use Rattle.der_core.specs.DerElement.{DerElement};
ghost use Rattle.der_core.specs.Encoding.{encoding, IsDer, IsDerWithin, most_levels};
ghost use Rattle.der_core.specs.Fault.{IsFirstFault};
ghost use Rattle.der_core.specs.Owned.{IsKept};
ghost use Rattle.der_core.specs.Facts.InnerFault.{ElementFault, KidsFault};
ghost use Rattle.der_core.specs.Reading.{HasElementsWithin, IsFirst, IsExactFault, IsFaultFrom};

use crate::elem::Elem;
use crate::fault::{DerFault, Malformed};
use crate::header::{head_of, sound_head};
use crate::kids::Kids;
use crate::tree::MAX_NESTING;

/// The element that the octets begin with, or their first fault.
pub(crate) fn first_of(bytes: &[u8]) -> Result<Elem<'_>, Malformed>
    ensures { MatchResult result
        (λ elem. IsFirst bytes.now elem.is.0 (length elem.whole.now))
        (λ m. IsFirstFault bytes.now m.at m.fault) }
{
    first_from(bytes, 0)
}

/// The element that the octets, which are at offset `at`, begin with, or their first fault.
pub(crate) fn first_from(bytes: &[u8], at: usize) -> Result<Elem<'_>, Malformed>
    requires { at + length bytes.now < 2 ^ 64 }
    ensures { MatchResult result
        (λ elem. IsFirst bytes.now elem.is.0 (length elem.whole.now))
        (IsFaultFrom at (IsFirstFault bytes.now)) }
{
    let rest = after_first(bytes, at)?;
    let (whole, _) = bytes.split_at(bytes.len() - rest.len());
    let mut one = Kids { rest: whole };
    match one.next() {
        Some(elem) => Ok(elem),
        None => unreachable!(),
    }
}

/// The octets as one element; else their first fault, or the first trailing octet. It doesn't
/// allocate.
pub fn exact_elem(bytes: &[u8]) -> Result<Elem<'_>, Malformed>
    ensures { MatchResult result
        (λ elem. bytes.now ≡ encoding elem.is.0)
        (λ m. IsExactFault bytes.now m.at m.fault) }
{
    let elem = first_of(bytes)?;
    if elem.whole.len() < bytes.len() {
        return Err(Malformed {
            at: elem.whole.len(),
            fault: DerFault::Trailing,
        });
    }
    Ok(elem)
}

/// The octets as one element, else `None`. `exact_elem` says what is wrong.
pub fn whole_element(octets: &[u8]) -> Option<Elem<'_>>
    ensures { MatchOption result
        ((element : DerElement) → IsKept octets.now element → ⊥)
        (λ elem. IsKept octets.now elem.is.0) }
{
    match exact_elem(octets) {
        Ok(elem) => Some(elem),
        Err(_) => None,
    }
}

/// The octets after the first element, or the first fault. The octets are at offset `at`.
fn after_first(bytes: &[u8], at: usize) -> Result<&[u8], Malformed>
    requires { at + length bytes.now < 2 ^ 64 }
    ensures { MatchResult result
        (λ rest. (t : DerElement) × IsDer t × (bytes.now ≡ encoding t ++ rest.now))
        (IsFaultFrom at (ElementFault most_levels bytes.now)) }
{
    match after_sound(bytes) {
        Some(rest) => Ok(rest),
        None => after_element(bytes, at, MAX_NESTING),
    }
}

/// The octets after the first element, `None` if there is none. It tracks no offset for a fault,
/// which makes it quicker.
fn after_sound(bytes: &[u8]) -> Option<&[u8]>
    ensures { IfSome result
        (λ rest. (t : DerElement) × IsDer t × (bytes.now ≡ encoding t ++ rest.now)) }
{
    let (head, is_constructed) = sound_head(bytes)?;
    if !is_constructed {
        return Some(head.rest);
    }
    if are_elements(head.contents) {
        Some(head.rest)
    } else {
        None
    }
}

/// How many elements may be nested between the outermost and the innermost: with these two there
/// are `MAX_NESTING` levels.
const MOST_OUTER: usize = 62;

/// Whether the octets are elements of at most 63 levels, as those in the outermost element must be.
/// A constructed element nested in too many others gives false even if it is empty: after false the
/// octets are tested again for their first fault.
fn are_elements(octets: &[u8]) -> bool
    ensures { IsTrue result → HasElementsWithin (most_levels - 1) octets.now }
{
    // How many octets follow each enclosing element within its parent.
    let mut after = [0; MOST_OUTER];
    let mut outer = 0;
    let mut rest = octets;
    let mut left = octets.len();
    loop {
        if left == 0 {
            if outer == 0 {
                return true;
            }
            outer -= 1;
            left = after[outer];
            continue;
        }
        let (current, _) = rest.split_at(left);
        let Some((head, is_constructed)) = sound_head(current) else {
            return false;
        };
        let (_, inner) = rest.split_at(left - (head.contents.len() + head.rest.len()));
        left = head.rest.len();
        if !is_constructed {
            let (_, behind) = inner.split_at(head.contents.len());
            rest = behind;
        } else if outer < MOST_OUTER {
            after[outer] = left;
            outer += 1;
            left = head.contents.len();
            rest = inner;
        } else {
            return false;
        }
    }
}

/// The octets after the first element, which has at most `levels` levels, or the first fault.
#[cycle(testing)]
fn after_element(octets: &[u8], at: usize, levels: u8) -> Result<&[u8], Malformed>
    requires { at + length octets.now < 2 ^ 64 }
    ensures { MatchResult result
        (λ rest. (t : DerElement) × IsDerWithin levels t × (octets.now ≡ encoding t ++ rest.now))
        (IsFaultFrom at (ElementFault levels octets.now)) }
{
    let head = head_of(octets, at, levels)?;
    if head.is_constructed() {
        let inner = at + (octets.len() - head.rest.len() - head.contents.len());
        test_elements(head.contents, inner, levels - 1)?;
        Ok(head.rest)
    } else {
        Ok(head.rest)
    }
}

/// Tests that the octets, which are at offset `at`, are elements of at most `levels` levels each.
#[cycle(testing)]
fn test_elements(octets: &[u8], at: usize, levels: u8) -> Result<(), Malformed>
    requires { at + length octets.now < 2 ^ 64 }
    ensures { MatchResult result
        (λ _. HasElementsWithin levels octets.now)
        (IsFaultFrom at (KidsFault levels octets.now)) }
{
    let mut rest = octets;
    while !rest.is_empty() {
        let after = after_element(rest, at + (octets.len() - rest.len()), levels)?;
        rest = after;
    }
    Ok(())
}
