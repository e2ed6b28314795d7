//! Identifier and length, before any contents are copied.

ghost use Rattle.std.specs.Prelude.{◌≡◌, ◌<◌, ◌≤◌, ◌↔◌, ℕ, length, Ok, Err, IsTrue, IfSome, MatchResult};
ghost use Rattle.der_core.specs.Encoding.{form_bit, IsTag, most_levels};
ghost use Rattle.der_core.specs.Head.{past_bound, number_from, long_length_at, length_at, contents_at, head_at, BeginsWithHead, BeginsWithLength, HasHead};
ghost use Rattle.der_core.specs.declared.fault.DerFault.TheVariants.{Truncated};

use crate::fault::{DerFault, Malformed};
use crate::tree::MAX_NESTING;

/// An element as its head describes it, and the octets after it.
#[derive(Clone, Copy)]
pub struct Head<'a> {
    pub tag: u8,
    pub contents: &'a [u8],
    pub rest: &'a [u8],
}

impl Head<'_> {
    /// Whether the contents are elements (X.690 8.1.2.5).
    pub fn is_constructed(&self) -> bool
        ensures { IsTrue result ↔ (form_bit self.now.tag ≡ 1) }
    {
        is_constructed(self.tag)
    }
}

/// Whether an element of this tag is constructed (X.690 8.1.2.5).
pub fn is_constructed(tag: u8) -> bool
    ensures { IsTrue result ↔ (form_bit tag ≡ 1) }
{
    tag >> 5 & 1 == 1
}

/// The head of the element that the octets, which are at offset `at`, begin with, or the first of
/// its tests that fails. The element must end within `octets`.
pub fn head_of(octets: &[u8], at: usize, levels: u8) -> Result<Head<'_>, Malformed>
    ensures { MatchResult result
        (λ head. (head_at levels octets.now ≡ Ok (head.tag, head.contents.now, head.rest.now))
        × HasHead levels octets.now head.tag head.contents.now head.rest.now)
        (λ m. (m.at ≡ at) × (head_at levels octets.now ≡ Err m.fault)) }
{
    match tested_head(octets, levels) {
        Ok(head) => Ok(head),
        Err(fault) => Err(Malformed { at, fault }),
    }
}

/// The head that the octets begin with, all levels being left, and whether the element is
/// constructed; `None` if a test fails. `head_of` says which one: here the tag is tested last. The
/// element must end within `octets`.
#[inline(always)]
pub fn sound_head(octets: &[u8]) -> Option<(Head<'_>, bool)>
    ensures { IfSome result
        (λ h. HasHead most_levels octets.now h.0.tag h.0.contents.now h.0.rest.now
        × (IsTrue h.1 ↔ (form_bit h.0.tag ≡ 1))) }
{
    let (tag, after) = octets.split_first()?;
    let (contents, rest) = sound_contents(after)?;
    let is_constructed = sound_form(*tag)?;
    let head = Head {
        tag: *tag,
        contents,
        rest,
    };
    Some((head, is_constructed))
}

/// Whether an element of this tag is constructed (X.690 8.1.2.5); `None` for 00 and for tags in the
/// high form. One test covers most tags: those of primitive elements of the universal class.
#[inline(always)]
fn sound_form(tag: u8) -> Option<bool>
    ensures { IfSome result (λ constructed. IsTag tag × (IsTrue constructed ↔ (form_bit tag ≡ 1))) }
{
    // Tags 01 to 1E.
    if tag.wrapping_sub(1) < 0x1E {
        return Some(false);
    }
    // Tags with bit 6 and a number below 31.
    if (tag & 0x3F).wrapping_sub(0x20) < 0x1F {
        return Some(true);
    }
    if tag == 0 || tag & 0x1F == 0x1F {
        return None;
    }
    Some(false)
}

/// The head of the element that the octets are known to begin with: nothing is tested again.
#[inline(always)]
pub fn known_head(octets: &[u8]) -> Head<'_>
    requires { BeginsWithHead octets.now }
    ensures { (head_at most_levels octets.now
        ≡ Ok (result.tag, result.contents.now, result.rest.now))
        × HasHead most_levels octets.now result.tag result.contents.now result.rest.now }
{
    let Some((tag, after)) = octets.split_first() else {
        unreachable!();
    };
    let (length, after) = known_length(after);
    let (contents, rest) = after.split_at(length);
    Head {
        tag: *tag,
        contents,
        rest,
    }
}

/// The length that octets are known to begin with, and the octets after it (X.690 8.1.3).
#[tactic(auto, unfolding(crate::specs::Head::length_at))]
#[inline(always)]
fn known_length(octets: &[u8]) -> (usize, &[u8])
    requires { BeginsWithLength octets.now }
    ensures { length_at Truncated octets.now ≡ Ok (result.0, result.1.now) }
{
    let Some((first, rest)) = octets.split_first() else {
        unreachable!();
    };
    if *first < 0x80 {
        return (usize::from(*first), rest);
    }
    let (digits, rest) = rest.split_at(usize::from(*first) - 0x80);
    (long_length(digits), rest)
}

/// The length in the subsequent octets of the long form (X.690 8.1.3.5), most often one or two.
#[inline(always)]
fn long_length(digits: &[u8]) -> usize
    requires { length digits.now ≤ 4 }
    ensures { result ≡ number_from 0 digits.now }
{
    match digits {
        [digit] => usize::from(*digit),
        [high, low] => usize::from(*high) * 256 + usize::from(*low),
        _ => rare_length(digits),
    }
}

/// The same for any few octets, out of line.
#[cold]
#[inline(never)]
fn rare_length(digits: &[u8]) -> usize
    requires { length digits.now ≤ 4 }
    ensures { result ≡ number_from 0 digits.now }
{
    number_of(digits)
}

#[tactic(auto, unfolding(crate::specs::Head::head_at))]
#[inline(always)]
fn tested_head(octets: &[u8], levels: u8) -> Result<Head<'_>, DerFault>
    ensures { MatchResult result
        (λ head. head_at levels octets.now ≡ Ok (head.tag, head.contents.now, head.rest.now))
        (λ fault. head_at levels octets.now ≡ Err fault) }
{
    let past = past_bound_of(levels);
    let Some((tag, octets)) = octets.split_first() else {
        return Err(past);
    };
    let tag = *tag;
    if tag == 0 {
        return Err(DerFault::ReservedTag);
    }
    if tag & 0x1F == 0x1F {
        return Err(DerFault::HighTag);
    }
    if levels == 0 {
        return Err(DerFault::TooDeep);
    }
    let (contents, rest) = contents_within(octets, past)?;
    Ok(Head {
        tag,
        contents,
        rest,
    })
}

/// The fault of octets that run past the bound.
#[inline(always)]
fn past_bound_of(levels: u8) -> DerFault
    ensures { result ≡ past_bound levels }
{
    if levels == MAX_NESTING {
        DerFault::Truncated
    } else {
        DerFault::Overrun
    }
}

/// The contents of the length that the octets begin with, and the octets after them.
#[tactic(auto, unfolding(crate::specs::Head::contents_at))]
#[inline(always)]
fn contents_within(octets: &[u8], past: DerFault) -> Result<(&[u8], &[u8]), DerFault>
    ensures { MatchResult result
        (λ c. contents_at past octets.now ≡ Ok (c.0.now, c.1.now))
        (λ fault. contents_at past octets.now ≡ Err fault) }
{
    let (length, octets) = length_of(octets, past)?;
    if octets.len() < length {
        return Err(past);
    }
    Ok(octets.split_at(length))
}

/// The contents and the octets after them, `None` if a test fails.
#[tactic(auto, unfolding(crate::specs::Head::contents_at))]
#[inline(always)]
fn sound_contents(octets: &[u8]) -> Option<(&[u8], &[u8])>
    ensures { IfSome result (λ c. contents_at Truncated octets.now ≡ Ok (c.0.now, c.1.now)) }
{
    let (length, octets) = sound_length(octets)?;
    if octets.len() < length {
        return None;
    }
    Some(octets.split_at(length))
}

/// The length that the octets begin with, and the octets after it; `None` if a test fails. Most
/// lengths have one octet, three or two, which are tried in this order.
#[tactic(auto, unfolding(crate::specs::Head::length_at))]
#[inline(always)]
fn sound_length(octets: &[u8]) -> Option<(usize, &[u8])>
    ensures { IfSome result (λ n. length_at Truncated octets.now ≡ Ok (n.0, n.1.now)) }
{
    let (first, rest) = octets.split_first()?;
    if *first < 0x80 {
        return Some((usize::from(*first), rest));
    }
    if *first == 0x82 {
        return long_length_of(rest, DerFault::Truncated, 2, 0x100).ok();
    }
    if *first == 0x81 {
        return long_length_of(rest, DerFault::Truncated, 1, 0x80).ok();
    }
    length_of(octets, DerFault::Truncated).ok()
}

/// The length that the octets begin with, and the octets after it (X.690 8.1.3).
#[tactic(auto, unfolding(crate::specs::Head::length_at))]
#[inline(always)]
fn length_of(octets: &[u8], past: DerFault) -> Result<(usize, &[u8]), DerFault>
    ensures { MatchResult result
        (λ n. length_at past octets.now ≡ Ok (n.0, n.1.now))
        (λ fault. length_at past octets.now ≡ Err fault) }
{
    let Some((first, octets)) = octets.split_first() else {
        return Err(past);
    };
    if *first < 0x80 {
        return Ok((usize::from(*first), octets));
    }
    match *first {
        0x80 => Err(DerFault::Indefinite),
        0x81 => long_length_of(octets, past, 1, 0x80),
        0x82 => long_length_of(octets, past, 2, 0x100),
        0x83 => long_length_of(octets, past, 3, 0x1_0000),
        0x84 => long_length_of(octets, past, 4, 0x100_0000),
        _ => Err(DerFault::WideLength),
    }
}

/// A length in `count` octets, which must be at least the least number that needs so many (X.690
/// 10.1).
#[tactic(auto, unfolding(crate::specs::Head::long_length_at))]
#[inline(always)]
fn long_length_of(
    octets: &[u8],
    past: DerFault,
    count: usize,
    least: usize,
) -> Result<(usize, &[u8]), DerFault>
    requires { count ≤ 4 }
    ensures { MatchResult result
        (λ n. long_length_at count least past octets.now ≡ Ok (n.0, n.1.now))
        (λ fault. long_length_at count least past octets.now ≡ Err fault) }
{
    if octets.len() < count {
        return Err(past);
    }
    let (digits, rest) = octets.split_at(count);
    let length = number_of(digits);
    if length < least {
        return Err(DerFault::NotShortest);
    }
    Ok((length, rest))
}

/// The number that a few octets encode, the most significant first.
#[inline(always)]
fn number_of(digits: &[u8]) -> usize
    requires { length digits.now ≤ 4 }
    ensures { result ≡ number_from 0 digits.now }
{
    let mut number = 0;
    for digit in digits {
        number = number * 256 + usize::from(*digit);
    }
    number
}
