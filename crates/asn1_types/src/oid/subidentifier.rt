//! Subidentifiers, the parts of an OID's contents octets (X.690 8.19.2).

ghost use Rattle.std.specs.Prelude.{◌≡◌, List, ℕ, [], ◌∷◌, ◌++◌, IfOk, OnOk, MatchOption};
ghost use Rattle.std.specs.List.{flat_map};
ghost use Rattle.asn1_types.specs.Subidentifier.{IsSubidentifier, leading_octets, subidentifier, BeginsWithSubidentifier, BeginsWithNoSubidentifier};

use std::alloc::{AllocError, Global};

/// The greatest number of a subidentifier that another octet can follow.
const GREATEST_LEADING: u128 = u128::MAX >> 7;

/// The number of the subidentifier that the octets begin with, and the octets after it.
pub fn split_subidentifier(octets: &[u8]) -> Option<(u128, &[u8])>
    ensures { MatchOption result (BeginsWithNoSubidentifier octets.now)
        (λ split. IsSubidentifier split.0 × (octets.now ≡ subidentifier split.0 ++ split.1.now)) }
{
    let mut number: u128 = 0;
    let mut rest = octets;
    while let Some((octet, after)) = rest.split_first() {
        // Leading octets 80 would be zeros before the first digit.
        if number == 0 && *octet == 0x80 {
            return None;
        }
        if number > GREATEST_LEADING {
            return None;
        }
        number = number * 128 + u128::from(*octet % 128);
        if *octet < 128 {
            return Some((number, after));
        }
        rest = after;
    }
    None
}

/// The octets after the subidentifier that the octets begin with.
#[inline(always)]
pub fn after_subidentifier(octets: &[u8]) -> Option<&[u8]>
    ensures { MatchOption result (BeginsWithNoSubidentifier octets.now)
        (λ after. BeginsWithSubidentifier octets.now after.now) }
{
    match octets {
        // Most have one to three octets, and their number isn't needed.
        [last, after @ ..] if *last < 0x80 => Some(after),
        [first, last, after @ ..] if *first > 0x80 && *last < 0x80 => Some(after),
        [first, next, last, after @ ..] if *first > 0x80 && *next >= 0x80 && *last < 0x80 => {
            Some(after)
        }
        _ => {
            let (_, after) = split_subidentifier(octets)?;
            Some(after)
        }
    }
}

/// The subidentifiers of these numbers, one after another.
pub fn subidentifiers(alloc: Global, first: u128, more: &[u128]) -> Result<Vec<u8>, AllocError>
    ensures { IfOk result (λ octets. octets.items ≡ flat_map subidentifier (first ∷ more.now)) }
{
    let mut octets = Vec::new(alloc);
    put_subidentifier(&mut octets, first)?;
    for number in more {
        put_subidentifier(&mut octets, *number)?;
    }
    Ok(octets)
}

fn put_subidentifier(octets: &mut Vec<u8>, number: u128) -> Result<(), AllocError>
    ensures { OnOk result (octets.new.items ≡ octets.old.items ++ subidentifier number) }
{
    put_leading(octets, number / 128)?;
    octets.push((number % 128) as u8)?;
    Ok(())
}

/// Appends the octets before the last one of a subidentifier.
fn put_leading(octets: &mut Vec<u8>, number: u128) -> Result<(), AllocError>
    ensures { OnOk result (octets.new.items ≡ octets.old.items ++ leading_octets number) }
{
    if number > 0 {
        put_leading(octets, number / 128)?;
        octets.push(128 + (number % 128) as u8)?;
    }
    Ok(())
}
