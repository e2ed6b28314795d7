//! The arcs of an OID, in its text and in its first subidentifier.

ghost use Rattle.std.specs.Prelude.{◌≡◌, ◌≢◌, ◌↔◌, List, ℕ, [], ◌∷◌, ◌+◌, ◌*◌, IsTrue, MatchOption, MatchResult};
ghost use Rattle.std.specs.Fmt.{decimal};
ghost use Rattle.std.specs.List.{AllByRecursion};
ghost use Rattle.asn1_types.specs.Subidentifier.{IsSubidentifier};
ghost use Rattle.asn1_types.specs.ObjectIdentifier.{IsRoot, dotted, IsDottedText, RefusesText};

use crate::TextError;
use std::alloc::Global;

/// Whether the text is that of an OID.
pub fn is_dotted(text: &str) -> bool
    ensures { IsTrue result ↔ IsDottedText text.now }
{
    let mut first = None;
    let mut second = None;
    for piece in text.split('.') {
        let Some(arc) = arc_of(piece) else {
            return false;
        };
        if first.is_none() {
            first = Some(arc);
        } else if second.is_none() {
            second = Some(arc);
        }
    }
    let (Some(first), Some(second)) = (first, second) else {
        return false;
    };
    root_of(first, second).is_some()
}

/// The numbers whose dotted text this is, `BadText` only if it isn't an OID's.
pub fn parse_arcs(alloc: Global, text: &str) -> Result<Vec<u128>, TextError>
    ensures { MatchResult result
        (λ arcs. AllByRecursion IsSubidentifier arcs.items × (text.now ≡ dotted arcs.items))
        (RefusesText (IsDottedText text.now)) }
{
    let mut arcs = Vec::new(alloc);
    for piece in text.split('.') {
        let Some(arc) = arc_of(piece) else {
            return Err(TextError::BadText);
        };
        arcs.push(arc)?;
    }
    Ok(arcs)
}

/// The number whose decimal digits are the text.
fn arc_of(text: &str) -> Option<u128>
    ensures { MatchOption result
        ((arc : ℕ) → IsSubidentifier arc → text.now ≢ decimal arc)
        (λ arc. IsSubidentifier arc × (text.now ≡ decimal arc)) }
{
    // `parse` also accepts a sign, and zeros before other digits.
    if text.len() > 1 && text.as_bytes()[0] < b'1' {
        return None;
    }
    text.parse().ok()
}

/// The number that the first two arcs make (X.690 8.19.4).
pub fn root_of(first: u128, second: u128) -> Option<u128>
    ensures { MatchOption result
        (IsRoot first second → ⊥)
        (λ root. IsRoot first second × (root ≡ 40 * first + second)) }
{
    if first > 2 || (first < 2 && second > 39) {
        return None;
    }
    (40 * first).checked_add(second)
}

/// The first two arcs, which make this number.
pub fn first_arcs(root: u128) -> (u128, u128)
    ensures { IsRoot result.0 result.1 × (root ≡ 40 * result.0 + result.1) }
{
    let first = (root / 40).min(2);
    (first, root - 40 * first)
}
