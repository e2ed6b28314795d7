//! Parts of borrowed extension values.

ghost use Rattle.std.specs.Prelude.{List, ℕ, Bool, MatchOption};
ghost use Rattle.der_core.specs.Default.{IsBoolean};
ghost use Rattle.x509_types.specs.ExtensionParts.{HasFirstElement, EndsWithLength, IsAuthorityKeyIdentifier};

use der_core::tag::SEQUENCE;
use der_core::{Elem, Kids, boolean_at, leaf_at};
use extension_types::small_integer_at;

/// The tag of the keyIdentifier in an AuthorityKeyIdentifier.
const KEY_IDENTIFIER: u8 = 0x80;

/// The cA flag of basic constraints, if it is present.
pub(crate) fn flag_at(elem: Elem<'_>) -> Option<bool>
    ensures { MatchOption result
        ((b : Bool) → HasFirstElement IsBoolean elem.entry.is.0 b → ⊥)
        (λ b. HasFirstElement IsBoolean elem.entry.is.0 b) }
{
    let mut kids = Kids::of(elem, SEQUENCE)?;
    let first = kids.next()?;
    boolean_at(first)
}

/// The path length of basic constraints, if it is present.
pub(crate) fn length_at(elem: Elem<'_>) -> Option<u8>
    ensures { MatchOption result
        ((number : ℕ) → EndsWithLength elem.entry.is.0 number → ⊥)
        (λ number. EndsWithLength elem.entry.is.0 number) }
{
    let mut kids = Kids::of(elem, SEQUENCE)?;
    let _ca = kids.next_default_false()?;
    let last = kids.next()?;
    kids.end()?;
    small_integer_at(last)
}

/// The keyIdentifier of an AuthorityKeyIdentifier, if it is present.
pub(crate) fn key_identifier_at<'a>(elem: Elem<'a>) -> Option<&'a [u8]>
    ensures { MatchOption result
        ((key : List ℕ) → HasFirstElement IsAuthorityKeyIdentifier elem.entry.is.0 key → ⊥)
        (λ key. HasFirstElement IsAuthorityKeyIdentifier elem.entry.is.0 key.now) }
{
    let mut kids = Kids::of(elem, SEQUENCE)?;
    let first = kids.next()?;
    leaf_at(first, KEY_IDENTIFIER)
}
