//! Required and OPTIONAL fields.

ghost use Rattle.std.specs.Prelude.{◌≡◌, ◌++◌, ◌∷◌, [], false, IsTrue, IfOk, OnOk, OnErr, MatchOption, MatchResult, Option};
ghost use Rattle.std.specs.Option.{option_map, option_copied};
ghost use Rattle.der_core.specs.Elements.{optional_explicit, optional_leaf};
ghost use Rattle.der_core.specs.Encoding.{IsTag, form_bit};
ghost use Rattle.der_core.specs.BorrowedOption.{at_option};
ghost use Rattle.der_core.specs.Optional.{SpellsOption, inner_option};
ghost use Rattle.der_core.specs.Borrowed.{AreDer};
ghost use Rattle.der_core.specs.Refusals.{RefusesShape, RefusesInner};
ghost use Rattle.der_core.specs.Structure.{Fits};

use crate::elem::Elem;
use crate::error::DerError;
use crate::leaves::leaf;
use crate::new_kids::NewKids;
use crate::octets::Octets;
use crate::structure::Structure;
use crate::tagging::explicit;
use std::alloc::{AllocError, Global};

/// Whether the element, if there is one, encodes a value.
pub fn has_option<T: Structure>(elem: Option<Elem<'_>>) -> bool
    ensures fits { IsTrue result → Fits (SpellsOption T.spells) (at_option elem.entry) }
    ensures unfit { result ≡ false → (value : Option T)
        → SpellsOption T.spells (at_option elem.entry) value → ⊥ }
{
    match elem {
        Some(elem) => T::has_shape(elem),
        None => true,
    }
}

/// `Some` if the element encodes a value.
pub fn expect<T: Structure>(elem: Elem<'_>) -> Option<()>
    ensures { MatchOption result
        ((value : T) → T.spells elem.entry.is.0 value → ⊥)
        (λ _. Fits T.spells elem.entry.is.0) }
{
    if T::has_shape(elem) { Some(()) } else { None }
}

/// `Some` if the element encodes a value or there is none.
pub fn expect_option<T: Structure>(elem: Option<Elem<'_>>) -> Option<()>
    ensures { MatchOption result
        ((value : Option T) → SpellsOption T.spells (at_option elem.entry) value → ⊥)
        (λ _. Fits (SpellsOption T.spells) (at_option elem.entry)) }
{
    if has_option::<T>(elem) {
        Some(())
    } else {
        None
    }
}

/// The value that the element encodes, if there is one. Fails with `Shape`, if it encodes none, or
/// `Memory`.
pub fn read_option<T: Structure>(
    alloc: Global,
    elem: Option<Elem<'_>>,
) -> Result<Option<T>, DerError>
    ensures { MatchResult result
        (SpellsOption T.spells (at_option elem.entry))
        (RefusesShape (SpellsOption T.spells (at_option elem.entry))) }
{
    match elem {
        Some(elem) => Ok(Some(T::read_at(alloc, elem)?)),
        None => Ok(None),
    }
}

/// A copy of the value, if there is one.
pub fn copy_option<T: Structure>(alloc: Global, value: &Option<T>) -> Result<Option<T>, AllocError>
    ensures { IfOk result (λ copy. copy ≡ value.now) }
{
    match value {
        Some(value) => Ok(Some(value.try_clone(alloc)?)),
        None => Ok(None),
    }
}

/// A copy of the octets, unless they are `None`.
pub fn copy_octets(alloc: Global, octets: Option<&[u8]>) -> Result<Option<Octets>, AllocError>
    ensures { IfOk result (λ copy. copy ≡ option_copied octets.entry) }
{
    match octets {
        Some(octets) => Ok(Some(Octets::from_slice(alloc, octets)?)),
        None => Ok(None),
    }
}

/// Appends the element of the value. Fails as `Structure::write` does; then nothing is appended.
pub fn push_value<T: Structure>(
    alloc: Global,
    kids: &mut NewKids,
    value: &T,
) -> Result<(), DerError>
    ensures answer { MatchResult result
        (λ _. (kids.new.kids ≡ kids.old.kids ++ T.written value.now ∷ [])
        × AreDer (T.inner value.now))
        (RefusesInner (T.inner value.now)) }
    ensures unchanged { OnErr result (kids.new.kids ≡ kids.old.kids) }
{
    Ok(kids.push(value.write(alloc)?)?)
}

/// Appends the element of the value under an explicit tag, unless the value is `None`. Fails as
/// `Structure::write` does; then nothing is appended.
pub fn push_explicit<T: Structure>(
    alloc: Global,
    kids: &mut NewKids,
    tag: u8,
    value: &Option<T>,
) -> Result<(), DerError>
    requires { IsTag tag × (form_bit tag ≡ 1) }
    ensures answer { MatchResult result
        (λ _. (kids.new.kids ≡ kids.old.kids
        ++ optional_explicit tag (option_map T.written value.now))
        × AreDer (inner_option T.inner value.now))
        (RefusesInner (inner_option T.inner value.now)) }
    ensures unchanged { OnErr result (kids.new.kids ≡ kids.old.kids) }
{
    if let Some(value) = value {
        kids.push(explicit(alloc, tag, value.write(alloc)?)?)?;
    }
    Ok(())
}

/// Appends a primitive element with these contents octets, unless they are `None`.
pub fn push_leaf(
    alloc: Global,
    kids: &mut NewKids,
    tag: u8,
    octets: &Option<Octets>,
) -> Result<(), AllocError>
    requires { IsTag tag × (form_bit tag ≡ 0) }
    ensures ok { OnOk result (kids.new.kids ≡ kids.old.kids ++ optional_leaf tag octets.now) }
    ensures err { OnErr result (kids.new.kids ≡ kids.old.kids) }
{
    if let Some(octets) = octets {
        kids.push(leaf(alloc, tag, octets.as_slice())?)?;
    }
    Ok(())
}
