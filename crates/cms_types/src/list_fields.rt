//! Optional fields with a value or several.

ghost use Rattle.std.specs.Prelude.{◌≡◌, ◌++◌, ◌∷◌, [], IfOk, MatchResult, flat_map, option_to_list};
ghost use Rattle.std.specs.Option.{option_map};
ghost use Rattle.der_core.specs.Each.{IsListOf, list_element};
ghost use Rattle.der_core.specs.Encoding.{IsTag, form_bit};
ghost use Rattle.der_core.specs.BorrowedOption.{at_option};
ghost use Rattle.der_core.specs.Borrowed.{AreDer};
ghost use Rattle.der_core.specs.Refusals.{RefusesShape, RefusesInner};
ghost use Rattle.der_core.specs.Optional.{SpellsOption};
ghost use Rattle.cms_types.specs.Optional.{inner_list};

use der_core::{DerError, Elem, ListOf, NewKids, Structure, copy_each, read_list, write_list};
use std::alloc::{AllocError, Global};

/// Reads the values in the element, if there is one.
pub(crate) fn read_list_option<T: Structure>(
    alloc: Global,
    elem: Option<Elem<'_>>,
    tag: u8,
) -> Result<Option<ListOf<T>>, DerError>
    ensures { MatchResult result
        (SpellsOption (IsListOf tag T.spells) (at_option elem.entry))
        (RefusesShape (SpellsOption (IsListOf tag T.spells) (at_option elem.entry))) }
{
    match elem {
        Some(elem) => Ok(Some(read_list(alloc, elem, tag)?)),
        None => Ok(None),
    }
}

/// Appends the element of the values.
pub(crate) fn push_values<T: Structure>(
    alloc: Global,
    kids: &mut NewKids,
    tag: u8,
    values: &ListOf<T>,
) -> Result<(), DerError>
    requires { IsTag tag × (form_bit tag ≡ 1) }
    ensures { MatchResult result
        (λ _. (kids.new.kids ≡ kids.old.kids ++ list_element tag T.written values.now ∷ [])
        × AreDer (flat_map T.inner values.now))
        (RefusesInner (flat_map T.inner values.now)) }
{
    Ok(kids.push(write_list(alloc, values, tag)?)?)
}

/// Appends the element of the values, unless they are absent.
pub(crate) fn push_list<T: Structure>(
    alloc: Global,
    kids: &mut NewKids,
    tag: u8,
    values: &Option<ListOf<T>>,
) -> Result<(), DerError>
    requires { IsTag tag × (form_bit tag ≡ 1) }
    ensures { MatchResult result
        (λ _. (kids.new.kids ≡ kids.old.kids
        ++ option_to_list (option_map (list_element tag T.written) values.now))
        × AreDer (inner_list T.inner values.now))
        (RefusesInner (inner_list T.inner values.now)) }
{
    match values {
        Some(values) => push_values(alloc, kids, tag, values),
        None => Ok(()),
    }
}

/// A copy of the values, if present.
pub(crate) fn copy_list<T: Structure>(
    alloc: Global,
    values: &Option<ListOf<T>>,
) -> Result<Option<ListOf<T>>, AllocError>
    ensures { IfOk result (λ copy. copy ≡ values.now) }
{
    match values {
        Some(values) => Ok(Some(copy_each(alloc, values)?)),
        None => Ok(None),
    }
}
