//! Structures that are read from elements, copied, compared and written again.

use der_core::{DerError, Structure, read_exact};
use std::alloc::Global;

/// The value that an element encodes.
pub fn value_of<T: Structure>(alloc: Global, element: &[u8]) -> Result<T, DerError> {
    T::read(alloc, &read_exact(alloc, element)?)
}

/// Whether a value and its copy are written as the element, and are equal.
pub fn comes_back<T: Structure + PartialEq>(
    alloc: Global,
    element: &[u8],
    value: &T,
) -> Result<bool, DerError> {
    Ok(is_written_as(alloc, value, element)? && copy_comes_back(alloc, element, value)?)
}

/// Whether a copy of a value is written as the element, and is equal.
fn copy_comes_back<T: Structure + PartialEq>(
    alloc: Global,
    element: &[u8],
    value: &T,
) -> Result<bool, DerError> {
    let copy = value.try_clone(alloc)?;
    Ok(copy == *value && is_written_as(alloc, &copy, element)?)
}

/// Whether a value is written as the element.
fn is_written_as<T: Structure>(alloc: Global, value: &T, element: &[u8]) -> Result<bool, DerError> {
    let octets = value.to_der(alloc)?;
    Ok(octets.as_slice() == element)
}

/// Whether a value is this one. It is dropped here, for all types at once.
pub fn equals<T: PartialEq + Drop>(given: T, value: &T) -> bool {
    given == *value
}

/// Whether a call returned this value. The result is dropped here.
pub fn gives<T: PartialEq + Drop, E: Drop>(given: Result<T, E>, value: &T) -> bool {
    match given {
        Ok(given) => given == *value,
        Err(_) => false,
    }
}

/// Whether a call returned these octets.
pub fn gives_octets<E: Drop>(given: Result<Vec<u8>, E>, octets: &[u8]) -> bool {
    match given {
        Ok(given) => given.as_slice() == octets,
        Err(_) => false,
    }
}

/// Whether the values of two elements are equal, compared both ways.
pub fn are_equal<T: Structure + PartialEq>(
    alloc: Global,
    one: &[u8],
    other: &[u8],
) -> Result<bool, DerError> {
    let one = value_of::<T>(alloc, one)?;
    let other = value_of::<T>(alloc, other)?;
    Ok(one == other || other == one)
}
