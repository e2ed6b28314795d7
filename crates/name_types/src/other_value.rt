//! Values that aren't a string of a known type.

ghost use Rattle.name_types.specs.OtherValue.{IsOtherValue};
ghost use Rattle.std.specs.Prelude.{◌≡◌, IfOk, ◌↔◌, IsTrue, MatchOption};

use crate::directory_string::DirectoryString;
use asn1_types::Ia5String;
use der_core::{Elem, Raw, Structure};
use std::alloc::{AllocError, Global};

/// A raw element that is neither a DirectoryString nor an IA5String.
#[derive(Debug, Drop)]
pub struct OtherValue {
    element: Raw,
    pub ghost other: { IsOtherValue element.element },
}

impl OtherValue {
    /// The element as a value, `None` if it is a DirectoryString or an IA5String (RFC 5280
    /// 4.1.2.4).
    pub fn new(element: Raw) -> Option<OtherValue>
        ensures { MatchOption result
            (IsOtherValue element.element → ⊥)
            (λ value. value.element ≡ element) }
    {
        if DirectoryString::has_shape(element.elem()) {
            return None;
        }
        if Ia5String::has_shape(element.elem()) {
            return None;
        }
        Some(OtherValue { element })
    }

    /// A copy of the borrowed element.
    pub(crate) fn keep(alloc: Global, elem: Elem<'_>) -> Result<OtherValue, AllocError>
        requires { IsOtherValue elem.is.0 }
        ensures { IfOk result (λ value. value.element.element ≡ elem.entry.is.0) }
    {
        Ok(OtherValue {
            element: Raw::from_elem(alloc, elem)?,
        })
    }

    /// The element.
    pub fn element(&self) -> &Raw
        ensures { result.now ≡ self.now.element }
    {
        &self.element
    }

    /// A copy of the value.
    pub fn try_clone(&self, alloc: Global) -> Result<OtherValue, AllocError>
        ensures { IfOk result (λ copy. copy ≡ self.now) }
    {
        Ok(OtherValue {
            element: self.element.try_clone(alloc)?,
        })
    }
}

/// Values are equal exactly if their encodings are.
impl PartialEq for OtherValue {
    ghost use Rattle.der_core.specs.Equality.{same_octets};
    ghost use Rattle.der_core.specs.Facts.Equality.{same_octets_per};

    ghost eq = { same_octets (λ value. value.element.element) };

    ghost laws = { same_octets_per (λ value. value.element.element) };

    fn eq(&self, other: &OtherValue) -> bool
        ensures octets { result ≡ same_octets (λ value. value.element.element) self.now other.now }
        ensures same { IsTrue result ↔ (self.now ≡ other.now) }
    {
        self.element == other.element
    }
}

impl Eq for OtherValue {
    ghost use Rattle.der_core.specs.Facts.Equality.{same_octets_equiv};

    ghost laws = { same_octets_equiv (λ value. value.element.element) };
}
