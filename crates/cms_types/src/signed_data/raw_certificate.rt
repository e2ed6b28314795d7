//! Elements among the certificates of signed data, by tag.

ghost use Rattle.std.specs.Prelude.{◌≡◌, ◌≢◌, IfOk};
ghost use Rattle.der_core.specs.DerElement.{tag_of};

use der_core::Raw;
use std::alloc::{AllocError, Global};

/// A SEQUENCE among the certificates, raw.
#[derive(Debug, Drop)]
pub struct RawCertificate {
    element: Raw,
    pub ghost tagged: { tag_of element.element ≡ 0x30 },
}

impl RawCertificate {
    /// Stores the raw element.
    pub(crate) fn keep(element: Raw) -> RawCertificate
        requires { tag_of element.element ≡ 0x30 }
        ensures { result.element ≡ element }
    {
        RawCertificate { element }
    }

    /// The element.
    pub fn element(&self) -> &Raw
        ensures { result.now ≡ self.now.element }
    {
        &self.element
    }

    /// A copy of the element.
    pub fn try_clone(&self, alloc: Global) -> Result<RawCertificate, AllocError>
        ensures { IfOk result (λ copy. copy ≡ self.now) }
    {
        Ok(RawCertificate {
            element: self.element.try_clone(alloc)?,
        })
    }
}

/// An element with another tag among the certificates, raw.
#[derive(Debug, Drop)]
pub struct OtherCertificate {
    element: Raw,
    pub ghost tagged: { tag_of element.element ≢ 0x30 },
}

impl OtherCertificate {
    /// Stores the raw element.
    pub(crate) fn keep(element: Raw) -> OtherCertificate
        requires { tag_of element.element ≢ 0x30 }
        ensures { result.element ≡ element }
    {
        OtherCertificate { element }
    }

    /// The element.
    pub fn element(&self) -> &Raw
        ensures { result.now ≡ self.now.element }
    {
        &self.element
    }

    /// A copy of the element.
    pub fn try_clone(&self, alloc: Global) -> Result<OtherCertificate, AllocError>
        ensures { IfOk result (λ copy. copy ≡ self.now) }
    {
        Ok(OtherCertificate {
            element: self.element.try_clone(alloc)?,
        })
    }
}
