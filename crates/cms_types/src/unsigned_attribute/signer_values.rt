//! Raw signers.

ghost use Rattle.std.specs.Prelude.{◌≡◌, ◌↔◌, [], IfOk, IsTrue, length};
ghost use Rattle.cms_types.specs.Members.{elements_of_kept};
ghost use Rattle.cms_types.specs.Signers.{AreSignerInfos};

use crate::unsigned_attribute::raw::{RawList, are_same_elements};
use der_core::Raw;
use std::alloc::{AllocError, Global};

/// Signers, as the values of a counter-signature (RFC 5652 11.4): each is a raw element that
/// encodes a signer.
#[derive(Debug, Drop)]
pub struct SignerValues {
    pub(crate) items: RawList,
    pub ghost all: { ∥ AreSignerInfos (elements_of_kept items) ∥₁ },
}

impl SignerValues {
    /// The members in order.
    pub fn as_slice(&self) -> &[Raw]
        ensures { result.now ≡ self.now.items }
    {
        self.items.as_slice()
    }

    /// How many members there are.
    pub fn len(&self) -> usize
        ensures { result ≡ length self.now.items }
    {
        self.items.len()
    }

    /// Whether there are none.
    pub fn is_empty(&self) -> bool
        ensures { IsTrue result ↔ (self.now.items ≡ []) }
    {
        self.items.is_empty()
    }

    /// A copy of the members.
    pub fn try_clone(&self, alloc: Global) -> Result<SignerValues, AllocError>
        ensures { IfOk result (λ copy. copy ≡ self.now) }
    {
        Ok(SignerValues {
            items: self.items.try_clone(alloc)?,
        })
    }

    /// Whether the members are the same.
    pub(crate) fn is_same(&self, other: &SignerValues) -> bool
        ensures { IsTrue result ↔ (self.now ≡ other.now) }
    {
        are_same_elements(&self.items, &other.items)
    }
}
