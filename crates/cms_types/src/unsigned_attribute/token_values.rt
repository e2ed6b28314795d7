//! Raw signed data.

ghost use Rattle.std.specs.Prelude.{◌≡◌, ◌↔◌, [], IfOk, IsTrue, length};
ghost use Rattle.cms_types.specs.Members.{elements_of_kept};
ghost use Rattle.cms_types.specs.Signers.{ArePkcs7s};

use crate::unsigned_attribute::raw::{RawList, are_same_elements};
use der_core::Raw;
use std::alloc::{AllocError, Global};

/// Tokens, as the values of Microsoft's counter-signature: each is a raw element that encodes
/// signed data with its type.
#[derive(Debug, Drop)]
pub struct TokenValues {
    pub(crate) items: RawList,
    pub ghost all: { ∥ ArePkcs7s (elements_of_kept items) ∥₁ },
}

impl TokenValues {
    /// The members in order.
    pub fn as_slice(&self) -> &[Raw]
        ensures { result.now ≡ self.now.items }
    {
        self.items.as_slice()
    }

    /// How many members there are.
    pub fn len(&self) -> usize
        ensures { result ≡ length self.now.items }
    {
        self.items.len()
    }

    /// Whether there are none.
    pub fn is_empty(&self) -> bool
        ensures { IsTrue result ↔ (self.now.items ≡ []) }
    {
        self.items.is_empty()
    }

    /// A copy of the members.
    pub fn try_clone(&self, alloc: Global) -> Result<TokenValues, AllocError>
        ensures { IfOk result (λ copy. copy ≡ self.now) }
    {
        Ok(TokenValues {
            items: self.items.try_clone(alloc)?,
        })
    }

    /// Whether the members are the same.
    pub(crate) fn is_same(&self, other: &TokenValues) -> bool
        ensures { IsTrue result ↔ (self.now ≡ other.now) }
    {
        are_same_elements(&self.items, &other.items)
    }
}
