//! Timestamp requests.

ghost use Rattle.std.specs.Prelude.{◌≡◌, ◌↔◌, IsTrue};

use crate::content_info::EncapsulatedContentInfo;
use asn1_types::ObjectIdentifier;
use der_core::tag::SEQUENCE;
use der_core::{DerError, Elem, NewKids, Structure, Tree, two_kids};
use std::alloc::{AllocError, Global};

/// A timestamp request in the form of Authenticode (Windows Authenticode Portable Executable
/// Signature Format): the kind of the counter-signature, and the content to be signed. The kind
/// isn't checked.
#[derive(Debug, Drop)]
pub struct TimestampRequest {
    pub countersignature_type: ObjectIdentifier,
    pub content: EncapsulatedContentInfo,
}

impl Structure for TimestampRequest {
    ghost use Rattle.cms_content.specs.TimestampRequest.{timestamp_request};
    ghost use Rattle.cms_content.specs.Facts.TimestampRequests.{timestamp_requests};

    ghost written = { timestamp_request };

    ghost spells = { λ element request. element ≡ timestamp_request request };

    fn has_shape(elem: Elem<'_>) -> bool {
        match two_kids(elem, SEQUENCE) {
            Some((ty, content)) => {
                ObjectIdentifier::has_shape(ty) && EncapsulatedContentInfo::has_shape(content)
            }
            None => false,
        }
    }

    fn read_at(alloc: Global, elem: Elem<'_>) -> Result<TimestampRequest, DerError> {
        let Some((ty, content)) = two_kids(elem, SEQUENCE) else {
            return Err(DerError::Shape);
        };
        let countersignature_type = ObjectIdentifier::read_at(alloc, ty)?;
        let content = EncapsulatedContentInfo::read_at(alloc, content)?;
        Ok(TimestampRequest {
            countersignature_type,
            content,
        })
    }

    fn write(&self, alloc: Global) -> Result<Tree, DerError> {
        let mut kids = NewKids::new(alloc);
        kids.push(self.countersignature_type.write(alloc)?)?;
        kids.push(self.content.write(alloc)?)?;
        Ok(kids.into_branch(SEQUENCE))
    }

    fn try_clone(&self, alloc: Global) -> Result<TimestampRequest, AllocError> {
        Ok(TimestampRequest {
            countersignature_type: self.countersignature_type.try_clone(alloc)?,
            content: self.content.try_clone(alloc)?,
        })
    }

    ghost grammar = { timestamp_requests };
}

/// Requests are equal exactly where their encodings are.
impl PartialEq for TimestampRequest {
    ghost use Rattle.der_core.specs.Equality.{same_octets};
    ghost use Rattle.der_core.specs.Facts.Equality.{same_octets_per};
    ghost use Rattle.cms_content.specs.TimestampRequest.{timestamp_request};

    ghost eq = { same_octets timestamp_request };

    ghost laws = { same_octets_per timestamp_request };

    fn eq(&self, other: &TimestampRequest) -> bool
        ensures octets { result ≡ same_octets timestamp_request self.now other.now }
        ensures same { IsTrue result ↔ (self.now ≡ other.now) }
    {
        self.countersignature_type == other.countersignature_type && self.content == other.content
    }
}

impl Eq for TimestampRequest {
    ghost use Rattle.der_core.specs.Facts.Equality.{same_octets_equiv};
    ghost use Rattle.cms_content.specs.TimestampRequest.{timestamp_request};

    ghost laws = { same_octets_equiv timestamp_request };
}
