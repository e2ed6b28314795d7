//! Attributes of trust list entries.

ghost use Rattle.std.specs.Prelude.{◌≡◌, ◌≢◌, MatchOption};
ghost use Rattle.asn1_types.specs.Values.{identifier_contents};
ghost use Rattle.cms_content.specs.CtlKind.{named_ctl};
ghost use Rattle.cms_content.specs.CtlValues.{kind_of_ctl};
ghost use Rattle.cms_content.specs.Facts.CtlKinds.{same_ctl_kinds};

use crate::ctl_kind::CtlKind;
use crate::ctl_values::CTLEntryAttributeValues;
use asn1_types::ObjectIdentifier;
use der_core::tag::SEQUENCE;
use der_core::{DerError, Elem, NewKids, Structure, Tree, two_kids};
use std::alloc::{AllocError, Global};

/// An attribute of a trust list entry: its OID, and its values, which are of the kind that the OID
/// names (Microsoft, wincrypt.h). An attribute of a known kind whose values can't all be read as
/// such is refused as `Shape`.
#[derive(Debug, Drop)]
pub struct CTLEntryAttribute {
    pub oid: ObjectIdentifier,
    pub value: CTLEntryAttributeValues,
    pub ghost fits: { kind_of_ctl value ≡ named_ctl (identifier_contents oid) } by { same_ctl_kinds (kind_of_ctl value) (named_ctl (identifier_contents oid)) },
}

impl CTLEntryAttribute {
    /// The attribute with this OID and these values. None exactly where the OID names attributes of
    /// another kind.
    pub fn new(oid: ObjectIdentifier, value: CTLEntryAttributeValues) -> Option<CTLEntryAttribute>
        ensures { MatchOption result
            (kind_of_ctl value ≢ named_ctl (identifier_contents oid))
            (λ attribute. (attribute.oid ≡ oid) × (attribute.value ≡ value)) }
    {
        if value.kind() == CtlKind::named(oid.as_bytes()) {
            Some(CTLEntryAttribute { oid, value })
        } else {
            None
        }
    }
}

impl Structure for CTLEntryAttribute {
    ghost use Rattle.cms_content.specs.CtlAttribute.{ctl_attribute};
    ghost use Rattle.cms_content.specs.Facts.CtlAttributes.{ctl_attributes};

    ghost written = { ctl_attribute };

    ghost spells = { λ element attribute. element ≡ ctl_attribute attribute };

    fn has_shape(elem: Elem<'_>) -> bool {
        let Some((oid, values)) = two_kids(elem, SEQUENCE) else {
            return false;
        };
        match CtlKind::at(oid) {
            Some(kind) => CTLEntryAttributeValues::has_shape_of(kind, values),
            None => false,
        }
    }

    fn read_at(alloc: Global, elem: Elem<'_>) -> Result<CTLEntryAttribute, DerError> {
        let Some((oid, values)) = two_kids(elem, SEQUENCE) else {
            return Err(DerError::Shape);
        };
        let oid = ObjectIdentifier::read_at(alloc, oid)?;
        let kind = CtlKind::named(oid.as_bytes());
        let value = CTLEntryAttributeValues::read_of(alloc, kind, values)?;
        Ok(CTLEntryAttribute { oid, value })
    }

    fn write(&self, alloc: Global) -> Result<Tree, DerError> {
        let mut kids = NewKids::new(alloc);
        kids.push(self.oid.write(alloc)?)?;
        kids.push(self.value.write(alloc)?)?;
        Ok(kids.into_branch(SEQUENCE))
    }

    fn try_clone(&self, alloc: Global) -> Result<CTLEntryAttribute, AllocError> {
        Ok(CTLEntryAttribute {
            oid: self.oid.try_clone(alloc)?,
            value: self.value.try_clone(alloc)?,
        })
    }

    ghost grammar = { ctl_attributes };
}
