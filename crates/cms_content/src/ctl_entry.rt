//! Entries of trust lists.

ghost use Rattle.std.specs.Prelude.{◌≡◌};

use crate::ctl_attribute::CTLEntryAttribute;
use der_core::tag::{SEQUENCE, SET};
use der_core::{
    DerError, Elem, ListOf, NewKids, Octets, Structure, Tree, copy_each, has_list, read_list,
    two_kids, write_list,
};
use std::alloc::{AllocError, Global};

/// An entry of a trust list: what identifies the subject, and its attributes (Microsoft,
/// wincrypt.h).
#[derive(Debug, Drop)]
pub struct CTLEntry {
    pub subject_identifier: Octets,
    pub attributes: ListOf<CTLEntryAttribute>,
}

impl Structure for CTLEntry {
    ghost use Rattle.cms_content.specs.CtlEntry.{ctl_entry};
    ghost use Rattle.cms_content.specs.Facts.CtlEntries.{ctl_entries};

    ghost written = { ctl_entry };

    ghost spells = { λ element entry. element ≡ ctl_entry entry };

    fn has_shape(elem: Elem<'_>) -> bool {
        match two_kids(elem, SEQUENCE) {
            Some((subject, attributes)) => {
                Octets::has_shape(subject) && has_list::<CTLEntryAttribute>(attributes, SET)
            }
            None => false,
        }
    }

    fn read_at(alloc: Global, elem: Elem<'_>) -> Result<CTLEntry, DerError> {
        let Some((subject, attributes)) = two_kids(elem, SEQUENCE) else {
            return Err(DerError::Shape);
        };
        let subject_identifier = Octets::read_at(alloc, subject)?;
        let attributes = read_list(alloc, attributes, SET)?;
        Ok(CTLEntry {
            subject_identifier,
            attributes,
        })
    }

    fn write(&self, alloc: Global) -> Result<Tree, DerError> {
        let mut kids = NewKids::new(alloc);
        kids.push(self.subject_identifier.write(alloc)?)?;
        kids.push(write_list(alloc, &self.attributes, SET)?)?;
        Ok(kids.into_branch(SEQUENCE))
    }

    fn try_clone(&self, alloc: Global) -> Result<CTLEntry, AllocError> {
        Ok(CTLEntry {
            subject_identifier: self.subject_identifier.try_clone(alloc)?,
            attributes: copy_each(alloc, &self.attributes)?,
        })
    }

    ghost grammar = { ctl_entries };
}
