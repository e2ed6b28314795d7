//! The values of attributes of trust list entries.

ghost use Rattle.std.specs.Prelude.{◌≡◌, [], false, IfOk, IsTrue, MatchResult};
ghost use Rattle.der_core.specs.Encoding.{IsWellFormed};
ghost use Rattle.der_core.specs.Refusals.{RefusesShape, RefusesInner};
ghost use Rattle.der_core.specs.Structure.{Fits};
ghost use Rattle.cms_content.specs.CtlValues.{kind_of_ctl, ctl_values, AreCtlValuesOf};
ghost use Rattle.cms_content.specs.declared.ctl_values.CTLEntryAttributeValues.{CTLEntryAttributeValues};

use crate::ctl_kind::CtlKind;
use crate::held_purposes::HeldPurposes;
use der_core::tag::SET;
use der_core::{
    DerError, Elem, ListOf, Octets, Raw, Tree, copy_each, has_list, read_list, write_list,
};
use std::alloc::{AllocError, Global};

/// The values of an attribute of an entry, a SET OF, by the attribute's OID (Microsoft,
/// wincrypt.h). For each kind any number of values is read, even none, in the order found.
#[derive(Debug, Drop)]
pub enum CTLEntryAttributeValues {
    /// The MD5 of the subject's name.
    CertSubjectNameMd5HashPropId(ListOf<Octets>),
    /// The time from which the subject isn't trusted.
    CertDisallowedFileTimePropId(ListOf<Octets>),
    /// A time (CERT_NOT_BEFORE_FILETIME_PROP_ID).
    UnknownReservedPropId126(ListOf<Octets>),
    /// The extended key usages that the time is for.
    UnknownReservedPropId127(ListOf<HeldPurposes>),
    /// The values of any other attribute, raw.
    Other(ListOf<Raw>),
}

impl CTLEntryAttributeValues {
    /// The kind of attributes that have such values.
    pub fn kind(&self) -> CtlKind
        ensures { result ≡ kind_of_ctl self.now }
    {
        match self {
            CTLEntryAttributeValues::CertSubjectNameMd5HashPropId(_) => {
                CtlKind::CertSubjectNameMd5HashPropId
            }
            CTLEntryAttributeValues::CertDisallowedFileTimePropId(_) => {
                CtlKind::CertDisallowedFileTimePropId
            }
            CTLEntryAttributeValues::UnknownReservedPropId126(_) => {
                CtlKind::UnknownReservedPropId126
            }
            CTLEntryAttributeValues::UnknownReservedPropId127(_) => {
                CtlKind::UnknownReservedPropId127
            }
            CTLEntryAttributeValues::Other(_) => CtlKind::Other,
        }
    }

    /// Whether an element encodes values of the kind.
    pub(crate) fn has_shape_of(kind: CtlKind, elem: Elem<'_>) -> bool
        ensures fits { IsTrue result → Fits (AreCtlValuesOf kind) elem.entry.is.0 }
        ensures unfit { result ≡ false → (values : CTLEntryAttributeValues)
            → AreCtlValuesOf kind elem.entry.is.0 values → ⊥ }
    {
        match kind {
            CtlKind::CertSubjectNameMd5HashPropId => has_list::<Octets>(elem, SET),
            CtlKind::CertDisallowedFileTimePropId => has_list::<Octets>(elem, SET),
            CtlKind::UnknownReservedPropId126 => has_list::<Octets>(elem, SET),
            CtlKind::UnknownReservedPropId127 => has_list::<HeldPurposes>(elem, SET),
            CtlKind::Other => has_list::<Raw>(elem, SET),
        }
    }

    /// Reads values of the kind.
    pub(crate) fn read_of(
        alloc: Global,
        kind: CtlKind,
        elem: Elem<'_>,
    ) -> Result<CTLEntryAttributeValues, DerError>
        ensures { MatchResult result (AreCtlValuesOf kind elem.entry.is.0)
            (RefusesShape (AreCtlValuesOf kind elem.entry.is.0)) }
    {
        match kind {
            CtlKind::CertSubjectNameMd5HashPropId => {
                let values = read_list(alloc, elem, SET)?;
                Ok(CTLEntryAttributeValues::CertSubjectNameMd5HashPropId(values))
            }
            CtlKind::CertDisallowedFileTimePropId => {
                let values = read_list(alloc, elem, SET)?;
                Ok(CTLEntryAttributeValues::CertDisallowedFileTimePropId(values))
            }
            CtlKind::UnknownReservedPropId126 => {
                let values = read_list(alloc, elem, SET)?;
                Ok(CTLEntryAttributeValues::UnknownReservedPropId126(values))
            }
            CtlKind::UnknownReservedPropId127 => {
                let values = read_list(alloc, elem, SET)?;
                Ok(CTLEntryAttributeValues::UnknownReservedPropId127(values))
            }
            CtlKind::Other => Ok(CTLEntryAttributeValues::Other(read_list(alloc, elem, SET)?)),
        }
    }

    /// The element of the values.
    pub(crate) fn write(&self, alloc: Global) -> Result<Tree, DerError>
        ensures { MatchResult result
            (λ tree. (tree ≡ ctl_values self.now) × IsWellFormed tree)
            (RefusesInner []) }
    {
        match self {
            CTLEntryAttributeValues::CertSubjectNameMd5HashPropId(values) => {
                write_list(alloc, values, SET)
            }
            CTLEntryAttributeValues::CertDisallowedFileTimePropId(values) => {
                write_list(alloc, values, SET)
            }
            CTLEntryAttributeValues::UnknownReservedPropId126(values) => {
                write_list(alloc, values, SET)
            }
            CTLEntryAttributeValues::UnknownReservedPropId127(values) => {
                write_list(alloc, values, SET)
            }
            CTLEntryAttributeValues::Other(kept) => write_list(alloc, kept, SET),
        }
    }

    /// A copy of the values.
    pub fn try_clone(&self, alloc: Global) -> Result<CTLEntryAttributeValues, AllocError>
        ensures { IfOk result (λ copy. copy ≡ self.now) }
    {
        Ok(match self {
            CTLEntryAttributeValues::CertSubjectNameMd5HashPropId(values) => {
                CTLEntryAttributeValues::CertSubjectNameMd5HashPropId(copy_each(alloc, values)?)
            }
            CTLEntryAttributeValues::CertDisallowedFileTimePropId(values) => {
                CTLEntryAttributeValues::CertDisallowedFileTimePropId(copy_each(alloc, values)?)
            }
            CTLEntryAttributeValues::UnknownReservedPropId126(values) => {
                CTLEntryAttributeValues::UnknownReservedPropId126(copy_each(alloc, values)?)
            }
            CTLEntryAttributeValues::UnknownReservedPropId127(values) => {
                CTLEntryAttributeValues::UnknownReservedPropId127(copy_each(alloc, values)?)
            }
            CTLEntryAttributeValues::Other(kept) => {
                CTLEntryAttributeValues::Other(copy_each(alloc, kept)?)
            }
        })
    }
}
