//! The values of attributes.

ghost use Rattle.std.specs.Prelude.{◌≡◌, ◌↔◌, false, IfOk, IsTrue, MatchResult};
ghost use Rattle.der_core.specs.Encoding.{IsWellFormed};
ghost use Rattle.der_core.specs.Borrowed.{AreDer};
ghost use Rattle.der_core.specs.Refusals.{RefusesShape, RefusesInner};
ghost use Rattle.x509_types.specs.AttributeValues.{kind_of_values, attribute_values, inner_values, AreValuesOf};
ghost use Rattle.x509_types.specs.declared.attribute.values.AttributeValues.{AttributeValues};

use crate::attribute::kind::AttributeKind;
use crate::extension::Extensions;
use asn1_types::ObjectIdentifier;
use der_core::tag::SET;
use der_core::{
    DerError, Elem, ListOf, Octets, Raw, Structure, Tree, copy_each, has_list, read_list,
    write_list,
};
use extension_types::OidList;
use std::alloc::{AllocError, Global};

/// The values of an attribute, a SET OF (RFC 2986 4.1, RFC 5652 5.3), by the attribute's OID. Any
/// number of values is accepted, zero too, in the order given.
#[derive(Debug, Drop)]
pub enum AttributeValues {
    /// The type of the signed content (RFC 2985 5.3.1).
    ContentType(OidList),
    /// The digest of the signed content (RFC 2985 5.3.2).
    MessageDigest(ListOf<Octets>),
    /// The extensions that a certificate is requested to have (RFC 2985 5.4.2).
    Extensions(ListOf<Extensions>),
    /// The values of any other attribute, raw.
    Raw(ListOf<Raw>),
}

impl AttributeValues {
    /// The kind of attributes that have such values.
    pub fn kind(&self) -> AttributeKind
        ensures { result ≡ kind_of_values self.now }
    {
        match self {
            AttributeValues::ContentType(_) => AttributeKind::ContentType,
            AttributeValues::MessageDigest(_) => AttributeKind::MessageDigest,
            AttributeValues::Extensions(_) => AttributeKind::ExtensionRequest,
            AttributeValues::Raw(_) => AttributeKind::Other,
        }
    }

    /// Whether the element holds values of the kind.
    pub(crate) fn has_shape_of(kind: AttributeKind, elem: Elem<'_>) -> bool
        ensures fits { IsTrue result
            → (values : AttributeValues) × AreValuesOf kind elem.entry.is.0 values }
        ensures unfit { result ≡ false → (values : AttributeValues)
            → AreValuesOf kind elem.entry.is.0 values → ⊥ }
    {
        match kind {
            AttributeKind::ContentType => has_list::<ObjectIdentifier>(elem, SET),
            AttributeKind::MessageDigest => has_list::<Octets>(elem, SET),
            AttributeKind::ExtensionRequest => has_list::<Extensions>(elem, SET),
            AttributeKind::Other => has_list::<Raw>(elem, SET),
        }
    }

    /// The values of the kind in the element.
    pub(crate) fn read_at(
        alloc: Global,
        kind: AttributeKind,
        elem: Elem<'_>,
    ) -> Result<AttributeValues, DerError>
        ensures { MatchResult result (AreValuesOf kind elem.entry.is.0)
            (RefusesShape (AreValuesOf kind elem.entry.is.0)) }
    {
        match kind {
            AttributeKind::ContentType => {
                Ok(AttributeValues::ContentType(read_list(alloc, elem, SET)?))
            }
            AttributeKind::MessageDigest => {
                Ok(AttributeValues::MessageDigest(read_list(alloc, elem, SET)?))
            }
            AttributeKind::ExtensionRequest => {
                Ok(AttributeValues::Extensions(read_list(alloc, elem, SET)?))
            }
            AttributeKind::Other => Ok(AttributeValues::Raw(read_list(alloc, elem, SET)?)),
        }
    }

    /// The element of the values.
    pub(crate) fn write(&self, alloc: Global) -> Result<Tree, DerError>
        ensures { MatchResult result
            (λ tree. (tree ≡ attribute_values self.now) × IsWellFormed tree
            × AreDer (inner_values self.now))
            (RefusesInner (inner_values self.now)) }
    {
        match self {
            AttributeValues::ContentType(types) => write_list(alloc, types, SET),
            AttributeValues::MessageDigest(digests) => write_list(alloc, digests, SET),
            AttributeValues::Extensions(requests) => write_list(alloc, requests, SET),
            AttributeValues::Raw(kept) => write_list(alloc, kept, SET),
        }
    }

    /// A copy of the values.
    pub fn try_clone(&self, alloc: Global) -> Result<AttributeValues, AllocError>
        ensures { IfOk result (λ copy. copy ≡ self.now) }
    {
        Ok(match self {
            AttributeValues::ContentType(types) => {
                AttributeValues::ContentType(copy_each(alloc, types)?)
            }
            AttributeValues::MessageDigest(digests) => {
                AttributeValues::MessageDigest(copy_each(alloc, digests)?)
            }
            AttributeValues::Extensions(requests) => {
                AttributeValues::Extensions(copy_each(alloc, requests)?)
            }
            AttributeValues::Raw(kept) => AttributeValues::Raw(copy_each(alloc, kept)?),
        })
    }
}

/// Values are equal exactly if their kind, the kinds of the extension values in them, and their
/// encodings are.
impl PartialEq for AttributeValues {
    ghost use Rattle.std.specs.Ordering.{on};
    ghost use Rattle.std.specs.Cmp.Lexicographic.{nat_list_eq_equiv};
    ghost use Rattle.std.specs.Cmp.{on_per, partial_equiv_from_equiv};
    ghost use Rattle.std.specs.Prelude.{bytes_eq};
    ghost use Rattle.x509_types.specs.AttributeValues.{values_octets};

    ghost eq = { on (λ values. values_octets values) bytes_eq };

    ghost laws = { on_per (λ values. values_octets values)
        (partial_equiv_from_equiv nat_list_eq_equiv) };

    fn eq(&self, other: &AttributeValues) -> bool
        ensures compared { result ≡ bytes_eq (values_octets self.now) (values_octets other.now) }
        ensures same { IsTrue result ↔ (self.now ≡ other.now) }
    {
        match (self, other) {
            (AttributeValues::ContentType(a), AttributeValues::ContentType(b)) => *a == *b,
            (AttributeValues::MessageDigest(a), AttributeValues::MessageDigest(b)) => *a == *b,
            (AttributeValues::Extensions(a), AttributeValues::Extensions(b)) => *a == *b,
            (AttributeValues::Raw(a), AttributeValues::Raw(b)) => *a == *b,
            _ => false,
        }
    }
}

impl Eq for AttributeValues {
    ghost use Rattle.std.specs.Cmp.Lexicographic.{nat_list_eq_equiv};
    ghost use Rattle.std.specs.Cmp.{on_equiv};
    ghost use Rattle.x509_types.specs.AttributeValues.{values_octets};

    ghost laws = { on_equiv (λ values. values_octets values) nat_list_eq_equiv };
}
