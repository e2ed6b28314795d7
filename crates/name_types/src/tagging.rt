//! Values under implicit tags (X.690 8.14.3).

ghost use Rattle.std.specs.Prelude.{◌≡◌, ◌≢◌, false, IsTrue, MatchResult};
ghost use Rattle.der_core.specs.DerElement.{Primitive};
ghost use Rattle.der_core.specs.Refusals.{RefusesShape};
ghost use Rattle.asn1_types.specs.Values.{ia5_contents, identifier_contents};
ghost use Rattle.asn1_types.specs.declared.oid.ObjectIdentifier.{ObjectIdentifier};
ghost use Rattle.asn1_types.specs.declared.ia5_string.Ia5String.{Ia5String};

use asn1_types::{Ia5String, ObjectIdentifier};
use der_core::{DerError, Elem, leaf_at};
use std::alloc::Global;

/// Whether the element is an IA5String under this implicit tag.
pub(crate) fn has_text(elem: Elem<'_>, tag: u8) -> bool
    ensures fits { IsTrue result
        → (text : Ia5String) × (elem.entry.is.0 ≡ Primitive tag (ia5_contents text)) }
    ensures unfit { result ≡ false → (text : Ia5String)
        → elem.entry.is.0 ≢ Primitive tag (ia5_contents text) }
{
    match leaf_at(elem, tag) {
        Some(content) => Ia5String::is_content(content),
        None => false,
    }
}

/// The IA5String under this implicit tag.
pub(crate) fn read_text(alloc: Global, elem: Elem<'_>, tag: u8) -> Result<Ia5String, DerError>
    ensures { MatchResult result
        (λ text. elem.entry.is.0 ≡ Primitive tag (ia5_contents text))
        (RefusesShape (λ (text : Ia5String). elem.entry.is.0 ≡ Primitive tag (ia5_contents text))) }
{
    match leaf_at(elem, tag) {
        Some(content) => Ia5String::from_content(alloc, content),
        None => Err(DerError::Shape),
    }
}

/// Whether the element is an OBJECT IDENTIFIER under this implicit tag.
pub(crate) fn has_identifier(elem: Elem<'_>, tag: u8) -> bool
    ensures fits { IsTrue result
        → (id : ObjectIdentifier) × (elem.entry.is.0 ≡ Primitive tag (identifier_contents id)) }
    ensures unfit { result ≡ false → (id : ObjectIdentifier)
        → elem.entry.is.0 ≢ Primitive tag (identifier_contents id) }
{
    match leaf_at(elem, tag) {
        Some(content) => ObjectIdentifier::is_content(content),
        None => false,
    }
}

/// The OBJECT IDENTIFIER under this implicit tag.
pub(crate) fn read_identifier(
    alloc: Global,
    elem: Elem<'_>,
    tag: u8,
) -> Result<ObjectIdentifier, DerError>
    ensures { MatchResult result
        (λ id. elem.entry.is.0 ≡ Primitive tag (identifier_contents id))
        (RefusesShape (λ (id : ObjectIdentifier). elem.entry.is.0 ≡ Primitive tag (identifier_contents id))) }
{
    match leaf_at(elem, tag) {
        Some(content) => ObjectIdentifier::from_content(alloc, content),
        None => Err(DerError::Shape),
    }
}
