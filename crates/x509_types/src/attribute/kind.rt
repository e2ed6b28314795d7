//! The kinds of attributes, by OID.

ghost use Rattle.std.specs.Prelude.{◌≡◌, ◌≢◌, MatchOption};
ghost use Rattle.asn1_types.specs.Elements.{object_identifier};
ghost use Rattle.asn1_types.specs.Values.{identifier_contents};
ghost use Rattle.asn1_types.specs.declared.oid.ObjectIdentifier.{ObjectIdentifier};
ghost use Rattle.x509_types.specs.AttributeKind.{named_attribute};

use asn1_types::ObjectIdentifier;
use asn1_types::oids::{CONTENT_TYPE, EXTENSION_REQUEST, MESSAGE_DIGEST};
use der_core::tag::OBJECT_IDENTIFIER;
use der_core::{Elem, leaf_at};

/// A kind of attributes.
#[derive(Clone, Copy, Debug, PartialEq, Eq)]
pub enum AttributeKind {
    /// The type of the signed content (RFC 2985 5.3.1).
    ContentType,
    /// The digest of the signed content (RFC 2985 5.3.2).
    MessageDigest,
    /// The extensions that a certificate is requested to have (RFC 2985 5.4.2).
    ExtensionRequest,
    /// Any other kind.
    Other,
}

impl AttributeKind {
    /// The kind that an OID, given as contents octets, identifies.
    pub fn named(oid: &[u8]) -> AttributeKind
        ensures { result ≡ named_attribute oid.now }
    {
        if oid == CONTENT_TYPE {
            return AttributeKind::ContentType;
        }
        if oid == MESSAGE_DIGEST {
            return AttributeKind::MessageDigest;
        }
        if oid == EXTENSION_REQUEST {
            return AttributeKind::ExtensionRequest;
        }
        AttributeKind::Other
    }

    /// The kind that the element of an OID identifies.
    pub(crate) fn at(oid: Elem<'_>) -> Option<AttributeKind>
        ensures { MatchOption result
            ((id : ObjectIdentifier) → oid.entry.is.0 ≢ object_identifier id)
            (λ kind. (id : ObjectIdentifier) × (oid.entry.is.0 ≡ object_identifier id)
            × (kind ≡ named_attribute (identifier_contents id))) }
    {
        let contents = leaf_at(oid, OBJECT_IDENTIFIER)?;
        if ObjectIdentifier::is_content(contents) {
            Some(AttributeKind::named(contents))
        } else {
            None
        }
    }
}
