//! The kinds of contents, by type.

ghost use Rattle.std.specs.Prelude.{◌≡◌, ◌≢◌, MatchOption};
ghost use Rattle.asn1_types.specs.Elements.{object_identifier};
ghost use Rattle.asn1_types.specs.Values.{identifier_contents};
ghost use Rattle.asn1_types.specs.declared.oid.ObjectIdentifier.{ObjectIdentifier};
ghost use Rattle.cms_content.specs.ContentKind.{named_content};

use asn1_types::ObjectIdentifier;
use asn1_types::oids::{CTL, DATA, SPC_INDIRECT_DATA};
use der_core::tag::OBJECT_IDENTIFIER;
use der_core::{Elem, leaf_at};

/// A kind of contents.
#[derive(Clone, Copy, Debug, PartialEq, Eq)]
pub enum ContentKind {
    /// What Authenticode signs instead of a file.
    IndirectData,
    /// A trust list (Microsoft, wincrypt.h).
    CertificateTrustList,
    /// Octets (RFC 5652 4).
    Data,
    /// Any other.
    Other,
}

impl ContentKind {
    /// The kind of contents of a type, given by the contents octets of its OID.
    pub fn named(oid: &[u8]) -> ContentKind
        ensures { result ≡ named_content oid.now }
    {
        if oid == SPC_INDIRECT_DATA {
            return ContentKind::IndirectData;
        }
        if oid == CTL {
            return ContentKind::CertificateTrustList;
        }
        if oid == DATA {
            return ContentKind::Data;
        }
        ContentKind::Other
    }

    /// The kind of contents of the type in an element.
    pub(crate) fn at(oid: Elem<'_>) -> Option<ContentKind>
        ensures { MatchOption result
            ((id : ObjectIdentifier) → oid.entry.is.0 ≢ object_identifier id)
            (λ kind. (id : ObjectIdentifier) × (oid.entry.is.0 ≡ object_identifier id)
            × (kind ≡ named_content (identifier_contents id))) }
    {
        let contents = leaf_at(oid, OBJECT_IDENTIFIER)?;
        if ObjectIdentifier::is_content(contents) {
            Some(ContentKind::named(contents))
        } else {
            None
        }
    }
}
