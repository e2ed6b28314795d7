//! The kinds of attributes of trust list entries, by OID.

ghost use Rattle.std.specs.Prelude.{◌≡◌, ◌≢◌, MatchOption};
ghost use Rattle.asn1_types.specs.Elements.{object_identifier};
ghost use Rattle.asn1_types.specs.Values.{identifier_contents};
ghost use Rattle.asn1_types.specs.declared.oid.ObjectIdentifier.{ObjectIdentifier};
ghost use Rattle.cms_content.specs.CtlKind.{named_ctl};

use asn1_types::ObjectIdentifier;
use asn1_types::oids::{
    CERT_DISALLOWED_FILETIME, CERT_NOT_BEFORE_ENHKEY_USAGE, CERT_NOT_BEFORE_FILETIME,
    CERT_SUBJECT_NAME_MD5_HASH,
};
use der_core::tag::OBJECT_IDENTIFIER;
use der_core::{Elem, leaf_at};

/// A kind of attributes of trust list entries (Microsoft, wincrypt.h).
#[derive(Clone, Copy, Debug, PartialEq, Eq)]
pub enum CtlKind {
    /// The MD5 of the subject's name.
    CertSubjectNameMd5HashPropId,
    /// The time from which the subject isn't trusted.
    CertDisallowedFileTimePropId,
    /// A time (CERT_NOT_BEFORE_FILETIME_PROP_ID).
    UnknownReservedPropId126,
    /// The extended key usages that the time is for.
    UnknownReservedPropId127,
    /// Any other.
    Other,
}

impl CtlKind {
    /// The kind of attributes that an OID names, given by its contents octets.
    pub fn named(oid: &[u8]) -> CtlKind
        ensures { result ≡ named_ctl oid.now }
    {
        if oid == CERT_SUBJECT_NAME_MD5_HASH {
            return CtlKind::CertSubjectNameMd5HashPropId;
        }
        if oid == CERT_DISALLOWED_FILETIME {
            return CtlKind::CertDisallowedFileTimePropId;
        }
        if oid == CERT_NOT_BEFORE_FILETIME {
            return CtlKind::UnknownReservedPropId126;
        }
        if oid == CERT_NOT_BEFORE_ENHKEY_USAGE {
            return CtlKind::UnknownReservedPropId127;
        }
        CtlKind::Other
    }

    /// The kind of attributes that the element of an OID names.
    pub(crate) fn at(oid: Elem<'_>) -> Option<CtlKind>
        ensures { MatchOption result
            ((id : ObjectIdentifier) → oid.entry.is.0 ≢ object_identifier id)
            (λ kind. (id : ObjectIdentifier) × (oid.entry.is.0 ≡ object_identifier id)
            × (kind ≡ named_ctl (identifier_contents id))) }
    {
        let contents = leaf_at(oid, OBJECT_IDENTIFIER)?;
        if ObjectIdentifier::is_content(contents) {
            Some(CtlKind::named(contents))
        } else {
            None
        }
    }
}
