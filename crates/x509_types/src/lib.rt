//! Structures of X.509 (RFC 5280) as values, read from octets or trees and written as trees. Names,
//! keys and extension values are crates of their own, re-exported here. Each folder has a structure
//! and its parts: `certificate`, `extension`, `attribute`.
#![tactic(auto)]

mod attribute;
mod certificate;
mod extension;
mod laws;

pub use asn1_types::Time;
pub use attribute::kind::AttributeKind;
pub use attribute::values::AttributeValues;
pub use attribute::{Attribute, AttributeList};
pub use certificate::Certificate;
pub use certificate::first_fields::issuer_and_serial_at;
pub use certificate::tbs_certificate::TbsCertificate;
pub use certificate::validity::Validity;
pub use certificate::version::Version;
pub use certificate::view::CertView;
pub use extension::fields::ExtensionFields;
pub use extension::view::{ExtensionKind, ExtensionView};
pub use extension::{Extension, Extensions};
pub use extension_types::{
    AuthorityKeyIdentifier, BasicConstraints, ExtendedKeyUsage, KeyUsage, OidList,
};
pub use key_types::{AlgorithmIdentifier, KeyKind, RsaPublicKey, SubjectKey, SubjectPublicKeyInfo};
pub use laws::{
    attributes_are_written_as_read, extensions_are_written_as_read,
    first_extensions_are_those_of_certificates, times_and_keys_are_those_of_certificates,
    views_lend_what_certificates_have,
};
pub use name_types::{
    AttributeTypeAndValue, AttributeValue, DirectoryString, EdiPartyName, Name, NameAttr,
    OtherName, OtherValue, RawGeneralName, RawGeneralNames, RelativeDistinguishedName,
    email_address_oid, list_has_each_attribute_type,
};
