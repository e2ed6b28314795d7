//! Structures of PKCS #7 (RFC 2315), of the Cryptographic Message Syntax (RFC 5652) and of
//! Authenticode (Windows Authenticode Portable Executable Signature Format), as values, read from
//! octets or trees and written as trees: signed data, its signers, and what a signature says about
//! its program. The signed contents have a crate of their own and are exported again here. Each
//! folder has a structure with its parts: `signed_data`, `signer_info`, `unsigned_attribute`,
//! `opus_info`.
#![tactic(auto)]

mod laws;
mod levels;
mod list_fields;
mod members;
mod opus_info;
mod sha;
mod shapes;
mod signed_data;
mod signer_info;
mod unsigned_attribute;
mod version;

pub use cms_content::{
    CTLEntry, CTLEntryAttribute, CTLEntryAttributeValues, ContentKind, ContentValue, ContentView,
    Ctl, CtlKind, DigestInfo, EncapsulatedContentInfo, HeldPurposes,
    SpcAttributeTypeAndOptionalValue, SpcIndirectDataContent, TimestampRequest,
};
pub use laws::{shapes_are_those_of_values, views_lend_what_signed_data_has};
pub use opus_info::SpcSpOpusInfo;
pub use opus_info::spc_link::SpcLink;
pub use opus_info::spc_string::{SpcString, UNICODE};
pub use sha::new_sha;
pub use signed_data::certificate_choices::CertificateChoices;
pub use signed_data::pkcs7::Pkcs7Certificate;
pub use signed_data::raw_certificate::{OtherCertificate, RawCertificate};
pub use signed_data::view::SignedView;
pub use signed_data::{CertificateSet, DigestAlgorithms, SignedData, SignersInfos};
pub use signer_info::SignerInfo;
pub use signer_info::identifier::SignerIdentifier;
pub use signer_info::issuer_and_serial::IssuerAndSerialNumber;
pub use signer_info::signed_attributes::{SIGNED_ATTRIBUTES, SignedAttributes};
pub use signer_info::view::SignerView;
pub use unsigned_attribute::kind::UnsignedKind;
pub use unsigned_attribute::raw::{RawList, RawUnsignedAttribute};
pub use unsigned_attribute::signer_values::SignerValues;
pub use unsigned_attribute::token_values::TokenValues;
pub use unsigned_attribute::{UnsignedAttribute, UnsignedAttributeList};
pub use version::CmsVersion;
