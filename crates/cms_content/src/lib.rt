//! Signed contents (RFC 2315, RFC 5652, Windows Authenticode Portable Executable Signature Format)
//! as values, read from octets or trees and written as trees: a digest with its algorithm, what
//! Authenticode signs instead of a file, trust lists, and any content with its type. Timestamp
//! requests. Whether a trust list has the name of a CA at a time.
#![tactic(auto)]

mod content_info;
mod content_kind;
mod content_value;
mod content_view;
mod ctl;
mod ctl_attribute;
mod ctl_entry;
mod ctl_kind;
mod ctl_values;
mod digest_info;
mod held_purposes;
mod indirect_data;
mod listing;
mod spc_attribute;
mod timestamp_request;

pub use content_info::{CONTENT, EncapsulatedContentInfo};
pub use content_kind::ContentKind;
pub use content_value::ContentValue;
pub use content_view::ContentView;
pub use ctl::Ctl;
pub use ctl_attribute::CTLEntryAttribute;
pub use ctl_entry::CTLEntry;
pub use ctl_kind::CtlKind;
pub use ctl_values::CTLEntryAttributeValues;
pub use digest_info::DigestInfo;
pub use held_purposes::HeldPurposes;
pub use indirect_data::SpcIndirectDataContent;
pub use listing::error::ListingError;
pub use listing::expect_listed;
pub use listing::laws::listing_has_one_answer;
pub use spc_attribute::SpcAttributeTypeAndOptionalValue;
pub use timestamp_request::TimestampRequest;
