//! Names of the Directory (X.501, RFC 5280 4.1.2.4) and general names (RFC 5280 4.2.1.6), as
//! values, read from octets or trees and written as trees.
#![tactic(auto)]

mod attribute;
mod attribute_value;
mod directory_string;
mod edi_party_name;
mod email;
mod general_name;
mod general_names;
mod name;
mod name_attr;
mod name_text;
mod other_name;
mod other_value;
mod relative_name;
mod tagging;
mod text;

pub use attribute::AttributeTypeAndValue;
pub use attribute_value::AttributeValue;
pub use directory_string::DirectoryString;
pub use edi_party_name::EdiPartyName;
pub use email::email_address_oid;
pub use general_name::RawGeneralName;
pub use general_names::RawGeneralNames;
pub use name::Name;
pub use name_attr::{NameAttr, list_has_each_attribute_type};
pub use other_name::OtherName;
pub use other_value::OtherValue;
pub use relative_name::RelativeDistinguishedName;
