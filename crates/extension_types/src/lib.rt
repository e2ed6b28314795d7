//! The values of certificate extensions (RFC 5280 4.2).
#![tactic(auto)]

mod authority_key_fields;
mod authority_key_identifier;
mod basic_constraints;
mod boolean;
mod extended_key_usage;
mod key_usage;

pub use authority_key_identifier::AuthorityKeyIdentifier;
pub use basic_constraints::{BasicConstraints, small_integer_at};
pub use extended_key_usage::{ExtendedKeyUsage, OidList};
pub use key_usage::KeyUsage;
