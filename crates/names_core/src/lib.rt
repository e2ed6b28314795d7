//! Dates and names of X.509, built on the ASN.1 values.
#![tactic(auto)]

mod common_name;
mod date;
mod first_name;
mod general_name;
mod general_names;
mod laws;
mod name;

pub use date::UtcDate;
pub use general_name::GeneralName;
pub use general_names::GeneralNames;
pub use laws::{dates_are_their_fields, general_names_are_their_raw_names};
pub use name::{DirectoryName, NameList};
