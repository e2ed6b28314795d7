//! Digests, signature algorithms, and signature schemes.
//!
//! This crate never verifies a signature by arithmetic: a `Scheme` decides whether one belongs to a
//! key and a message. `VerdictTable` returns the verdict of the first row that names a signature,
//! and rejects a signature that no row names. `DemoScheme` makes signatures that anyone could make,
//! for demonstrations and tests.
#![tactic(auto)]

mod algorithm;
mod demo_scheme;
mod error;
mod hash;
mod laws;
mod rsa_secret;
mod scheme;
mod sha_variant;
mod verdict_row;
mod verdict_table;

pub use algorithm::{SchemeKind, SigAlg};
pub use demo_scheme::DemoScheme;
pub use error::{UnsupportedAlgorithmError, UnsupportedHashAlgorithmError};
pub use hash::HashAlgorithm;
pub use laws::{demo_keys_of_rsa, lists_have_each_algorithm, one_identifier_each, one_table};
pub use scheme::{Scheme, SchemeError, Verdict};
pub use sha_variant::ShaVariant;
pub use verdict_table::{TableError, VerdictTable};
