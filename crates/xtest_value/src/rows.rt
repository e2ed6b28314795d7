//! A row of a verdict table, and texts in pieces.

use std::alloc::{AllocError, Global};

/// The SHA-256 of `key`, of `message` and of `signature`.
pub(crate) const KEY: &str = "2c70e12b7a0646f92279f427c7b38e7334d8e5389cff167a1dc30e73f826b683";

pub(crate) const MSG: &str = "ab530a13e45914982b79f9b7e3fba994cfd1f3fb22f71cea1afbf02b460c6d1d";

pub(crate) const SIG: &str = "1a2fc26dc7ea5a2a4748b7cb2b1ef193d96ab2c99f93092f69e63075b28d1278";

/// The row with these for RSA with SHA-256.
#[rattlefmt::skip]
pub(crate) const ROW: &str = "rsa-sha256 2c70e12b7a0646f92279f427c7b38e7334d8e5389cff167a1dc30e73f826b683 ab530a13e45914982b79f9b7e3fba994cfd1f3fb22f71cea1afbf02b460c6d1d 1a2fc26dc7ea5a2a4748b7cb2b1ef193d96ab2c99f93092f69e63075b28d1278\n";

/// The first line of a table of version 2.
pub(crate) const VERSION_2: &str = "picky-verdicts 2\n";

/// The pieces, one after another.
pub(crate) fn joined(alloc: Global, pieces: &[&str]) -> Result<String, AllocError> {
    let mut text = String::new(alloc);
    for piece in pieces {
        text.push_str(piece)?;
    }
    Ok(text)
}
