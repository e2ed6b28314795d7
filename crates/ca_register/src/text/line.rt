//! A line of a register.

ghost use Rattle.std.specs.Prelude.{◌≡◌, IfOk};
ghost use Rattle.ca_register.specs.Owned.{line_held, line_read};

use names_core::UtcDate;
use std::alloc::{AllocError, Global};

/// What limits a certificate: its path length (RFC 5280 4.2.1.9), if any, and its validity (RFC
/// 5280 4.1.2.5), from the first second of a day to that of another.
#[derive(Clone, Copy, Debug, PartialEq, Eq)]
pub struct Limits {
    pub path_length: Option<u8>,
    pub from: UtcDate,
    pub to: UtcDate,
}

/// The line of a certificate.
#[derive(Debug, Drop)]
pub struct RegisterLine {
    /// The index of the issuer's line, none of a root. It is at most 199.
    pub issuer: Option<usize>,
    /// The number of the key.
    pub key: u8,
    /// The common name of the subject: 1 to 64 ASCII letters or digits.
    pub name: String,
    /// Whether it is a CA certificate. A root is one.
    pub ca: bool,
    pub limits: Limits,
}

/// The same, with the name where it is in the text.
#[derive(Clone, Copy, Debug)]
pub(crate) struct ReadLine<'a> {
    pub(crate) issuer: Option<usize>,
    pub(crate) key: u8,
    pub(crate) name: &'a str,
    pub(crate) ca: bool,
    pub(crate) limits: Limits,
}

/// The line with a copy of the name.
pub(crate) fn kept_line(alloc: Global, line: &ReadLine<'_>) -> Result<RegisterLine, AllocError>
    ensures { IfOk result (λ kept. line_held kept ≡ line_read line.now) }
{
    Ok(RegisterLine {
        issuer: line.issuer,
        key: line.key,
        name: String::from_str(alloc, line.name)?,
        ca: line.ca,
        limits: line.limits,
    })
}
