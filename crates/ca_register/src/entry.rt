//! What a register records of a certificate.

ghost use Rattle.std.specs.Prelude.{◌<◌, length};
ghost use Rattle.ca_register.specs.Entries.{HasEntry};

use names_core::UtcDate;

/// What a certificate is issued for.
#[derive(Clone, Copy, Debug, PartialEq, Eq)]
pub struct Grant {
    /// Whether it is a CA certificate (RFC 5280 4.2.1.9).
    pub ca: bool,
    /// How many certificates may be between it and the end of a path (RFC 5280 4.2.1.9).
    pub path_length: Option<u8>,
    /// The first second of its validity (RFC 5280 4.1.2.5).
    pub from: UtcDate,
    /// The last second of its validity.
    pub to: UtcDate,
}

/// The record of a certificate.
#[derive(Clone, Copy, Debug, PartialEq, Eq)]
pub struct Entry {
    /// The index of the issuer, none of a root.
    pub issuer: Option<usize>,
    pub grant: Grant,
}

/// The entry at an index.
pub(crate) fn entry_at(entries: &[Entry], place: usize) -> Entry
    requires within { place < length entries.now }
    ensures { HasEntry entries.now place result }
{
    entries[place]
}
