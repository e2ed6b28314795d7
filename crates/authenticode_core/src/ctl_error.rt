//! Why octets aren't read as a trust list, or have no entries that can be used.

ghost use Rattle.std.specs.Prelude.{◌≡◌, IfOk, Some, string_bytes};
ghost use Rattle.authenticode_core.specs.ErrorText.{ctl_error_text};
ghost use Rattle.authenticode_core.specs.RefusalName.{ctl_error_name};

use crate::pkcs7_error::Pkcs7Error;
use std::fmt::{self, Display};
use thiserror::Error;

/// Why octets aren't read as a trust list, or have no entries that can be used.
#[derive(Debug, Drop, Error)]
pub enum CtlError {
    /// The octets aren't signed data. Never wraps out of memory.
    FailedToParseCtl(Pkcs7Error),
    /// The signed data has no content.
    NoContent,
    /// The content isn't a trust list.
    IncorrectContentValue,
    /// The CA's entry has a not-after time without a value, or a not-before time without one or with
    /// one that is too short.
    MalformedEntry,
    /// Out of memory.
    Memory,
}

impl CtlError {
    /// The name of the variant.
    pub(crate) fn word(&self) -> &'static str
        ensures { result.now ≡ ctl_error_name self.now }
    {
        match self {
            CtlError::FailedToParseCtl(_) => "FailedToParseCtl",
            CtlError::NoContent => "NoContent",
            CtlError::IncorrectContentValue => "IncorrectContentValue",
            CtlError::MalformedEntry => "MalformedEntry",
            CtlError::Memory => "Memory",
        }
    }
}

impl fmt::Display for CtlError {
    ghost output = { λ error. Some (ctl_error_text error) };

    fn fmt<W: fmt::Write>(&self, f: &mut fmt::Formatter<W>) -> fmt::Result {
        match self {
            CtlError::FailedToParseCtl(error) => error.fmt(f),
            CtlError::NoContent => write!(f, "the trust list has no content"),
            CtlError::IncorrectContentValue => {
                write!(f, "the content of the trust list is another one")
            }
            CtlError::MalformedEntry => write!(f, "an entry of the trust list is malformed"),
            CtlError::Memory => write!(f, "out of memory"),
        }
    }
}
