//! Why the name of a CA isn't listed.

ghost use Rattle.std.specs.Prelude.{Some};
ghost use Rattle.cms_content.specs.ErrorText.{error_text};

use std::fmt;
use thiserror::Error;

/// Why the name of a CA isn't listed. Times are in whole seconds since 1601-01-01, UTC.
#[derive(Clone, Copy, Debug, PartialEq, Eq, Error)]
pub enum ListingError {
    /// No entry has the MD5 of the name.
    NotListed,
    /// The entry's not-after or not-before time has no value, or its not-before time isn't one.
    MalformedEntry,
    /// The entry's not-after time isn't one, which revokes it.
    Revoked,
    /// The entry ended before now.
    Expired { not_after: i64, now: i64 },
    /// The entry begins after now, for code signing too.
    NotYetValid { not_before: i64, now: i64 },
}

impl fmt::Display for ListingError {
    ghost output = { λ error. Some (error_text error) };

    fn fmt<W: fmt::Write>(&self, f: &mut fmt::Formatter<W>) -> fmt::Result {
        match self {
            ListingError::NotListed => write!(f, "the CA is not on the trust list"),
            ListingError::MalformedEntry => {
                write!(f, "the CA's entry of the trust list is malformed")
            }
            ListingError::Revoked => write!(f, "the trust list revokes the CA"),
            ListingError::Expired { not_after, now } => write!(
                f,
                "the CA was on the trust list until {not_after}, and it is {now} (seconds since 1601)"
            ),
            ListingError::NotYetValid { not_before, now } => write!(
                f,
                "the CA is on the trust list from {not_before} on, and it is {now} (seconds since 1601)"
            ),
        }
    }
}
