//! Errors of anchors.

ghost use Rattle.std.specs.Prelude.{◌≡◌, Some};
ghost use Rattle.trust_anchors.specs.ErrorText.{error_text};
ghost use Rattle.trust_anchors.specs.declared.error.AnchorError.TheVariants.{Memory};

use std::alloc::{AllocError, AllocFailed};
use std::fmt;
use thiserror::Error;

/// Why an anchor isn't added, or a path isn't searched.
#[derive(Clone, Copy, Debug, PartialEq, Eq, Error)]
pub enum AnchorError {
    /// There would be more than 64 anchors, or there are more than 256 certificates to search.
    TooMany { count: usize },
    /// Out of memory.
    Memory,
}

impl fmt::Display for AnchorError {
    ghost output = { λ error. Some (error_text error) };

    fn fmt<W: fmt::Write>(&self, f: &mut fmt::Formatter<W>) -> fmt::Result {
        match self {
            AnchorError::TooMany { count } => write!(f, "{count} certificates are too many"),
            AnchorError::Memory => write!(f, "out of memory"),
        }
    }
}

impl From<AllocError> for AnchorError {
    ghost from_gives = { λ _ e. e ≡ Memory };

    fn from(_error: AllocError) -> AnchorError {
        AnchorError::Memory
    }
}

impl<T: Drop> From<AllocFailed<T>> for AnchorError {
    ghost from_gives = { λ _ e. e ≡ Memory };

    fn from(_error: AllocFailed<T>) -> AnchorError {
        AnchorError::Memory
    }
}
