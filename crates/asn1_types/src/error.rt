//! Why a text isn't a value.

ghost use Rattle.std.specs.Prelude.{◌≡◌, Some};
ghost use Rattle.asn1_types.specs.ErrorText.{char_set_error_text, text_error_text};
ghost use Rattle.asn1_types.specs.declared.error.TextError.TheVariants as text;
ghost use Rattle.asn1_types.specs.declared.error.CharSetError.TheVariants as char_set;

use std::alloc::{AllocError, AllocFailed};
use std::fmt;
use thiserror::Error;

/// Why a text isn't an object identifier.
#[derive(Clone, Copy, Debug, PartialEq, Eq, Error)]
pub enum TextError {
    /// The text isn't the dotted decimal form of an OID.
    BadText,
    /// Out of memory.
    Memory,
}

/// Why a text isn't in the character set of a string type.
#[derive(Clone, Copy, Debug, PartialEq, Eq, Error)]
pub enum CharSetError {
    /// A character is outside the character set.
    CharSet,
    /// Out of memory.
    Memory,
}

impl fmt::Display for TextError {
    ghost output = { λ error. Some (text_error_text error) };

    fn fmt<W: fmt::Write>(&self, f: &mut fmt::Formatter<W>) -> fmt::Result {
        match self {
            TextError::BadText => write!(
                f,
                "the text is not an object identifier in dotted decimal form"
            ),
            TextError::Memory => write!(f, "out of memory"),
        }
    }
}

impl fmt::Display for CharSetError {
    ghost output = { λ error. Some (char_set_error_text error) };

    fn fmt<W: fmt::Write>(&self, f: &mut fmt::Formatter<W>) -> fmt::Result {
        match self {
            CharSetError::CharSet => write!(
                f,
                "a character is outside the character set of the string"
            ),
            CharSetError::Memory => write!(f, "out of memory"),
        }
    }
}

impl From<AllocError> for TextError {
    ghost from_gives = { λ _ e. e ≡ text.Memory };

    fn from(_refused: AllocError) -> TextError {
        TextError::Memory
    }
}

impl<T: Drop> From<AllocFailed<T>> for TextError {
    ghost from_gives = { λ _ e. e ≡ text.Memory };

    fn from(_refused: AllocFailed<T>) -> TextError {
        TextError::Memory
    }
}

impl From<AllocError> for CharSetError {
    ghost from_gives = { λ _ e. e ≡ char_set.Memory };

    fn from(_refused: AllocError) -> CharSetError {
        CharSetError::Memory
    }
}

impl<T: Drop> From<AllocFailed<T>> for CharSetError {
    ghost from_gives = { λ _ e. e ≡ char_set.Memory };

    fn from(_refused: AllocFailed<T>) -> CharSetError {
        CharSetError::Memory
    }
}
