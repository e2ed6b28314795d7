//! The texts of errors.

use asn1_types::{CharSetError, TextError};
use xgolden::Line;

/// The text of an error.
pub fn print(name: &str, line: &mut Line) {
    match name {
        "TextError::BadText" => line.shown(&TextError::BadText),
        "TextError::Memory" => line.shown(&TextError::Memory),
        "CharSetError::CharSet" => line.shown(&CharSetError::CharSet),
        "CharSetError::Memory" => line.shown(&CharSetError::Memory),
        _ => line.no_call(),
    }
}
