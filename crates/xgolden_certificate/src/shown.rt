//! Printing what both kinds of vectors have.

use der_core::{DerError, Elem};
use sha2::{Digest, Sha256};
use xgolden::{Line, Unanswered};

/// Prints the first half of the SHA-256 of a text.
pub fn print_digest(text: Result<String, Unanswered>, line: &mut Line) {
    match text {
        Ok(text) => line.octets(&Sha256::digest(text.as_bytes())[..16]),
        Err(why) => line.lose(why),
    }
}

/// Prints why octets are refused.
pub fn print_refusal(error: DerError, line: &mut Line) {
    match error {
        DerError::Malformed(malformed) => line.shown(&malformed),
        error => line.refused(error),
    }
}

/// The octets of an element, if present.
pub fn octets_of(elem: Option<Elem<'_>>) -> Option<&[u8]> {
    match elem {
        Some(elem) => Some(elem.whole),
        None => None,
    }
}
