//! Why a vector has no output.

use std::alloc::{AllocError, AllocFailed};
use thiserror::Error;

#[derive(Clone, Copy, Debug, Error)]
pub enum Unanswered {
    /// Each call takes another number of words, or other words.
    #[error("no call has such a row")]
    NoCall,
    /// A word of octets is neither hexadecimal nor `-`.
    #[error("a word is none of octets")]
    NoOctets,
    /// The octets of a text aren't UTF-8.
    #[error("octets are no text")]
    NoText,
    /// Out of memory.
    #[error("out of memory")]
    Memory,
}

impl From<AllocError> for Unanswered {
    fn from(_refused: AllocError) -> Unanswered {
        Unanswered::Memory
    }
}

impl<T: Drop> From<AllocFailed<T>> for Unanswered {
    fn from(_refused: AllocFailed<T>) -> Unanswered {
        Unanswered::Memory
    }
}
