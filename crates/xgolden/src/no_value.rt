//! Why no value is made from words.

use crate::line::Line;
use crate::unanswered::Unanswered;
use der_core::DerError;
use std::alloc::{AllocError, AllocFailed};

#[derive(Clone, Copy)]
pub enum NoValue {
    Refused(DerError),
    Unanswered(Unanswered),
}

impl NoValue {
    /// Prints the text of the refusal.
    pub fn print(self, line: &mut Line) {
        match self {
            NoValue::Refused(error) => line.shown(&error),
            NoValue::Unanswered(why) => line.lose(why),
        }
    }
}

impl From<DerError> for NoValue {
    fn from(error: DerError) -> NoValue {
        NoValue::Refused(error)
    }
}

impl From<Unanswered> for NoValue {
    fn from(why: Unanswered) -> NoValue {
        NoValue::Unanswered(why)
    }
}

impl From<AllocError> for NoValue {
    fn from(refused: AllocError) -> NoValue {
        NoValue::Unanswered(Unanswered::from(refused))
    }
}

impl<T: Drop> From<AllocFailed<T>> for NoValue {
    fn from(refused: AllocFailed<T>) -> NoValue {
        NoValue::Unanswered(Unanswered::from(refused))
    }
}
