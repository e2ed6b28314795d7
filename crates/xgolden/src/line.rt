//! Output lines, built word by word.

use crate::unanswered::Unanswered;
use crate::words::word_of;
use anyhow::{Result, bail};
use der_core::DerError;
use std::alloc::Global;
use std::fmt;

/// Words separated by spaces. The reason why a vector has no output, such as out of memory, is
/// stored and returned at the end, so that no step before has to be checked.
#[derive(Drop)]
pub struct Line {
    alloc: Global,
    text: String,
    lost: Option<Unanswered>,
}

impl Line {
    /// No words yet.
    pub fn new(alloc: Global) -> Line {
        Line {
            alloc,
            text: String::new(alloc),
            lost: None,
        }
    }

    /// Appends a text without a space.
    pub fn mark(&mut self, text: &str) {
        if self.text.push_str(text).is_err() {
            self.lose(Unanswered::Memory);
        }
    }

    /// The vector has no output, for this reason.
    pub fn lose(&mut self, why: Unanswered) {
        self.lost = Some(why);
    }

    /// No call takes this vector.
    pub fn no_call(&mut self) {
        self.lose(Unanswered::NoCall);
    }

    /// Appends a word.
    pub fn word(&mut self, word: &str) {
        if !self.text.is_empty() {
            self.mark(" ");
        }
        self.mark(word);
    }

    /// Appends octets.
    pub fn octets(&mut self, octets: &[u8]) {
        match word_of(self.alloc, octets) {
            Ok(word) => self.word(word.as_str()),
            Err(_) => self.lose(Unanswered::Memory),
        }
    }

    /// Appends octets, or `none`.
    pub fn given(&mut self, octets: Option<&[u8]>) {
        match octets {
            Some(octets) => self.octets(octets),
            None => self.word("none"),
        }
    }

    /// Appends octets, or the text of the error.
    pub fn made<E: fmt::Display + Drop>(&mut self, octets: Result<Vec<u8>, E>) {
        match octets {
            Ok(octets) => self.octets(&octets),
            Err(error) => self.shown(&error),
        }
    }

    /// Appends the text of a value.
    pub fn shown<T: fmt::Display>(&mut self, value: &T) {
        match format!(in self.alloc; "{value}") {
            Ok(text) => self.word(text.as_str()),
            Err(_) => self.lose(Unanswered::Memory),
        }
    }

    /// Appends the text of a value as octets.
    pub fn text<T: fmt::Display>(&mut self, value: &T) {
        match format!(in self.alloc; "{value}") {
            Ok(text) => self.octets(text.as_bytes()),
            Err(_) => self.lose(Unanswered::Memory),
        }
    }

    /// Appends the name of a value in the source.
    pub fn named<T: fmt::Debug>(&mut self, value: &T) {
        match format!(in self.alloc; "{value:?}") {
            Ok(text) => self.word(text.as_str()),
            Err(_) => self.lose(Unanswered::Memory),
        }
    }

    /// Appends `Shape` if the element has another structure, else the text of the error.
    pub fn refused(&mut self, error: DerError) {
        match error {
            DerError::Shape => self.word("Shape"),
            error => self.shown(&error),
        }
    }

    /// Appends whether a value round-trips, or why that isn't known.
    pub fn same(&mut self, same: Result<bool, DerError>) {
        match same {
            Ok(true) => self.word("same"),
            Ok(false) => self.word("changed"),
            Err(error) => self.refused(error),
        }
    }

    /// Appends `equal` or `unlike`, or why that isn't known.
    pub fn equal(&mut self, equal: Result<bool, DerError>) {
        match equal {
            Ok(true) => self.word("equal"),
            Ok(false) => self.word("unlike"),
            Err(error) => self.shown(&error),
        }
    }

    /// The words as text.
    pub fn into_text(self) -> Result<String, Unanswered> {
        match self.lost {
            None => Ok(self.text),
            Some(lost) => Err(lost),
        }
    }

    /// The words as the output for a vector.
    pub fn answer_to(self, row: &str) -> Result<String> {
        match self.into_text() {
            Ok(text) => Ok(text),
            Err(lost) => bail!("{lost}: {row}"),
        }
    }
}
