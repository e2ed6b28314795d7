//! Test vectors, and the arguments of calls in them.

use crate::unanswered::Unanswered;
use crate::words::octets_of;
use std::alloc::{AllocError, Global};

/// The words of a vector, separated by spaces, and the octets of each, None if it isn't one of
/// octets.
#[derive(Drop)]
pub struct Row<'a> {
    words: Vec<&'a str>,
    octets: Vec<Option<Vec<u8>>>,
}

impl<'a> Row<'a> {
    pub fn of(alloc: Global, text: &'a str) -> Result<Row<'a>, AllocError> {
        let words: Vec<&str> = text.split(' ').collect(alloc)?;
        let octets = octets_of_words(alloc, &words)?;
        Ok(Row { words, octets })
    }

    /// All words, with their octets.
    pub fn args(&self) -> Args<'_> {
        Args {
            words: &self.words,
            octets: &self.octets,
        }
    }
}

fn octets_of_words(alloc: Global, words: &[&str]) -> Result<Vec<Option<Vec<u8>>>, AllocError> {
    let mut all = Vec::new(alloc);
    for word in words {
        all.push(octets_in(alloc, word)?)?;
    }
    Ok(all)
}

fn octets_in(alloc: Global, word: &str) -> Result<Option<Vec<u8>>, AllocError> {
    match octets_of(alloc, word) {
        Ok(octets) => Ok(Some(octets)),
        Err(Unanswered::Memory) => Err(AllocError),
        Err(_) => Ok(None),
    }
}

/// Words of a vector, and the octets of each.
#[derive(Clone, Copy)]
pub struct Args<'a> {
    pub words: &'a [&'a str],
    pub octets: &'a [Option<Vec<u8>>],
}

impl<'a> Args<'a> {
    /// The first word, and the ones after it.
    pub fn split(self) -> Option<(&'a str, Args<'a>)> {
        match (self.words, self.octets) {
            ([first, words @ ..], [_, octets @ ..]) => Some((first, Args { words, octets })),
            _ => None,
        }
    }

    /// The octets of the word at an index, None for `none`.
    pub fn given(self, place: usize) -> Result<Option<&'a [u8]>, Unanswered> {
        match (self.words.get(place), self.octets.get(place)) {
            (Some(word), _) if *word == "none" => Ok(None),
            (_, Some(Some(octets))) => Ok(Some(octets)),
            _ => Err(Unanswered::NoOctets),
        }
    }
}
