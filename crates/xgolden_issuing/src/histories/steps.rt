//! Parsing steps.

use anyhow::{Result, bail};
use names_core::UtcDate;
use std::alloc::Global;
use xgolden::{ca_flag_of, date_of, length_of};

/// An issuing step.
#[derive(Drop)]
pub struct Step {
    /// The index of the issuer's step, none of a root.
    pub issuer: Option<usize>,
    pub ca: bool,
    pub path_length: Option<u8>,
    pub validity: (UtcDate, UtcDate),
    /// Whether it is issued for a request.
    pub request: bool,
    /// Whether it is issued to the issuer's name.
    pub same_name: bool,
}

/// Steps, separated by spaces.
pub fn steps_of(alloc: Global, words: &str) -> Result<Vec<Step>> {
    let mut steps = Vec::new(alloc);
    for word in words.split(' ') {
        let parts: Vec<&str> = word.split(',').collect(alloc)?;
        steps.push(step_of(parts.as_slice())?)?;
    }
    Ok(steps)
}

fn step_of(parts: &[&str]) -> Result<Step> {
    let [issuer, flag, length, first, last, how, name] = parts else {
        bail!("a step has seven parts");
    };
    Ok(Step {
        issuer: index_of(issuer)?,
        ca: ca_flag_of(flag)?,
        path_length: length_of(length)?,
        validity: (date_of(first)?, date_of(last)?),
        request: one_of(how, "request", "key")?,
        same_name: one_of(name, "issuer", "own")?,
    })
}

/// Whether it is the first of two words.
fn one_of(word: &str, first: &str, second: &str) -> Result<bool> {
    if word != first && word != second {
        bail!("a word of a step is another one");
    }
    Ok(word == first)
}

fn index_of(word: &str) -> Result<Option<usize>> {
    if word == "-" {
        return Ok(None);
    }
    Ok(Some(word.parse()?))
}
