//! The command line.

use crate::family::Family;
use anyhow::{Result, bail};
use std::alloc::Global;

#[derive(Debug, Drop)]
pub enum Request<'a> {
    /// The results for the cases of a file.
    Cases { path: &'a str },
    /// Digests of the results for a family of inputs.
    Digests(Family),
    /// The number of elements in a file.
    Count { path: &'a str },
}

impl Request<'_> {
    pub fn from_words(alloc: Global, words: &[String]) -> Result<Request<'_>> {
        match words {
            [command, path] if command.as_str() == "cases" => Ok(Request::Cases {
                path: path.as_str(),
            }),
            [command, path] if command.as_str() == "count" => Ok(Request::Count {
                path: path.as_str(),
            }),
            [command, prefix, count] if command.as_str() == "digests" => {
                let family = Family::from_words(alloc, prefix.as_str(), count.as_str())?;
                Ok(Request::Digests(family))
            }
            _ => bail!("usage: xgolden_der cases FILE | digests PREFIX COUNT | count FILE"),
        }
    }
}
