//! The trust list of a policy, and the names of CAs that it excludes.

use anyhow::{Result, bail};
use der_core::Structure;
use names_core::{DirectoryName, NameList};
use std::alloc::Global;
use xgolden::{number_of, octets_of};

/// The list in hexadecimal, `-` for none; the time in seconds since 1601; and the excluded names
/// in hexadecimal with `+` between, `-` for none.
#[derive(Clone, Copy)]
pub struct ListWords<'a> {
    list: &'a str,
    pub now: i64,
    pub excluded: &'a str,
}

/// Three words, or none.
pub fn list_words_of<'a>(words: &[&'a str]) -> Result<ListWords<'a>> {
    match words {
        [] => Ok(ListWords {
            list: "-",
            now: 0,
            excluded: "-",
        }),
        [list, now, excluded] => Ok(ListWords {
            list: *list,
            now: number_of(now)?,
            excluded: *excluded,
        }),
        _ => bail!("a trust list has three words"),
    }
}

/// The octets of the list, None for none.
pub fn list_octets(alloc: Global, words: &ListWords<'_>) -> Result<Option<Vec<u8>>> {
    if words.list == "-" {
        return Ok(None);
    }
    Ok(Some(octets_of(alloc, words.list)?))
}

/// The names of a word.
pub fn names_of(alloc: Global, word: &str) -> Result<NameList> {
    let mut names = NameList::new(alloc);
    if word == "-" {
        return Ok(names);
    }
    for one in word.split('+') {
        names.push(name_of(alloc, one)?)?;
    }
    Ok(names)
}

fn name_of(alloc: Global, word: &str) -> Result<DirectoryName> {
    let octets = octets_of(alloc, word)?;
    Ok(DirectoryName::from_der(alloc, &octets)?)
}
