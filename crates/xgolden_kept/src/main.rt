//! The certificates and the signed contents of owned signatures, timestamping them, and making
//! signatures.
//!
//! ```text
//! xgolden_kept kept FILE
//! ```
//!
//! A vector has words separated by spaces, and is one of these:
//!
//! ```text
//! SIGNED_DATA
//! SIGNED_DATA TOKEN
//! alone SIGNED_DATA
//! new SCHEME KEY SIGNED_DATA DIGEST HASH [NAME]
//! build SCHEME KEY SETTER=VALUE ..
//! ```
//!
//! Octets are in hexadecimal, `-` for none. SCHEME is `demo`, or a message and its signature
//! separated by a colon, KEY a private key in PKCS #8, and DIGEST the name of an algorithm.
//! `tools/golden/crates.py` makes such a file, and its golden output. For signed data that is
//! the one of `path` of `xgolden_check`, then the digest of the file, and the number of signed and of
//! unsigned attributes of the first signer, `-` without one; with a token the timestamped signed
//! data; else signed data with the certificates alone, the signature of a program made with them,
//! and the one that a builder makes; or why there is none.
#![tactic(auto)]

mod alone;
mod beforehand;
mod built;
mod line;
mod made;
mod settings;
mod stamp;
mod words;

use crate::alone::print_alone;
use crate::beforehand::Beforehand;
use crate::built::print_built;
use crate::line::print_kept;
use crate::made::print_made;
use crate::stamp::print_stamped;
use anyhow::{Context, Result, bail};
use sig_core::{DemoScheme, Scheme};
use std::alloc::Global;
use xgolden::{octets_of, print_kinds, words_of};

fn main(rt: HostRuntime) -> Result<()> {
    print_kinds(&rt, &words_of(&rt)?, answer)
}

/// The output for a vector; all are of one kind.
fn answer(alloc: Global, _kind: &str, row: &str) -> Result<String> {
    let mut line = String::new(alloc);
    print_answer(alloc, row, &mut line)?;
    Ok(line)
}

fn print_answer(alloc: Global, row: &str, line: &mut String) -> Result<()> {
    match row.split_once(' ') {
        None => print_kept(alloc, &octets_of(alloc, row)?, line),
        Some((first, words)) => print_words(alloc, first, words, line),
    }
}

/// The output for a vector of several words.
fn print_words(alloc: Global, first: &str, words: &str, line: &mut String) -> Result<()> {
    match first {
        "alone" => print_alone(alloc, words, line),
        "new" | "build" => print_under(alloc, first, words, line),
        _ => {
            let signed_data = octets_of(alloc, first)?;
            let token = octets_of(alloc, words)?;
            print_stamped(alloc, &signed_data, &token, line)
        }
    }
}

/// Prints what is made with the scheme that the first of the words names.
fn print_under(alloc: Global, call: &str, words: &str, line: &mut String) -> Result<()> {
    let (scheme, words) = words.split_once(' ').context("a call has words")?;
    if scheme == "demo" {
        return print_called(alloc, call, words, &DemoScheme::new(), line);
    }
    let scheme = Beforehand::of(alloc, scheme)?;
    print_called(alloc, call, words, &scheme, line)
}

fn print_called<S: Scheme>(
    alloc: Global,
    call: &str,
    words: &str,
    scheme: &S,
    line: &mut String,
) -> Result<()> {
    match call {
        "new" => print_made(alloc, words, scheme, line),
        "build" => print_built(alloc, words, scheme, line),
        _ => bail!("no call has such a row"),
    }
}
