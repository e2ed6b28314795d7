//! Building certificates, requests, and certificates with their parents.
//!
//! The first word of a vector is the scheme: `demo`, or the text of a verdict table. One of these
//! follows:
//!
//! ```text
//! build WORD KEY SETTER=VALUE ..
//! request OCTETS
//! generate ALGORITHM KEY SUBJECT [ATTRIBUTES]
//! chain CERTIFICATE,PARENT,.. LOWER,UPPER SETTER ..
//! parent PARENT CERTIFICATE
//! ```
//!
//! KEY is a private key in PKCS #8, a date is the contents of a GeneralizedTime.

mod building;
mod chains;
pub mod measure;
mod printing;
mod requests;
mod settings;
mod words;

use anyhow::{Context, Result, bail};
use sig_core::{DemoScheme, Scheme};
use std::alloc::Global;
use xgolden::{Line, table_of};

/// The output for a vector.
pub fn answer(alloc: Global, row: &str) -> Result<String> {
    let mut line = Line::new(alloc);
    print(alloc, row, &mut line)?;
    line.answer_to(row)
}

/// Prints the line for a vector: its scheme, and the call.
fn print(alloc: Global, row: &str, line: &mut Line) -> Result<()> {
    let (scheme, call) = row.split_once(' ').context("a row has words")?;
    if scheme == "demo" {
        return print_under(alloc, call, &DemoScheme::new(), line);
    }
    let table = table_of(alloc, scheme)?;
    print_under(alloc, call, &table, line)
}

fn print_under<S: Scheme>(alloc: Global, call: &str, scheme: &S, line: &mut Line) -> Result<()> {
    let (name, words) = call.split_once(' ').context("a call has words")?;
    match name {
        "build" => building::print(alloc, words, scheme, line),
        "request" => requests::print(alloc, words, scheme, line),
        "generate" => requests::generate(alloc, words, scheme, line),
        "chain" => chains::print(alloc, words, scheme, line),
        "parent" => chains::print_parent(alloc, words, line),
        _ => bail!("no call has such a row"),
    }
}
