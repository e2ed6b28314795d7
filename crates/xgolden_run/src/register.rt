//! What registers of a CA issue, refuse and accept.
//!
//! A vector has a date, and the calls of a register in their order, each as
//!
//! ```text
//! KIND,ISSUER,SIGNER,FLAG,LENGTH,FIRST,LAST
//! ```
//!
//! KIND is `root`, `child`, `request`, `unsigned`, a request that isn't signed by its own key, or
//! `unread`, octets that are no request. ISSUER is the index of the issuer, SIGNER the number of
//! the key that signs, LENGTH a path length, `-` for none. FLAG is `ca` or `end`. FIRST, LAST and
//! the date are the contents of a GeneralizedTime. The key and the name of a certificate have the
//! number of its call, from 0. For each call its index or its error is printed, then a
//! word: 1 for each certificate that is accepted at the date, 0 for each other. It must be accepted
//! exactly if the date is one of those at which the register calls it usable.
//!
//! Or a vector has signatures that another program made. Its words are `stored`, the text of a verdict
//! table, signatures, each after the SHA-256 of its message and a colon, private keys in PKCS #8,
//! which SIGNER counts from 0, a date, and the calls of kinds `root` and `request`, each with a
//! comma and the request behind it, `-` of a root. Octets are in hexadecimal, and commas between
//! signatures and keys. The serial number of a certificate is the number of its call, from 1. Each
//! certificate is printed too.

mod calls;
mod enrolling;
pub mod measure;
mod printing;
mod registering;
mod stored;

use anyhow::{Context, Result};
use calls::calls_of;
use printing::{print_answer, print_marks};
use registering::register_of;
use std::alloc::Global;
use xgolden::{Line, date_of};

/// The output for a vector.
pub fn answer(alloc: Global, row: &str) -> Result<String> {
    let mut line = Line::new(alloc);
    print(alloc, row, &mut line)?;
    line.answer_to(row)
}

fn print(alloc: Global, row: &str, line: &mut Line) -> Result<()> {
    let (first, words) = row.split_once(' ').context("a row has words")?;
    if first == "stored" {
        return enrolling::print(alloc, words, line);
    }
    let date = date_of(first)?;
    let (register, answers) = register_of(alloc, &calls_of(alloc, words)?)?;
    for answer in &answers {
        print_answer(answer, line)?;
    }
    print_marks(alloc, &register, &date, line)
}
