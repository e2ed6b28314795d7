//! Output for files of test vectors about building certificates, requests, and certificates with
//! their parents, for comparison with golden output.
//!
//! ```text
//! xgolden_issuing KIND FILE ..
//! xgolden_issuing time issuing FILE TIMES
//! ```
//!
//! KIND is `issuing`, `request` or `histories`, which the heads of these modules describe. Words are
//! separated by spaces, octets are in hexadecimal, `-` for none. A line is printed for each vector,
//! and an empty one between two files. `tools/golden/crates.py` makes vectors and golden output.
//!
//! After `time` the file has certificates separated by commas, the first issued by the second and so
//! on, a date, and the key of the second. The chain is validated and the first is built this often,
//! for `bench/issuing/issuing.py`.
#![tactic(auto)]

mod histories;
mod issuing;
mod request;

use anyhow::{Result, bail};
use std::alloc::Global;
use std::{fs, io};
use xgolden::{answer_by, print_kinds, timed, words_of};

fn main(rt: HostRuntime) -> Result<()> {
    let words = words_of(&rt)?;
    let Some((_, path, times)) = timed(&words) else {
        return print_kinds(&rt, &words, answer);
    };
    let row = fs::read_to_string(&rt, path)?;
    let (row, out) = (row.trim_end(), &mut io::writer(&rt));
    issuing::measure::print_times(rt.alloc(), &rt, row, times.parse()?, out)
}

/// The output for a vector.
fn answer(alloc: Global, kind: &str, row: &str) -> Result<String> {
    match kind {
        "issuing" => issuing::answer(alloc, row),
        "request" => answer_by(alloc, row, request::print),
        "histories" => histories::answer(alloc, row),
        _ => bail!("no kind of vectors is called so"),
    }
}
