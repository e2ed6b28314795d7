//! Output for files of test vectors about the programs, what they stand on, and registers of CAs, for
//! comparison with golden output.
//!
//! ```text
//! xgolden_run KIND FILE ..
//! xgolden_run time register FILE TIMES
//! ```
//!
//! KIND is `pe`, `layout`, `image`, `anchor`, `questions`, `register` or `run`, which the heads of these modules
//! describe. Words are separated by spaces. An empty line is printed between two files.
//! `tools/golden/crates.py` makes vectors and golden output.
//!
//! After `time` the file has one vector. Its register is made, `usable` is called this often for the
//! last certificate, and each certificate is verified, for `bench/register/register.py`.
#![tactic(auto)]

mod anchor;
mod image;
mod layout;
mod pe;
mod questions;
mod register;
mod run;

use anyhow::{Result, bail};
use std::alloc::Global;
use std::{fs, io};
use xgolden::{answer_by, print_kinds, timed, words_of};

fn main(rt: HostRuntime) -> Result<()> {
    let words = words_of(&rt)?;
    let Some((_, path, times)) = timed(&words) else {
        return print_kinds(&rt, &words, answer);
    };
    let row = fs::read_to_string(&rt, path)?;
    let (row, out) = (row.trim_end(), &mut io::writer(&rt));
    register::measure::print_times(rt.alloc(), &rt, row, times.parse()?, out)
}

/// The output for a vector.
fn answer(alloc: Global, kind: &str, row: &str) -> Result<String> {
    match kind {
        "pe" => answer_by(alloc, row, pe::print),
        "layout" => answer_by(alloc, row, layout::print),
        "image" => image::answer(alloc, row),
        "anchor" => anchor::answer(alloc, row),
        "questions" => questions::answer(alloc, row),
        "register" => register::answer(alloc, row),
        "run" => run::answer(alloc, row),
        _ => bail!("no kind of vectors is called so"),
    }
}
