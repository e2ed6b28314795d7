//! Results of the DER reader for many inputs, for comparison with another reader.
//!
//! ```text
//! xgolden_der cases FILE
//! xgolden_der digests PREFIX COUNT
//! xgolden_der count FILE
//! ```
//!
//! `tools/golden/compare_readers.py` documents the first two and their output. The third prints the
//! number of elements in the file, for `bench/cursor/cursor.py`.
#![tactic(auto)]

mod answer;
mod blocks;
mod cases;
mod family;
mod request;
mod walk;

use anyhow::Result;
use request::Request;
use std::io::{BufWriter, Write};
use std::{env, fs, io};

fn main(rt: HostRuntime) -> Result<()> {
    let words: Vec<String> = env::args(&rt)?.skip(1).collect(rt.alloc())?;
    let mut out = BufWriter::new(rt.alloc(), io::writer(&rt))?;
    match Request::from_words(rt.alloc(), &words)? {
        Request::Cases { path } => {
            let file = fs::read(&rt, path)?;
            cases::print_answers(rt.alloc(), &file, &mut out)?;
        }
        Request::Digests(family) => {
            blocks::print_digests(rt.alloc(), &family, &mut out)?;
        }
        Request::Count { path } => {
            let file = fs::read(&rt, path)?;
            writeln!(out, "{}", walk::count_elements(&file)?)?;
        }
    }
    out.flush()?;
    Ok(())
}
