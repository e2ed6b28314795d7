//! Output for files of test vectors about checks of signature files, for comparison with golden
//! output.
//!
//! ```text
//! xgolden_check KIND FILE ..
//! ```
//!
//! KIND is `path`, `basic` or `check`, which the heads of these modules describe. Words are separated
//! by spaces. An empty line is printed between two files. `tools/golden/crates.py` makes vectors and golden
//! output.
#![tactic(auto)]

mod basic;
mod change;
mod check;
mod path;

use anyhow::{Result, bail};
use std::alloc::Global;
use xgolden::{print_kinds, words_of};

fn main(rt: HostRuntime) -> Result<()> {
    print_kinds(&rt, &words_of(&rt)?, answer)
}

/// The output for a vector.
fn answer(alloc: Global, kind: &str, row: &str) -> Result<String> {
    match kind {
        "path" => path::answer(alloc, row),
        "basic" => basic::answer(alloc, row),
        "check" => check::answer(alloc, row),
        _ => bail!("no kind of vectors is called so"),
    }
}
