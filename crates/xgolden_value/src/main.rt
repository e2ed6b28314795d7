//! Output for files of test vectors about OIDs, strings, times, structures, names and keys, for
//! comparison with golden output.
//!
//! ```text
//! xgolden_value KIND FILE ..
//! ```
//!
//! KIND is `value` or `structure`, which the heads of these modules describe, or `extension`, of
//! structures too. Words are separated by spaces. Octets and texts are in hexadecimal, `-` for
//! none, other numbers in decimal. A line is printed for each vector, and an empty one between two
//! files. `tools/golden/crates.py` makes vectors and golden output.
#![tactic(auto)]

mod structure;
mod value;

use anyhow::{Result, bail};
use std::alloc::Global;
use xgolden::{answer_by, print_kinds, words_of};

fn main(rt: HostRuntime) -> Result<()> {
    print_kinds(&rt, &words_of(&rt)?, answer)
}

/// The output for a vector.
fn answer(alloc: Global, kind: &str, row: &str) -> Result<String> {
    match kind {
        "value" => answer_by(alloc, row, value::print),
        "structure" | "extension" => answer_by(alloc, row, structure::print),
        _ => bail!("no kind of vectors is called so"),
    }
}
