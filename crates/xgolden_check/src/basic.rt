//! The results of `check_wincert` for signature files under a policy of basic validation alone.
//!
//! A vector has words in hexadecimal, `-` for none: a signature file, the expected digest, the text
//! of a verdict table, and any number of changes. A change is an offset in two octets and the octet
//! to put there. There is a line for the file as it is, and one for each change of it.

mod case;
mod line;

use anyhow::{Result, bail};
use case::{Case, answer_to_change, answer_to_file, case_of};
use std::alloc::Global;

/// The lines for a vector.
pub fn answer(alloc: Global, row: &str) -> Result<String> {
    let words: Vec<&str> = row.split(' ').collect(alloc)?;
    let [file, hash, table, changes @ ..] = words.as_slice() else {
        bail!("a case has three words");
    };
    let case = case_of(alloc, file, hash, table)?;
    answer_to_changes(alloc, &case, changes)
}

fn answer_to_changes(alloc: Global, case: &Case, changes: &[&str]) -> Result<String> {
    let mut lines = answer_to_file(alloc, case)?;
    for change in changes {
        lines.push('\n')?;
        lines.push_str(&answer_to_change(alloc, case, change)?)?;
    }
    Ok(lines)
}
