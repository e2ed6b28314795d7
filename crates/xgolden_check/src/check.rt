//! The results of `check_wincert` for signature files under policies, and whether the validator of
//! each owned signature returns the same.
//!
//! A vector is a signature file in hexadecimal; a verdict table with `:` for each space and `;` for
//! each newline; and any number of policies. There is a line for each policy, with `differs` before
//! it if the result of the validator is another.
//!
//! A policy is five words separated by commas, or eight: a letter for each flag that is on, `b` for
//! basic, `s` for signing, `f` and `l` for the first and the last end of validities, `c` for the
//! chain, `a` for the trust list, `e` for excluded names; the digest of the file; the date, or the
//! lower end of the dates, as `20250101000000Z`; the upper end; an offset in the file in two octets
//! with the octet to put there; a trust list, the time in seconds since 1601, and the names
//! excluded, with `+` between. `-` is none. For a trust list that isn't read, why is printed.

mod asked;
mod case;
mod line;
mod lists;
mod owned;

use anyhow::{Result, bail};
use case::{Case, answer_to_policy, case_of};
use std::alloc::Global;

/// The lines for a vector.
pub fn answer(alloc: Global, row: &str) -> Result<String> {
    let words: Vec<&str> = row.split(' ').collect(alloc)?;
    let [file, table, policies @ ..] = words.as_slice() else {
        bail!("a case has a file and a table");
    };
    let case = case_of(alloc, file, table)?;
    answer_to_policies(alloc, &case, policies)
}

fn answer_to_policies(alloc: Global, case: &Case, policies: &[&str]) -> Result<String> {
    let mut lines = String::new(alloc);
    for policy in policies {
        if !lines.is_empty() {
            lines.push('\n')?;
        }
        lines.push_str(&answer_to_policy(alloc, case, policy)?)?;
    }
    Ok(lines)
}
