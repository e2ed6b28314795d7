//! A case, and its output.

use crate::change::changed;
use crate::check::asked::{Asked, asked_of, policy_of};
use crate::check::line::{answer_line, unread_line};
use crate::check::lists::list_octets;
use crate::check::owned::kept_line;
use anyhow::Result;
use authenticode_core::{CertificateTrustList, Policy, check_wincert};
use sig_core::VerdictTable;
use std::alloc::Global;
use xgolden::{line_table_of, octets_of};

/// A signature file and a verdict table.
#[derive(Drop)]
pub struct Case {
    file: Vec<u8>,
    table: VerdictTable,
}

/// The case from two words.
pub fn case_of(alloc: Global, file: &str, table: &str) -> Result<Case> {
    Ok(Case {
        file: octets_of(alloc, file)?,
        table: line_table_of(alloc, table)?,
    })
}

/// The line for a policy and a change in a case. A trust list that isn't read is refused first.
pub fn answer_to_policy(alloc: Global, case: &Case, text: &str) -> Result<String> {
    let asked = asked_of(alloc, text)?;
    let Some(octets) = list_octets(alloc, &asked.list)? else {
        return asked_line(alloc, case, &asked, None);
    };
    match CertificateTrustList::from_der(alloc, &octets) {
        Ok(list) => asked_line(alloc, case, &asked, Some(&list)),
        Err(error) => unread_line(alloc, error),
    }
}

/// The line for what is asked, with a trust list.
fn asked_line(
    alloc: Global,
    case: &Case,
    asked: &Asked<'_>,
    list: Option<&CertificateTrustList>,
) -> Result<String> {
    let policy = policy_of(alloc, asked, list)?;
    if asked.change == "-" {
        return line_of(alloc, &case.file, &policy, &case.table);
    }
    let file = changed(alloc, &case.file, asked.change)?;
    line_of(alloc, &file, &policy, &case.table)
}

/// The line for the result, after `differs` if the result for the owned signature is another.
fn line_of(
    alloc: Global,
    file: &[u8],
    policy: &Policy<'_>,
    table: &VerdictTable,
) -> Result<String> {
    let line = file_line(alloc, file, policy, table)?;
    match kept_line(alloc, file, policy, table)? {
        Some(kept) if kept != line => Ok(format!(in alloc; "differs {line} from {kept}")?),
        _ => Ok(line),
    }
}

fn file_line(
    alloc: Global,
    file: &[u8],
    policy: &Policy<'_>,
    table: &VerdictTable,
) -> Result<String> {
    answer_line(alloc, &check_wincert(alloc, file, policy, table))
}
