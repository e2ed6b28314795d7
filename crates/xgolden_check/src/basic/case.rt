//! A case, and its output.

use crate::basic::line::{accepted_line, refused_line};
use crate::change::changed;
use anyhow::Result;
use authenticode_core::{Accepted, CheckError, Policy, check_wincert};
use der_core::Octets;
use names_core::NameList;
use sig_core::VerdictTable;
use std::alloc::Global;
use x509_core::DateCheck;
use xgolden::{octets_of, table_of};

/// A signature file, its policy, and a verdict table.
#[derive(Drop)]
pub struct Case {
    file: Vec<u8>,
    policy: Policy<'static>,
    table: VerdictTable,
}

/// The case from three words.
pub fn case_of(alloc: Global, file: &str, hash: &str, table: &str) -> Result<Case> {
    Ok(Case {
        file: octets_of(alloc, file)?,
        policy: policy_of(alloc, hash)?,
        table: table_of(alloc, table)?,
    })
}

/// Basic validation alone, with a digest.
fn policy_of(alloc: Global, word: &str) -> Result<Policy<'static>> {
    let hash = octets_of(alloc, word)?;
    Ok(Policy {
        basic: true,
        file_hash: Some(Octets::from_slice(alloc, &hash)?),
        signing: false,
        not_before: false,
        not_after: false,
        chain: false,
        date: DateCheck::Absent,
        against_list: false,
        list: None,
        now: 0,
        exclude: false,
        excluded: NameList::new(alloc),
    })
}

/// The line for the file of a case.
pub fn answer_to_file(alloc: Global, case: &Case) -> Result<String> {
    answer(alloc, case, &case.file)
}

/// The line for the result for a file in a case.
fn answer(alloc: Global, case: &Case, file: &[u8]) -> Result<String> {
    line_of(
        alloc,
        &check_wincert(alloc, file, &case.policy, &case.table),
    )
}

/// The line for a result.
fn line_of(alloc: Global, answer: &Result<Accepted, CheckError>) -> Result<String> {
    match answer {
        Ok(accepted) => accepted_line(alloc, accepted),
        Err(error) => refused_line(alloc, error),
    }
}

/// The line for the result for the file with a change.
pub fn answer_to_change(alloc: Global, case: &Case, change: &str) -> Result<String> {
    let file = changed(alloc, &case.file, change)?;
    answer(alloc, case, &file)
}
