//! The results of `check_pe` for programs of Windows.
//!
//! A vector is a program and the text of a verdict table, in hexadecimal, and a moment as in
//! GeneralizedTime, at which certificates must be valid.

use anyhow::{Result, bail};
use authenticode_core::{Accepted, Policy};
use pe_image::{PeCheckError, check_pe};
use std::alloc::Global;
use x509_core::DateCheck;
use xgolden::{date_of, octets_of, table_of};

/// The line for a vector.
pub fn answer(alloc: Global, row: &str) -> Result<String> {
    let words: Vec<&str> = row.split(' ').collect(alloc)?;
    let [file, table, moment] = words.as_slice() else {
        bail!("a vector has three words");
    };
    let file = octets_of(alloc, file)?;
    let table = table_of(alloc, table)?;
    let policy = policy_at(alloc, moment)?;
    match check_pe(alloc, &file, policy, &table) {
        Ok(accepted) => accepted_line(alloc, &accepted),
        Err(error) => refused_line(alloc, &error),
    }
}

/// All checks at a moment, but no trust list.
fn policy_at(alloc: Global, moment: &str) -> Result<Policy<'static>> {
    let mut policy = Policy::new(alloc);
    policy.date = DateCheck::Exact(date_of(moment)?);
    policy.against_list = false;
    Ok(policy)
}

fn accepted_line(alloc: Global, accepted: &Accepted) -> Result<String> {
    Ok(format!(in alloc;
        "accepted {:?} {:?} {:?}",
        accepted.signer,
        accepted.path.as_slice(),
        accepted.excuse
    )?)
}

fn refused_line(alloc: Global, error: &PeCheckError) -> Result<String> {
    let name = error.name(alloc)?;
    Ok(format!(in alloc; "refused {name}")?)
}
