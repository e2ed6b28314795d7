//! Which certificates of issuing histories are accepted at a date.
//!
//! A vector has a date, and the steps of a history in their order, each as
//!
//! ```text
//! ISSUER,FLAG,LENGTH,FIRST,LAST,HOW,NAME
//! ```
//!
//! ISSUER is the index of an earlier step, counted from 0, LENGTH a path length, `-` for none. FLAG
//! is `ca` or `end`. FIRST, LAST and the date are the contents of a GeneralizedTime. HOW is
//! `request` if the certificate is issued for a certification request, `key` if for a name and a
//! key, and NAME is `issuer` if the name is the issuer's, else `own`. The certificate of each step
//! is built, written and read, and validated with all its ancestors. The line has 1 for each step
//! whose certificate is accepted, 0 for each other.

mod certificates;
mod steps;

use anyhow::{Context, Result, bail};
use certificates::issue;
use names_core::UtcDate;
use sig_core::DemoScheme;
use std::alloc::Global;
use steps::{Step, steps_of};
use x509_core::{Cert, CertError};
use xgolden::{Line, date_of};

/// The output for a vector.
pub fn answer(alloc: Global, row: &str) -> Result<String> {
    let (date, steps) = row
        .split_once(' ')
        .context("a vector has a date and steps")?;
    let date = date_of(date)?;
    let steps = steps_of(alloc, steps)?;
    let certificates = issue(alloc, &steps)?;
    let mut line = Line::new(alloc);
    for index in 0..steps.len() {
        let chain = chain_of(alloc, &steps, &certificates, index)?;
        line.mark(mark_of(&verified(alloc, &chain, &date))?);
    }
    line.answer_to(row)
}

/// The certificate of a step and those of its ancestors, the nearest first, as they are read.
fn chain_of(
    alloc: Global,
    steps: &[Step],
    certificates: &[Vec<u8>],
    index: usize,
) -> Result<Vec<Cert>> {
    let mut chain = Vec::new(alloc);
    let mut next = Some(index);
    for _ in 0..steps.len() {
        let Some(at) = next else {
            break;
        };
        let octets = certificates.get(at).context("there is such a step")?;
        chain.push(Cert::from_der(alloc, octets.as_slice())?)?;
        next = steps.get(at).context("there is such a step")?.issuer;
    }
    Ok(chain)
}

/// Validates the first certificate with the others, its ancestors.
fn verified(alloc: Global, chain: &[Cert], date: &UtcDate) -> Result<(), CertError> {
    match chain.split_first() {
        Some((checked, ancestors)) => checked
            .verifier()
            .exact_date(date)
            .chain(ancestors.iter())
            .verify(alloc, &DemoScheme::new()),
        None => Err(CertError::Memory),
    }
}

fn mark_of(answer: &Result<(), CertError>) -> Result<&'static str> {
    match answer {
        Ok(()) => Ok("1"),
        Err(CertError::InvalidCertificate { .. }) => Ok("0"),
        Err(CertError::InvalidChain { .. }) => Ok("0"),
        Err(error) => bail!("{error}"),
    }
}
