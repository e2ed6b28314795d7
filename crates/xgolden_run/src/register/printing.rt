//! Printing what a register returns.

use anyhow::{Context, Result, bail};
use ca_register::{IssueError, Register};
use names_core::UtcDate;
use sig_core::Scheme;
use std::alloc::Global;
use x509_core::CertError;
use xgolden::Line;

/// Appends the index, or the error with its fields.
pub fn print_answer(answer: &Result<usize, IssueError>, line: &mut Line) -> Result<()> {
    match answer {
        Ok(index) => line.shown(index),
        Err(IssueError::NoIssuer { issuer, len }) => {
            line.word("NoIssuer");
            line.shown(issuer);
            line.shown(len);
        }
        Err(IssueError::NotCa) => line.word("NotCa"),
        Err(IssueError::TooDeep { ancestor }) => {
            line.word("TooDeep");
            line.shown(ancestor);
        }
        Err(IssueError::Request(_)) => line.word("Request"),
        Err(IssueError::Build(_)) => line.word("Build"),
        Err(IssueError::WrongKey(_)) => line.word("WrongKey"),
        Err(IssueError::Memory) => bail!("out of memory"),
    }
    Ok(())
}

/// Appends a word: 1 for each certificate that is accepted at a date, 0 for each other.
pub fn print_marks<S: Scheme + Drop>(
    alloc: Global,
    register: &Register<S>,
    date: &UtcDate,
    line: &mut Line,
) -> Result<()> {
    line.mark(" ");
    for index in 0..register.len() {
        line.mark(mark_of(alloc, register, index, date)?);
    }
    Ok(())
}

/// 1 if the certificate is accepted at a date, else 0.
fn mark_of<S: Scheme + Drop>(
    alloc: Global,
    register: &Register<S>,
    index: usize,
    date: &UtcDate,
) -> Result<&'static str> {
    let (from, to) = register.usable(index).context("there is one")?;
    let usable = from <= *date && *date <= to;
    if index >= register.len() {
        bail!("there is one");
    }
    let accepted = match register.verify(alloc, index, date) {
        Ok(()) => true,
        Err(CertError::InvalidCertificate { .. }) => false,
        Err(CertError::InvalidChain { .. }) => false,
        Err(error) => bail!("{error}"),
    };
    if accepted != usable {
        bail!("the register and the validator differ on {index}");
    }
    Ok(if accepted { "1" } else { "0" })
}
