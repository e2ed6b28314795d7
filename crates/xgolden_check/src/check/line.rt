//! The line for a result: that of a report, and the text of a refusal.

use anyhow::Result;
use authenticode_core::{Accepted, AuthenticodeError, CheckError, CtlError};
use std::alloc::Global;

/// The line for a result.
pub fn answer_line(alloc: Global, answer: &Result<Accepted, CheckError>) -> Result<String> {
    match answer {
        Ok(accepted) => accepted_line(alloc, accepted),
        Err(error) => refused_line(alloc, error),
    }
}

/// The line for a trust list that isn't read.
pub fn unread_line(alloc: Global, error: CtlError) -> Result<String> {
    refused_line(alloc, &CheckError::from(AuthenticodeError::from(error)))
}

fn accepted_line(alloc: Global, accepted: &Accepted) -> Result<String> {
    Ok(format!(in alloc; "accepted {accepted}")?)
}

fn refused_line(alloc: Global, error: &CheckError) -> Result<String> {
    let name = error.name(alloc)?;
    Ok(format!(in alloc; "refused {name} {error}")?)
}
