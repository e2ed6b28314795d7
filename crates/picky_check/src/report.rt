//! The line that a run reports, and its status.

ghost use Rattle.std.specs.Prelude.{◌≡◌, IfOk, string_bytes};
ghost use Rattle.program_frame.specs.Reports.{IsReported};
ghost use Rattle.picky_check.specs.Report.{OfChain, OfSignature, accepted_line, parents_line, refused_chain_line, refused_line, reporting};

use authenticode_core::{Accepted, CheckError};
use program_frame::{ACCEPTED, REFUSED, Report, Stop};
use std::alloc::{AllocError, Global};
use x509_core::CertError;

/// The report of the result for a signature file.
pub(crate) fn report_of(
    alloc: Global,
    answer: &Result<Accepted, CheckError>,
) -> Result<Report, Stop>
    ensures { IsReported reporting (OfSignature answer.now) result }
{
    match answer {
        Ok(accepted) => Ok(Report {
            status: ACCEPTED,
            line: accepted_line(alloc, accepted)?,
        }),
        Err(CheckError::Memory) => Err(Stop::Memory),
        Err(error) => Ok(Report {
            status: REFUSED,
            line: refused_line(alloc, error)?,
        }),
    }
}

/// The report of the result for a certificate with this many parents.
pub(crate) fn chain_report_of(
    alloc: Global,
    answer: &Result<usize, CertError>,
) -> Result<Report, Stop>
    ensures { IsReported reporting (OfChain answer.now) result }
{
    match answer {
        Ok(count) => Ok(Report {
            status: ACCEPTED,
            line: parents_line(alloc, *count)?,
        }),
        Err(CertError::Memory) => Err(Stop::Memory),
        Err(error) => Ok(Report {
            status: REFUSED,
            line: refused_chain_line(alloc, error)?,
        }),
    }
}

/// The line of an accepted signature, `accepted signer=S path=P,P excuse=E` and a newline: indices
/// in decimal, those of the path separated by commas.
pub fn accepted_line(alloc: Global, accepted: &Accepted) -> Result<String, AllocError>
    ensures { IfOk result (λ line. string_bytes line ≡ accepted_line accepted.now) }
{
    format!(in alloc; "accepted {accepted}\n")
}

/// The line of a refused signature, `refused NAME` and a newline.
pub fn refused_line(alloc: Global, error: &CheckError) -> Result<String, AllocError>
    ensures { IfOk result (λ line. string_bytes line ≡ refused_line error.now) }
{
    format!(in alloc; "refused {}\n", error.name(alloc)?)
}

/// The line of a certificate that is accepted with this many parents, `accepted parents=K` and a
/// newline.
pub fn parents_line(alloc: Global, count: usize) -> Result<String, AllocError>
    ensures { IfOk result (λ line. string_bytes line ≡ parents_line count) }
{
    format!(in alloc; "accepted parents={count}\n")
}

/// The line of a certificate that is refused with its parents, `refused NAME` and a newline.
pub fn refused_chain_line(alloc: Global, error: &CertError) -> Result<String, AllocError>
    ensures { IfOk result (λ line. string_bytes line ≡ refused_chain_line error.now) }
{
    format!(in alloc; "refused {}\n", error.name(alloc)?)
}
