//! The line that a run reports, and its status.

ghost use Rattle.std.specs.Prelude.{◌≡◌, IfOk, string_bytes};
ghost use Rattle.program_frame.specs.Reports.{IsReported};
ghost use Rattle.pe_image.specs.Report.{accepted_line, refused_line, reporting};

use crate::error::PeCheckError;
use authenticode_core::Accepted;
use program_frame::{ACCEPTED, REFUSED, Report, Stop};
use std::alloc::{AllocError, Global};

/// The report of the result of a check.
pub(crate) fn report_of(
    alloc: Global,
    answer: &Result<Accepted, PeCheckError>,
) -> Result<Report, Stop>
    ensures { IsReported reporting answer.now result }
{
    match answer {
        Ok(accepted) => Ok(Report {
            status: ACCEPTED,
            line: accepted_line(alloc, accepted)?,
        }),
        Err(PeCheckError::Memory) => Err(Stop::Memory),
        Err(error) => Ok(Report {
            status: REFUSED,
            line: refused_line(alloc, error)?,
        }),
    }
}

/// The line of an accepted program, `accepted signer=S path=P,P excuse=E` and a newline.
fn accepted_line(alloc: Global, accepted: &Accepted) -> Result<String, AllocError>
    ensures { IfOk result (λ line. string_bytes line ≡ accepted_line accepted.now) }
{
    format!(in alloc; "accepted {accepted}\n")
}

/// The line of a refused program, `refused NAME` and a newline.
fn refused_line(alloc: Global, error: &PeCheckError) -> Result<String, AllocError>
    ensures { IfOk result (λ line. string_bytes line ≡ refused_line error.now) }
{
    format!(in alloc; "refused {}\n", error.name(alloc)?)
}
