//! The line that a run reports, and its status.

ghost use Rattle.std.specs.Prelude.{◌≡◌, IfOk, string_bytes};
ghost use Rattle.program_frame.specs.Reports.{IsReportOf};
ghost use Rattle.ca_register.specs.Answer.{count_line, issued_text, reporting};

use program_frame::{ACCEPTED, REFUSED, Report};
use std::alloc::{AllocError, Global};

/// What a run reports.
#[derive(Clone, Copy, Debug)]
pub(crate) enum Answer {
    /// All certificates are issued; so many, and so many are accepted.
    Counted { issued: usize, accepted: usize },
    /// The issuer of a line isn't an earlier one.
    NoIssuer,
    /// The issuer of a line isn't a CA.
    NotCa,
    /// The path length of an ancestor of a line is too short.
    TooDeep,
}

/// The report of an answer.
pub(crate) fn report_of(alloc: Global, answer: Answer) -> Result<Report, AllocError>
    ensures { IfOk result (IsReportOf reporting answer) }
{
    match answer {
        Answer::Counted { issued, accepted } => Ok(Report {
            status: ACCEPTED,
            line: count_line(alloc, issued, accepted)?,
        }),
        Answer::NoIssuer => refusal(alloc, "refused NoIssuer\n"),
        Answer::NotCa => refusal(alloc, "refused NotCa\n"),
        Answer::TooDeep => refusal(alloc, "refused TooDeep\n"),
    }
}

/// The line of a count, `ca issued=N accepted=K` and a newline.
fn count_line(alloc: Global, issued: usize, accepted: usize) -> Result<String, AllocError>
    ensures { IfOk result (λ line. string_bytes line ≡ count_line issued accepted) }
{
    let issued = issued_text(alloc, issued)?;
    format!(in alloc; "{issued} accepted={accepted}\n")
}

fn issued_text(alloc: Global, issued: usize) -> Result<String, AllocError>
    ensures { IfOk result (λ text. string_bytes text ≡ issued_text issued) }
{
    format!(in alloc; "ca issued={issued}")
}

fn refusal(alloc: Global, line: &str) -> Result<Report, AllocError>
    ensures { IfOk result (λ report. (report.status ≡ 1)
        × (string_bytes report.line ≡ line.now)) }
{
    Ok(Report {
        status: REFUSED,
        line: String::from_str(alloc, line)?,
    })
}
