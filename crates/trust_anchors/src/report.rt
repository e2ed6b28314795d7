//! The line that a run reports, and its status.

ghost use Rattle.std.specs.Prelude.{◌≡◌, IfOk, string_bytes};
ghost use Rattle.program_frame.specs.Reports.{IsReportOf};
ghost use Rattle.trust_anchors.specs.Commands.{reporting};
ghost use Rattle.trust_anchors.specs.PathText.{anchored_line};

use crate::path::AnchoredPath;
use program_frame::{ACCEPTED, REFUSED, Report};
use std::alloc::{AllocError, Global};

/// What a run reports.
#[derive(Debug, Drop)]
pub(crate) enum Answer {
    /// The first of the shortest paths.
    Anchored(AnchoredPath),
    /// There is no path.
    NoPath,
    /// A file of a certificate isn't one.
    Unread,
}

/// The report of an answer.
pub(crate) fn report_of(alloc: Global, answer: &Answer) -> Result<Report, AllocError>
    ensures { IfOk result (IsReportOf reporting answer.now) }
{
    match answer {
        Answer::Anchored(path) => Ok(Report {
            status: ACCEPTED,
            line: anchored_line(alloc, path)?,
        }),
        Answer::NoPath => Ok(Report {
            status: REFUSED,
            line: String::from_str(alloc, "refused NoAnchoredPath\n")?,
        }),
        Answer::Unread => Ok(Report {
            status: REFUSED,
            line: String::from_str(alloc, "refused Asn1Deserialization\n")?,
        }),
    }
}

/// The line of a path, `anchored pool=P,P anchor=A` and a newline: indices in decimal, those of the
/// pool separated by commas.
pub fn anchored_line(alloc: Global, path: &AnchoredPath) -> Result<String, AllocError>
    ensures { IfOk result (λ line. string_bytes line ≡ anchored_line path.now) }
{
    format!(in alloc; "anchored {path}\n")
}
