//! The report of a run.

ghost use Rattle.std.specs.Prelude.{◌≡◌};
ghost use Rattle.der_core.specs.Counts.{FailsOnce};
ghost use Rattle.program_frame.specs.Ending.{Delivers, Ends};
ghost use Rattle.program_frame.specs.Sink.{KeepsCapacity};
ghost use Rattle.program_frame.specs.Statuses as statuses;

use crate::stop::SINK_FAILED;
use crate::{Sink, Stop, write_report};

/// The line of a run, with a newline at its end, and its exit status: ACCEPTED or REFUSED.
#[derive(Debug, Drop)]
pub struct Report {
    pub status: u8,
    pub line: String,
}

/// Writes the line of a report. Returns the report's status if the sink accepted all of it.
pub fn deliver<O: Sink>(out: &mut O, report: &Report) -> u8
    ensures delivered { Delivers report.now (O.state out.old) (O.state out.new) result }
    ensures capacity { KeepsCapacity (O.state out.old) (O.state out.new) }
    ensures once { FailsOnce (result ≡ statuses.sink_failed) (O.state out.old).faults
        (O.state out.new).faults }
{
    match write_report(out, report.line.as_str()) {
        Ok(()) => report.status,
        Err(_) => SINK_FAILED,
    }
}

/// Ends a run: delivers its report, if there is one, and returns the exit status.
pub(crate) fn finish<O: Sink>(out: &mut O, ended: Result<Report, Stop>) -> u8
    ensures ends { Ends ended (O.state out.old) (O.state out.new) result }
    ensures capacity { KeepsCapacity (O.state out.old) (O.state out.new) }
    ensures once { FailsOnce (result ≡ statuses.sink_failed) (O.state out.old).faults
        (O.state out.new).faults }
{
    match ended {
        Ok(report) => deliver(out, &report),
        Err(stop) => stop.status(),
    }
}
