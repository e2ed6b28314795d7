//! A run of a demonstration: its line, and its exit status.

ghost use Rattle.std.specs.Prelude.{◌≡◌, string_bytes, IfOk};
ghost use Rattle.program_frame.specs.Reports.{Reports};
ghost use Rattle.demo_core.specs.Demonstration.{IsDemonstration, report_line};
ghost use Rattle.demo_core.specs.Run.{IsRun, reporting};

use crate::demonstration::{Demonstration, demonstrate};
use program_frame::{ACCEPTED, Report, Sink, Stop, deliver};
use std::alloc::{AllocError, Global};

/// Demonstrates so many steps: writes the line of the report to the sink, and returns the exit
/// status.
pub fn run<O: Sink>(alloc: Global, count: u8, out: &mut O) -> u8
    // What each status means, of which there are three, and what is written.
    ensures { IsRun count O.state out.old out.new result }
{
    match report_of(alloc, count) {
        Ok(report) => deliver(out, &report),
        Err(stop) => stop.status(),
    }
}

/// The report of a demonstration of so many steps. Only out of memory is an error.
fn report_of(alloc: Global, count: u8) -> Result<Report, Stop>
    ensures { Reports reporting (IsDemonstration count) result }
{
    let Ok(demonstration) = demonstrate(alloc, count) else {
        return Err(Stop::Memory);
    };
    Ok(Report {
        status: ACCEPTED,
        line: demonstration_line(alloc, &demonstration)?,
    })
}

/// The line of a demonstration, `demo steps=N roots=R accepted=K sum=S` and a newline.
pub fn demonstration_line(
    alloc: Global,
    demonstration: &Demonstration,
) -> Result<String, AllocError>
    ensures { IfOk result (λ line. string_bytes line ≡ report_line demonstration.now) }
{
    format!(in alloc; "{demonstration}\n")
}
