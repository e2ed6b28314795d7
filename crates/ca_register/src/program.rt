//! A run of the program.

ghost use Rattle.std.specs.Prelude.{◌≡◌, map, string_bytes};
ghost use Rattle.program_frame.specs.Run.{IsRun};
ghost use Rattle.program_frame.specs.Statuses as statuses;
ghost use Rattle.ca_register.specs.Commands.{program};
ghost use Rattle.ca_register.specs.Reported.{IsReportedCount};

use crate::words::command_of;
use program_frame::{Shelf, Sink};
use std::alloc::Global;

/// Runs the program `picky_ca` on the words of its command line, FILE and DATE, with the file of
/// the shelf: issues a certificate for each line of FILE under the demonstration scheme, counts
/// those that are accepted at DATE, writes one line to the sink if there is a result, and returns
/// the exit status, one of the constants here.
pub fn run<F: Shelf, O: Sink>(alloc: Global, words: &[String], shelf: &mut F, out: &mut O) -> u8
    // Acceptance means that all certificates were issued, and that as many as the line says are
    // accepted, each over all its ancestors.
    ensures counted { result ≡ statuses.accepted
        → IsReportedCount (map string_bytes words.now) (F.state shelf.old) (F.state shelf.new)
        (O.state out.old).held (O.state out.new).held }
    // What each status means, when it is returned, and what is read and written.
    ensures ends { IsRun program (map string_bytes words.now) F.state shelf.old shelf.new
        (O.state out.old) (O.state out.new) result }
{
    program_frame::run(alloc, &Ok(command_of(words)), shelf, out)
}
