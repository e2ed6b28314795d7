//! A run of the program: words, files, report, and exit status.

ghost use Rattle.std.specs.Prelude.{◌≡◌, map, string_bytes};
ghost use Rattle.program_frame.specs.Run.{IsRun};
ghost use Rattle.program_frame.specs.Statuses as statuses;
ghost use Rattle.trust_anchors.specs.Commands.{program};
ghost use Rattle.trust_anchors.specs.Reported.{IsReportedPath};

use crate::words::command_of;
use program_frame::{Shelf, Sink, run_by_table};
use std::alloc::Global;

/// Runs the program `picky_anchor` on the words of its command line, with files of the shelf:
/// searches the shortest path from a certificate to an anchor, writes one line to the sink if there
/// is a result, and returns the exit status, one of the constants here.
pub fn run<F: Shelf, O: Sink>(alloc: Global, words: &[String], shelf: &mut F, out: &mut O) -> u8
    // Acceptance means that the line is the first of the shortest paths.
    ensures anchored { result ≡ statuses.accepted
        → IsReportedPath (map string_bytes words.now) (F.state shelf.old) (F.state shelf.new)
        (O.state out.old).held (O.state out.new).held }
    // What each status means, and when it is returned.
    ensures ends { IsRun program (map string_bytes words.now) F.state shelf.old shelf.new
        (O.state out.old) (O.state out.new) result }
{
    run_by_table(alloc, &Ok(command_of(words)), None, shelf, out)
}
