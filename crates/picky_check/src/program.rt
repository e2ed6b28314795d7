//! A run of the program: words, files, report, and exit status.

ghost use Rattle.std.specs.Prelude.{◌≡◌, map, string_bytes};
ghost use Rattle.program_frame.specs.Run.{IsRun};
ghost use Rattle.program_frame.specs.Statuses as statuses;
ghost use Rattle.picky_check.specs.Commands.{program};
ghost use Rattle.picky_check.specs.Vouched.{IsVouched};
ghost use Rattle.picky_check.specs.Words.{Command};

use crate::words::command_of;
use authenticode_core::one_signed_data;
use program_frame::{KnownTable, Program, Shelf, Sink, run_by_table};
use std::alloc::Global;

/// Runs the command that the words request, with files of the shelf; writes one line to the sink if
/// there is a result, and returns the exit status, one of the constants here.
pub fn run<F: Shelf, O: Sink>(alloc: Global, words: &[String], shelf: &mut F, out: &mut O) -> u8
    // Acceptance means vouched for.
    ensures vouched_for { result ≡ statuses.accepted
        → IsVouched (map string_bytes words.now) (F.state shelf.old) (F.state shelf.new)
        (O.state out.old).held (O.state out.new).held }
    // What each status means, and when it is returned.
    ensures ends { IsRun program (map string_bytes words.now) F.state shelf.old shelf.new
        (O.state out.old) (O.state out.new) result }
{
    Commands { known: None }.run(alloc, words, shelf, out)
}

/// The program. A verdict table may be known before the files are read: a file with its text isn't
/// parsed again.
#[derive(Clone, Copy)]
pub struct Commands<'a> {
    pub known: Option<&'a KnownTable>,
}

impl Program for Commands<'_> {
    ghost Asked = { Command };

    ghost program = { program };

    ghost Acceptance = { IsVouched };

    fn run<F: Shelf, O: Sink>(
        &self,
        alloc: Global,
        words: &[String],
        shelf: &mut F,
        out: &mut O,
    ) -> u8 {
        // a law that the proof rests on; the call does nothing
        one_signed_data();
        run_by_table(alloc, &command_of(alloc, words), self.known, shelf, out)
    }
}
