//! Commands, and the run of one.

ghost use Rattle.std.specs.Prelude.{◌≡◌, ℕ, List, length};
ghost use Rattle.program_frame.specs.Answering.{IsAnswering, IsReport};
ghost use Rattle.program_frame.specs.Commands.{IsParsed, Program, parsed_held};
ghost use Rattle.program_frame.specs.Owned.{contents_held, names_held};
ghost use Rattle.program_frame.specs.Run.{IsRun};

use crate::files::read_files;
use crate::report::finish;
use crate::{Contents, Names, OUT_OF_MEMORY, Report, Shelf, Sink, Stop, USAGE};
use std::alloc::{AllocError, Global};

/// What the words of a command line request: it has files, and an answer about their contents.
pub trait Command {
    /// A command, as contracts see it.
    ghost Asked: { Type 0 };

    /// The program.
    ghost program: { Program Asked };

    /// The command.
    ghost asked: { Self → Asked };

    /// The names of the files, in the order of reading.
    fn names(&self) -> Names<'_>
        ensures { names_held result ≡ program.files_of (asked self.now) };

    /// The report on the contents of the files, which are as many as the command has.
    fn report(&self, alloc: Global, read: &Contents) -> Result<Report, Stop>
        requires { length (contents_held read.now) ≡ length (program.files_of (asked self.now)) }
        ensures { IsReport program (asked self.now) (contents_held read.now) result };
}

/// Runs the command that the words of a command line request, as a parser found it in them: reads
/// its files, writes the line of its answer, if there is one, and returns the exit status.
pub fn run<C: Command, F: Shelf, O: Sink>(
    alloc: Global,
    parsed: &Result<Option<C>, AllocError>,
    shelf: &mut F,
    out: &mut O,
) -> u8
    ensures { (words : List (List ℕ))
        → IsParsed C.program words (parsed_held C.asked parsed.now)
        → IsRun C.program words F.state shelf.old shelf.new (O.state out.old) (O.state out.new)
        result }
{
    match parsed {
        Ok(found) => match found {
            Some(command) => finish(out, answer(alloc, shelf, command)),
            None => USAGE,
        },
        Err(_) => OUT_OF_MEMORY,
    }
}

/// Reads the files of a command, and reports on their contents.
fn answer<C: Command, F: Shelf>(alloc: Global, shelf: &mut F, command: &C) -> Result<Report, Stop>
    ensures { IsAnswering C.program (F.state shelf.old) (F.state shelf.new) (C.asked command.now)
        result }
{
    let contents = read_files(alloc, shelf, command.names())?;
    command.report(alloc, &contents)
}
