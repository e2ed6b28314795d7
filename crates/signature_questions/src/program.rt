//! A run of the program.

ghost use Rattle.std.specs.Prelude.{⊤, map, string_bytes};
ghost use Rattle.program_frame.specs.Run.{IsRun};
ghost use Rattle.signature_questions.specs.Commands.{program};
ghost use Rattle.signature_questions.specs.Words.{Command};

use crate::words::command_of;
use program_frame::{Program, Shelf, Sink};
use std::alloc::Global;

/// Writes the questions about a signature file, or about files with certificates as a chain, a line
/// each, with files of the shelf; and returns the exit status, one of the constants of
/// `program_frame`. Octets that are no signature file, or no certificate, are refused by a line
/// with the cause.
pub fn run<F: Shelf, O: Sink>(alloc: Global, words: &[String], shelf: &mut F, out: &mut O) -> u8
    // What each status means, when it is returned, and what is read and written.
    ensures ends { IsRun program (map string_bytes words.now) F.state shelf.old shelf.new
        (O.state out.old) (O.state out.new) result }
{
    program_frame::run(alloc, &Ok(command_of(words)), shelf, out)
}

/// The program `picky_ask`.
#[derive(Clone, Copy, Debug)]
pub struct Commands;

impl Program for Commands {
    ghost Asked = { Command };

    ghost program = { program };

    // nothing but what each status means
    ghost Acceptance = { λ words shelf shelf_now held held_now. ⊤ };

    fn run<F: Shelf, O: Sink>(
        &self,
        alloc: Global,
        words: &[String],
        shelf: &mut F,
        out: &mut O,
    ) -> u8 {
        run(alloc, words, shelf, out)
    }
}
