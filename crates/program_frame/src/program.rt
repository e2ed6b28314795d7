//! Programs over files.

ghost use Rattle.std.specs.Prelude.{◌≡◌, ℕ, List, Option, map, string_bytes};
ghost use Rattle.program_frame.specs.Commands.{Program as TheProgram};
ghost use Rattle.program_frame.specs.Run.{IsRun};
ghost use Rattle.program_frame.specs.Shelf.{ShelfState};
ghost use Rattle.program_frame.specs.Statuses as statuses;

use crate::{Shelf, Sink};
use std::alloc::Global;

/// A program that runs the command that the words of its command line request.
pub trait Program {
    /// A command, as contracts see it.
    ghost Asked: { Type 0 };

    /// The program.
    ghost program: { TheProgram Asked };

    /// What acceptance means, of words, of a shelf before and after the run, and of the contents of
    /// the sink before and after it.
    ghost Acceptance: { (words : List (List ℕ)) → (shelf shelf_now : ShelfState)
        → (held held_now : Option (List ℕ)) → Type 0 };

    /// Runs the command, with files of the shelf; writes its line to the sink, if there is one, and
    /// returns the exit status.
    fn run<F: Shelf, O: Sink>(
        &self,
        alloc: Global,
        words: &[String],
        shelf: &mut F,
        out: &mut O,
    ) -> u8
        ensures accepted { result ≡ statuses.accepted
            → Acceptance (map string_bytes words.now) (F.state shelf.old) (F.state shelf.new)
            (O.state out.old).held (O.state out.new).held }
        // What each status means, and when it is returned.
        ensures ends { IsRun program (map string_bytes words.now) F.state shelf.old shelf.new
            (O.state out.old) (O.state out.new) result };
}
