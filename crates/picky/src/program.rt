//! A run of the program: a demonstration, or a command over files.

ghost use Rattle.std.specs.Prelude.{◌≡◌, ℕ, map, string_bytes};
ghost use Rattle.demo_core.specs.Run as demonstration;
ghost use Rattle.demo_core.specs.Words as demo_words;
ghost use Rattle.picky_check.specs.Commands.{program};
ghost use Rattle.picky_check.specs.Vouched.{IsVouched};
ghost use Rattle.program_frame.specs.Run.{IsRun};
ghost use Rattle.program_frame.specs.Statuses as statuses;

use demo_core::count_of;
use picky_check::{Shelf, Sink};
use std::alloc::Global;

/// Runs the command that the words request: `demo N` is a demonstration of N steps, all others are
/// those of `picky_check`, with files of the shelf. Writes one line to the sink if there is a
/// result, and returns the exit status.
pub fn run<F: Shelf, O: Sink>(alloc: Global, words: &[String], shelf: &mut F, out: &mut O) -> u8
    // Acceptance means vouched for, unless the words request a demonstration.
    ensures vouched_for { demo_words.AsksForNothing (map string_bytes words.now)
        → result ≡ statuses.accepted
        → IsVouched (map string_bytes words.now) (F.state shelf.old) (F.state shelf.new)
        (O.state out.old).held (O.state out.new).held }
    // What each status means for a demonstration, and when it is returned; nothing is read.
    ensures demonstrated { (count : ℕ) → demo_words.AsksFor (map string_bytes words.now) count
        → demonstration.IsRun count O.state out.old out.new result × (shelf.new ≡ shelf.old) }
    // What each status means for all other words, when it is returned, and what is read and written.
    ensures ends { demo_words.AsksForNothing (map string_bytes words.now)
        → IsRun program (map string_bytes words.now) F.state shelf.old shelf.new
        (O.state out.old) (O.state out.new) result }
{
    match count_of(words) {
        Some(count) => demo_core::run(alloc, count, out),
        None => picky_check::run(alloc, words, shelf, out),
    }
}
