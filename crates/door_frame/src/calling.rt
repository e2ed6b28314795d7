//! A run of a program over octets that the caller keeps.

ghost use Rattle.std.specs.Prelude.{◌≡◌, ◌≤◌, drop, length, take};
ghost use Rattle.door_frame.specs.Call.{IsAcceptedCall, IsCall, IsCallOf};
ghost use Rattle.door_frame.specs.Files.{AreLent, lent_files};
ghost use Rattle.door_frame.specs.Words.{lines_of};
ghost use Rattle.program_frame.specs.Shelf.{Files};
ghost use Rattle.program_frame.specs.Statuses as statuses;

use crate::handing::{HandedOut, hand_out};
use crate::words::words_of;
use crate::{LentFile, LentShelf};
use program_frame::{MemSink, OUT_OF_MEMORY, Program, USAGE};
use std::alloc::Global;

/// Runs a program on words, one a line, over these files, if there was memory for them. Returns the
/// exit status; the line is at the start of `line`, and `written` is its length.
pub fn call<P: Program>(
    alloc: Global,
    program: &P,
    words: &[u8],
    files: Option<&[LentFile<'_>]>,
    line: &mut [u8],
    written: &mut usize,
) -> u8
    // No more is written than the buffer has, and nothing behind the line.
    ensures fits { written.new ≤ length line.new }
    ensures behind { drop written.new line.new ≡ drop written.new line.old }
    // What acceptance of the program means.
    ensures accepted { result ≡ statuses.accepted → (given : Files) → AreLent files.entry given
        → IsAcceptedCall P.Acceptance words.now given (take written.new line.new) }
    // What each status means, and when it is returned.
    ensures called { (given : Files) → AreLent files.entry given
        → IsCallOf P.program words.now given (length line.old) (take written.new line.new) result }
{
    let Ok(words) = str::from_utf8(words) else {
        *written = 0;
        return USAGE;
    };
    let Some(files) = files else {
        *written = 0;
        return OUT_OF_MEMORY;
    };
    let handed = run_over(alloc, program, words, files, line);
    *written = handed.written;
    handed.status
}

/// A run over borrowed files, whose line is handed out.
fn run_over<P: Program>(
    alloc: Global,
    program: &P,
    words: &str,
    files: &[LentFile<'_>],
    line: &mut [u8],
) -> HandedOut
    ensures fits { result.written ≤ length line.new }
    ensures behind { drop result.written line.new ≡ drop result.written line.old }
    ensures accepted { result.status ≡ statuses.accepted → IsAcceptedCall P.Acceptance words.now
        (lent_files files.now) (take result.written line.new) }
    ensures called { IsCall P.program (lines_of words.now) (lent_files files.now) (length line.old)
        (take result.written line.new) result.status }
{
    let Ok(words) = words_of(alloc, words) else {
        return HandedOut::out_of_memory();
    };
    let Ok(mut sink) = MemSink::with_room(alloc, line.len()) else {
        return HandedOut::out_of_memory();
    };
    let mut shelf = LentShelf::new(files);
    let status = program.run(alloc, &words, &mut shelf, &mut sink);
    hand_out(status, sink.held(), line)
}
