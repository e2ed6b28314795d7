//! The questions of `picky_ask` over files in one pool.

ghost use Rattle.std.specs.Prelude.{◌≡◌, ◌≤◌, drop, length, take};
ghost use Rattle.door_frame.specs.Call.{IsCallOf};
ghost use Rattle.door_frame.specs.Pool.{pooled_files};
ghost use Rattle.signature_questions.specs.Commands.{program};

use door_frame::{borrowed, call, pooled};
use signature_questions::Commands;
use std::alloc::Global;

/// Writes the questions that a check of a signature file, or of a chain of certificates, may ask, as
/// the program `picky_ask` does on these words, one a line, where the files 0, 1 and so on, at most
/// 32, are those of the pool, one after another, with these lengths; and there are no others.
/// Returns the exit status; the lines are at the start of `lines`, and `written` is their length.
#[unsafe(no_mangle)]
pub extern "C" fn picky_ask_bytes(
    alloc: Global,
    words: &[u8],
    pool: &[u8],
    lengths: &[usize],
    lines: &mut [u8],
    written: &mut usize,
) -> u8
    // No more is written than the buffer has, and nothing behind the lines.
    ensures fits { written.new ≤ length lines.new }
    ensures behind { drop written.new lines.new ≡ drop written.new lines.old }
    // What each status means, and when it is returned.
    ensures called { IsCallOf program words.now (pooled_files pool.now lengths.now)
        (length lines.old) (take written.new lines.new) result }
{
    let files = pooled(alloc, pool, lengths);
    call(alloc, &Commands, words, borrowed(&files), lines, written)
}
