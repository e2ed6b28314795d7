//! The command `chain` of `picky_check` over a verdict table and certificates in one pool.

ghost use Rattle.std.specs.Prelude.{◌≡◌, ◌≤◌, ℕ, IfOk, List, Some, drop, length, take};
ghost use Rattle.door_frame.specs.Call.{IsCallOf};
ghost use Rattle.door_frame.specs.Files.{lent_files};
ghost use Rattle.door_frame.specs.Handle.{text_of};
ghost use Rattle.picky_check.specs.Commands.{program};
ghost use Rattle.picky_door.specs.Chain.{chain_files};
ghost use Rattle.picky_door.specs.Check.{IsVouchedCall};
ghost use Rattle.program_frame.specs.Statuses as statuses;

use door_frame::{LentFile, TableHandle, borrowed, call, pooled};
use picky_check::Commands;
use std::alloc::{AllocError, Global};

/// Runs the command that the words request, one a line, as the program does where the file TABLE has
/// these octets and the files 0, 1 and so on, at most 32, are those of the pool, one after another,
/// with these lengths; and there are no others. Returns the exit status; the line is at the start of
/// `line`, and `written` is its length.
#[unsafe(no_mangle)]
pub extern "C" fn picky_chain_bytes<'a>(
    alloc: Global,
    words: &[u8],
    table: &'a [u8],
    certificates: &'a [u8],
    lengths: &[usize],
    line: &mut [u8],
    written: &mut usize,
) -> u8
    // No more is written than the buffer has, and nothing behind the line.
    ensures fits { written.new ≤ length line.new }
    ensures behind { drop written.new line.new ≡ drop written.new line.old }
    // Acceptance means vouched for.
    ensures vouched_for { result ≡ statuses.accepted → IsVouchedCall words.now
        (chain_files (Some table.now) certificates.now lengths.now) (take written.new line.new) }
    // What each status means, and when it is returned.
    ensures called { IsCallOf program words.now
        (chain_files (Some table.now) certificates.now lengths.now)
        (length line.old) (take written.new line.new) result }
{
    let files = files_of(alloc, table, certificates, lengths);
    let commands = Commands { known: None };
    call(alloc, &commands, words, borrowed(&files), line, written)
}

/// The same under the table of a handle, which has been parsed before; with no table in it, there is
/// no file TABLE. The handle is left as it was.
#[unsafe(no_mangle)]
pub extern "C" fn picky_chain_with_table(
    alloc: Global,
    words: &[u8],
    table: &mut TableHandle,
    certificates: &[u8],
    lengths: &[usize],
    line: &mut [u8],
    written: &mut usize,
) -> u8
    // The handle is left as it was.
    ensures known { table.new.known ≡ table.old.known }
    // No more is written than the buffer has, and nothing behind the line.
    ensures fits { written.new ≤ length line.new }
    ensures behind { drop written.new line.new ≡ drop written.new line.old }
    // Acceptance means vouched for.
    ensures vouched_for { result ≡ statuses.accepted → IsVouchedCall words.now
        (chain_files (text_of table.old.known) certificates.now lengths.now)
        (take written.new line.new) }
    // What each status means, and when it is returned.
    ensures called { IsCallOf program words.now
        (chain_files (text_of table.old.known) certificates.now lengths.now)
        (length line.old) (take written.new line.new) result }
{
    match table.take(alloc) {
        Some(known) => {
            let files = files_of(alloc, known.text(), certificates, lengths);
            let commands = Commands {
                known: Some(&known),
            };
            let status = call(alloc, &commands, words, borrowed(&files), line, written);
            drop(files);
            table.put(alloc, Some(known));
            status
        }
        None => {
            let files = pooled(alloc, certificates, lengths);
            let commands = Commands { known: None };
            call(alloc, &commands, words, borrowed(&files), line, written)
        }
    }
}

/// The files of the pool, and the table.
fn files_of<'a>(
    alloc: Global,
    table: &'a [u8],
    certificates: &'a [u8],
    lengths: &[usize],
) -> Result<Vec<LentFile<'a>>, AllocError>
    ensures { IfOk result (λ files. (name : List ℕ) → lent_files files.items name
        ≡ chain_files (Some table.now) certificates.now lengths.now name) }
{
    let mut files = pooled(alloc, certificates, lengths)?;
    files.push(LentFile {
        name: "TABLE",
        octets: table,
    })?;
    Ok(files)
}
