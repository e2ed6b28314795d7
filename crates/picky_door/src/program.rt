//! The check of a signed program, over the program, a trust list and a verdict table.

ghost use Rattle.std.specs.Prelude.{◌≡◌, ◌≤◌, Some, drop, length, take};
ghost use Rattle.door_frame.specs.Call.{IsCallOf};
ghost use Rattle.door_frame.specs.Handle.{text_of};
ghost use Rattle.pe_image.specs.Commands.{program as program_check};
ghost use Rattle.picky_door.specs.Program.{IsVouchedProgramCall, program_files};
ghost use Rattle.program_frame.specs.Statuses as statuses;

use door_frame::{LentFile, TableHandle, call};
use pe_image::Commands;
use std::alloc::Global;

/// Runs the command that the words request, one a line, as the program does where the files PROGRAM,
/// TABLE and LIST have these octets, and there are no others. Returns the exit status; the line is
/// at the start of `line`, and `written` is its length.
#[unsafe(no_mangle)]
pub extern "C" fn picky_pe_bytes(
    alloc: Global,
    words: &[u8],
    program: &[u8],
    table: &[u8],
    list: &[u8],
    line: &mut [u8],
    written: &mut usize,
) -> u8
    // No more is written than the buffer has, and nothing behind the line.
    ensures fits { written.new ≤ length line.new }
    ensures behind { drop written.new line.new ≡ drop written.new line.old }
    // Acceptance means vouched for.
    ensures vouched_for { result ≡ statuses.accepted → IsVouchedProgramCall words.now
        (program_files program.now (Some table.now) list.now) (take written.new line.new) }
    // What each status means, and when it is returned.
    ensures called { IsCallOf program_check words.now (program_files program.now (Some table.now) list.now)
        (length line.old) (take written.new line.new) result }
{
    let files = [
        LentFile {
            name: "PROGRAM",
            octets: program,
        },
        LentFile {
            name: "LIST",
            octets: list,
        },
        LentFile {
            name: "TABLE",
            octets: table,
        },
    ];
    let commands = Commands { known: None };
    call(alloc, &commands, words, Some(&files), line, written)
}

/// The same under the table of a handle, which has been parsed before; with no table in it, there is
/// no file TABLE. The handle is left as it was.
#[unsafe(no_mangle)]
pub extern "C" fn picky_pe_with_table<'a>(
    alloc: Global,
    words: &[u8],
    program: &'a [u8],
    table: &mut TableHandle,
    list: &'a [u8],
    line: &mut [u8],
    written: &mut usize,
) -> u8
    // The handle is left as it was.
    ensures known { table.new.known ≡ table.old.known }
    // No more is written than the buffer has, and nothing behind the line.
    ensures fits { written.new ≤ length line.new }
    ensures behind { drop written.new line.new ≡ drop written.new line.old }
    // Acceptance means vouched for.
    ensures vouched_for { result ≡ statuses.accepted → IsVouchedProgramCall words.now
        (program_files program.now (text_of table.old.known) list.now) (take written.new line.new) }
    // What each status means, and when it is returned.
    ensures called { IsCallOf program_check words.now
        (program_files program.now (text_of table.old.known) list.now)
        (length line.old) (take written.new line.new) result }
{
    let program = LentFile {
        name: "PROGRAM",
        octets: program,
    };
    let list = LentFile {
        name: "LIST",
        octets: list,
    };
    match table.take(alloc) {
        Some(known) => {
            let text = LentFile {
                name: "TABLE",
                octets: known.text(),
            };
            let files = [program, list, text];
            let commands = Commands {
                known: Some(&known),
            };
            let status = call(alloc, &commands, words, Some(&files), line, written);
            table.put(alloc, Some(known));
            status
        }
        None => {
            let files = [program, list];
            let commands = Commands { known: None };
            call(alloc, &commands, words, Some(&files), line, written)
        }
    }
}
