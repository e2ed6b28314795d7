//! A verdict table that is parsed once, for many calls.

ghost use Rattle.std.specs.Prelude.{◌≡◌, None};
ghost use Rattle.picky_door.specs.Table.{IsParsing};

use door_frame::TableHandle;
use program_frame::{ACCEPTED, BAD_TABLE, OUT_OF_MEMORY};
use sig_core::TableError;
use std::alloc::Global;

/// Parses a verdict table for many calls, and keeps it in the handle, whose earlier table is freed.
/// Returns `ACCEPTED`; `BAD_TABLE` for a text with a bad line, or `OUT_OF_MEMORY`, and then the
/// handle has the table that it had.
#[unsafe(no_mangle)]
pub extern "C" fn picky_table_parse(alloc: Global, text: &[u8], table: &mut TableHandle) -> u8
    ensures { IsParsing text.now table.old.known table.new.known result }
{
    match table.parse(alloc, text) {
        Ok(()) => ACCEPTED,
        Err(TableError::BadLine { number: _ }) => BAD_TABLE,
        Err(TableError::Memory) => OUT_OF_MEMORY,
    }
}

/// Frees the table of a handle, which has none then.
#[unsafe(no_mangle)]
pub extern "C" fn picky_table_free(alloc: Global, table: &mut TableHandle)
    ensures { table.new.known ≡ None }
{
    table.free(alloc)
}
