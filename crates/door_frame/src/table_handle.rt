//! A verdict table that C keeps between calls.

ghost use Rattle.std.specs.Prelude.{◌≡◌, ◌⊎◌, ℕ, List, Option, None, Some, Err, IfErr, IfOk, MatchResult};
ghost use Rattle.std.specs.Coded.{coded_option};
ghost use Rattle.std.specs.Option.{MatchOption};
ghost use Rattle.door_frame.specs.Handle.{kept, text_of};
ghost use Rattle.program_frame.specs.contracts.known_table.KnownTable.{the_row};
ghost use Rattle.sig_core.specs.VerdictTable.{IsFirstBadLine, IsTable};
ghost use Rattle.sig_core.specs.declared.verdict_row.VerdictRow.{VerdictRow};

use program_frame::KnownTable;
use sig_core::TableError;
use std::alloc::Global;
use std::marker::Model;
use std::mem::replace;
use std::ptr::null_mut;

/// A verdict table that C keeps between calls, or none. C makes a handle without a table of zeroes,
/// and never reads or writes it.
#[repr(C)]
pub struct TableHandle {
    inside: *mut u8,
    /// The text of the table, and its rows.
    pub ghost known: { Option (List ℕ × List VerdictRow) } by { coded_option the_row.coded },
}

impl Model for TableHandle {
    ghost also_owns = { λ handle. kept handle.inside handle.known };
}

impl TableHandle {
    /// A handle without a table.
    pub fn new() -> TableHandle
        ensures { result.known ≡ None }
    {
        TableHandle { inside: null_mut() }
    }

    fn of_box(table: Box<KnownTable>) -> TableHandle
        ensures { result.known ≡ Some table.value }
    {
        TableHandle {
            inside: Box::into_raw(table) as *mut u8,
        }
    }

    fn of(table: Option<Box<KnownTable>>) -> TableHandle
        ensures { MatchOption table (result.known ≡ None)
            (λ table. result.known ≡ Some table.value) }
    {
        match table {
            Some(table) => TableHandle::of_box(table),
            None => TableHandle::new(),
        }
    }

    /// The table.
    pub fn into_table(self, alloc: Global) -> Option<Box<KnownTable>>
        ensures { MatchOption result (self.known ≡ None) (λ table. self.known ≡ Some table.value) }
    {
        let TableHandle { inside } = self;
        if inside.is_null() {
            return None;
        }
        Some(unsafe { Box::from_raw(alloc, inside as *mut KnownTable) })
    }

    /// Takes the table out.
    pub fn take(&mut self, alloc: Global) -> Option<Box<KnownTable>>
        ensures left { self.new.known ≡ None }
        ensures table { MatchOption result (self.old.known ≡ None)
            (λ table. self.old.known ≡ Some table.value) }
    {
        replace(self, TableHandle::new()).into_table(alloc)
    }

    /// Keeps a table, or none, and frees the one before it.
    pub fn put(&mut self, alloc: Global, table: Option<Box<KnownTable>>)
        ensures { MatchOption table (self.new.known ≡ None)
            (λ table. self.new.known ≡ Some table.value) }
    {
        let before = replace(self, TableHandle::of(table));
        drop(before.into_table(alloc));
    }

    /// Parses a text, keeps its table, and frees the one before it. A text that is refused leaves the
    /// handle as it is.
    pub fn parse(&mut self, alloc: Global, text: &[u8]) -> Result<(), TableError>
        ensures text { IfOk result (λ _. text_of self.new.known ≡ Some text.now) }
        ensures refused { IfErr result (λ _. self.new.known ≡ self.old.known) }
        ensures cause { (number : ℕ) → result ≡ Err (TableError.BadLine number)
            → IsFirstBadLine text.now number }
        // A table is parsed.
        ensures each_table { (rows : List VerdictRow) → IsTable text.now rows
            → IfErr result (λ e. e ≡ TableError.Memory) }
        // A text with a bad line is refused at that line.
        ensures each_bad_line { (number : ℕ) → IsFirstBadLine text.now number
            → MatchResult result (λ _. ⊥)
            (λ e. (e ≡ TableError.BadLine number) ⊎ (e ≡ TableError.Memory)) }
    {
        let table = Box::new(alloc, KnownTable::parse(alloc, text)?)?;
        self.put(alloc, Some(table));
        Ok(())
    }

    /// Frees the table.
    pub fn free(&mut self, alloc: Global)
        ensures { self.new.known ≡ None }
    {
        drop(self.take(alloc));
    }
}

/// C may pass a handle to another thread.
unsafe impl Send for TableHandle {}
