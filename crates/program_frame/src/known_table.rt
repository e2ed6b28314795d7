//! A verdict table that is parsed once, for many runs.

ghost use Rattle.std.specs.Prelude.{◌≡◌, ◌⊎◌, ℕ, List, Err, IfErr, IfOk, IfSome, MatchResult};
ghost use Rattle.program_frame.specs.KnownTable.{found_rows};
ghost use Rattle.sig_core.specs.VerdictTable.{IsCause, IsFirstBadLine, IsTable};
ghost use Rattle.sig_core.specs.declared.verdict_row.VerdictRow.{VerdictRow};

use sig_core::{TableError, VerdictTable};
use std::alloc::Global;
use std::marker::Model;

/// A text, and the verdict table that it is. Contracts see both.
#[derive(Drop)]
pub struct KnownTable {
    text: Vec<u8>,
    table: VerdictTable,
}

impl Model for KnownTable {
    ghost use Rattle.std.specs.Prelude.{List, ℕ};
    ghost use Rattle.sig_core.specs.VerdictTable.{IsTable};
    ghost use Rattle.sig_core.specs.declared.verdict_row.VerdictRow.{VerdictRow};

    ghost Value = { List ℕ × List VerdictRow };

    ghost view = { λ known. (known.text.items, known.table) };

    ghost invariant = { λ known. IsTable known.text.items known.table };
}

impl KnownTable {
    /// Parses a text, and keeps it with its table.
    pub fn parse(alloc: Global, text: &[u8]) -> Result<KnownTable, TableError>
        ensures text { IfOk result (λ known. known.0 ≡ text.now) }
        ensures cause { (number : ℕ) → result ≡ Err (TableError.BadLine number)
            → IsFirstBadLine text.now number }
        // A table is parsed.
        ensures each_table { (rows : List VerdictRow) → IsTable text.now rows
            → IfErr result (λ e. e ≡ TableError.Memory) }
        // A text with a bad line is refused at that line.
        ensures each_bad_line { (number : ℕ) → IsFirstBadLine text.now number
            → MatchResult result (λ _. ⊥)
            (λ e. (e ≡ TableError.BadLine number) ⊎ (e ≡ TableError.Memory)) }
    {
        let table = VerdictTable::parse(alloc, text)?;
        Ok(KnownTable {
            text: Vec::from_slice(alloc, text)?,
            table,
        })
    }

    /// The text.
    pub fn text(&self) -> &[u8]
        ensures { result.now ≡ self.now.0 }
    {
        self.text.as_slice()
    }

    /// The table, if this is its text.
    fn of(&self, text: &[u8]) -> Option<&VerdictTable>
        ensures { IfSome result (λ table. IsTable text.now table.now) }
    {
        if self.text.as_slice() == text {
            Some(&self.table)
        } else {
            None
        }
    }
}

/// The table of a text.
#[derive(Drop)]
pub enum FoundTable<'a> {
    /// It was parsed before.
    Known(&'a VerdictTable),
    Parsed(VerdictTable),
}

impl FoundTable<'_> {
    /// The table.
    pub fn as_table(&self) -> &VerdictTable
        ensures { result.now ≡ found_rows self.now }
    {
        match self {
            FoundTable::Known(table) => table,
            FoundTable::Parsed(table) => table,
        }
    }
}

/// The verdict table of a text, which isn't parsed again if it is that of a known table.
pub fn find_table<'a>(
    alloc: Global,
    known: Option<&'a KnownTable>,
    text: &[u8],
) -> Result<FoundTable<'a>, TableError>
    ensures table { IfOk result (λ found. IsTable text.now (found_rows found)) }
    ensures cause { IfErr result (IsCause text.now) }
    // A table is found as its rows.
    ensures each_table { (rows : List VerdictRow) → IsTable text.now rows
        → MatchResult result (λ found. found_rows found ≡ rows) (λ e. e ≡ TableError.Memory) }
    // A text with a bad line is refused at that line.
    ensures each_bad_line { (number : ℕ) → IsFirstBadLine text.now number
        → MatchResult result (λ _. ⊥)
        (λ e. (e ≡ TableError.BadLine number) ⊎ (e ≡ TableError.Memory)) }
{
    if let Some(known) = known {
        if let Some(table) = known.of(text) {
            return Ok(FoundTable::Known(table));
        }
    }
    Ok(FoundTable::Parsed(VerdictTable::parse(alloc, text)?))
}
