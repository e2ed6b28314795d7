//! Commands whose answers follow from a verdict table among their files.

ghost use Rattle.std.specs.Prelude.{◌≡◌, ◌≤◌, ℕ, List, IfOk, length};
ghost use Rattle.sig_core.specs.VerdictTable.{verdict_of};
ghost use Rattle.program_frame.specs.Commands.{IsParsed, parsed_held};
ghost use Rattle.program_frame.specs.Owned.{contents_held, names_held};
ghost use Rattle.program_frame.specs.Reports.{Reports};
ghost use Rattle.program_frame.specs.Run.{IsRun};
ghost use Rattle.program_frame.specs.Statuses as statuses;
ghost use Rattle.program_frame.specs.Tables.{TableProgram, by_table};

use crate::command::run;
use crate::known_table::find_table;
use crate::{Command, Contents, KnownTable, Names, Report, Shelf, Sink, Stop};
use sig_core::VerdictTable;
use std::alloc::{AllocError, Global};

/// A command whose answer follows from the verdicts of a table among its files.
pub trait TableCommand {
    /// A command, and an answer, as contracts see them.
    ghost Asked: { Type 0 };

    ghost Answer: { Type 0 };

    /// The program.
    ghost program: { TableProgram Asked Answer };

    /// The command.
    ghost asked: { Self → Asked };

    /// The names of the files, in the order of reading.
    fn names(&self) -> Names<'_>
        ensures { names_held result ≡ program.files_of (asked self.now) };

    /// The text of the table, among the contents of the files.
    fn table_in<'a>(&self, read: &'a Contents) -> &'a [u8]
        requires { length (contents_held read.now) ≡ length (program.files_of (asked self.now)) }
        ensures { result.now ≡ program.table_in (asked self.now) (contents_held read.now) };

    /// The report on the contents of the files, by the verdicts of the table.
    fn report_by(
        &self,
        alloc: Global,
        read: &Contents,
        table: &VerdictTable,
    ) -> Result<Report, Stop>
        requires { length (contents_held read.now) ≡ length (program.files_of (asked self.now)) }
        ensures reported { Reports program.reporting (program.IsAnswerTo (verdict_of table.now)
            (asked self.now) (contents_held read.now)) result }
        ensures low { IfOk result (λ report. report.status ≤ statuses.refused) };
}

/// A command beside a verdict table that may be known before the files are read.
#[derive(Drop)]
struct UnderTable<'a, C: TableCommand + Drop> {
    command: &'a C,
    known: Option<&'a KnownTable>,
}

impl<C: TableCommand + Drop> Command for UnderTable<'_, C> {
    ghost use Rattle.program_frame.specs.Tables.{by_table};

    ghost Asked = { C.Asked };

    ghost program = { by_table C.program };

    ghost asked = { λ under. C.asked under.command.now };

    fn names(&self) -> Names<'_> {
        self.command.names()
    }

    // The verdict table among the files has the verdicts.
    fn report(&self, alloc: Global, read: &Contents) -> Result<Report, Stop> {
        let table = find_table(alloc, self.known, self.command.table_in(read))?;
        self.command.report_by(alloc, read, table.as_table())
    }
}

/// Runs a command, as `run` does. A verdict table may be known already: a file with its text isn't
/// parsed again.
pub fn run_by_table<C: TableCommand + Drop, F: Shelf, O: Sink>(
    alloc: Global,
    parsed: &Result<Option<C>, AllocError>,
    known: Option<&KnownTable>,
    shelf: &mut F,
    out: &mut O,
) -> u8
    ensures { (words : List (List ℕ))
        → IsParsed (by_table C.program) words (parsed_held C.asked parsed.now)
        → IsRun (by_table C.program) words F.state shelf.old shelf.new (O.state out.old)
        (O.state out.new) result }
{
    run(alloc, &under(parsed, known), shelf, out)
}

/// What was parsed, beside a table.
fn under<'a, C: TableCommand + Drop>(
    parsed: &'a Result<Option<C>, AllocError>,
    known: Option<&'a KnownTable>,
) -> Result<Option<UnderTable<'a, C>>, AllocError>
    ensures { parsed_held (λ under. C.asked under.command.now) result
        ≡ parsed_held C.asked parsed.now }
{
    match parsed {
        Ok(Some(command)) => Ok(Some(UnderTable { command, known })),
        Ok(None) => Ok(None),
        Err(error) => Err(*error),
    }
}
