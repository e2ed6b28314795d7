//! The answer of a command.

ghost use Rattle.std.specs.Prelude.{◌≡◌, ◌≢◌, ◌≤◌, ℕ, IfOk, List, MatchResult, Ok, length, map, string_bytes};
ghost use Rattle.std.specs.List.{AllByRecursion};
ghost use Rattle.asn1_types.specs.declared.generalized_time.GeneralizedTime.{GeneralizedTime};
ghost use Rattle.program_frame.specs.Reports.{Reports};
ghost use Rattle.program_frame.specs.Statuses as statuses;
ghost use Rattle.program_frame.specs.declared.stop.Stop.TheVariants as stops;
ghost use Rattle.ca_register.specs.Commands.{program};
ghost use Rattle.ca_register.specs.OwnedCommand.{command_held};
ghost use Rattle.ca_register.specs.Words.{Command as AskedCommand};
ghost use Rattle.ca_register.specs.Owned.{line_held};
ghost use Rattle.ca_register.specs.Lines.{IsLine, Line};
ghost use Rattle.ca_register.specs.Answer.{IsAnswerTo, reporting};
ghost use Rattle.ca_register.specs.LineEntries.{IsFirstRefused};
ghost use Rattle.ca_register.specs.Reported.{AreIssued, IsCountLine};
ghost use Rattle.ca_register.specs.declared.error.IssueError.TheVariants as errors;
ghost use Rattle.ca_register.specs.declared.report.Answer.TheVariants as answers;

use crate::command::Command;
use crate::counting::accepted_count;
use crate::error::IssueError;
use crate::filling::register_of;
use crate::report::{Answer, report_of};
use crate::text::{RegisterLine, lines_of};
use names_core::UtcDate;
use program_frame::{Contents, Names, Report, Stop};
use std::alloc::Global;

impl program_frame::Command for Command<'_> {
    ghost Asked = { AskedCommand };

    ghost program = { program };

    ghost asked = { command_held };

    fn names(&self) -> Names<'_> {
        Names {
            first: self.file,
            others: &[],
            last: None,
        }
    }

    fn report(&self, alloc: Global, read: &Contents) -> Result<Report, Stop> {
        let lines = lines_of(alloc, &read.first)?;
        report_lines(alloc, &lines, &self.date)
    }
}

/// The report on the lines of a register at a date.
fn report_lines(alloc: Global, lines: &[RegisterLine], date: &UtcDate) -> Result<Report, Stop>
    requires few { length lines.now ≤ 200 }
    requires each { AllByRecursion IsLine (map line_held lines.now) }
    ensures answer { Reports reporting (IsAnswerTo date.now (map line_held lines.now)) result }
    ensures counted { IfOk result (λ report. report.status ≡ statuses.accepted
        → IsCountLine date.now (map line_held lines.now) (string_bytes report.line)) }
{
    let answer = answer_of(alloc, lines, date)?;
    Ok(report_of(alloc, answer)?)
}

/// The answer for lines at a date.
fn answer_of(alloc: Global, lines: &[RegisterLine], date: &UtcDate) -> Result<Answer, Stop>
    requires few { length lines.now ≤ 200 }
    requires each { AllByRecursion IsLine (map line_held lines.now) }
    ensures answer { MatchResult result (IsAnswerTo date.now (map line_held lines.now))
        (λ stop. stop ≡ stops.Memory) }
    ensures issued { (issued accepted : ℕ) → result ≡ Ok (answers.Counted issued accepted)
        → ∥ AreIssued date.now (map line_held lines.now) accepted ∥₁ }
{
    match register_of(alloc, lines) {
        Ok(register) => Ok(Answer::Counted {
            issued: register.len(),
            accepted: accepted_count(&register, date),
        }),
        Err(error) => refused_for(&error),
    }
}

/// The answer for lines of which one is refused for this reason, which only the lines decide.
fn refused_for(error: &IssueError) -> Result<Answer, Stop>
    requires first { (lines : List Line) × (error.now ≢ errors.Memory
        → IsFirstRefused lines error.now) }
    ensures answer { (date : GeneralizedTime) (lines : List Line)
        → (error.now ≢ errors.Memory → IsFirstRefused lines error.now)
        → MatchResult result (IsAnswerTo date lines) (λ stop. stop ≡ stops.Memory) }
    ensures uncounted { (issued accepted : ℕ)
        → result ≡ Ok (answers.Counted issued accepted) → ⊥ }
{
    match error {
        IssueError::NoIssuer { .. } => Ok(Answer::NoIssuer),
        IssueError::NotCa => Ok(Answer::NotCa),
        IssueError::TooDeep { .. } => Ok(Answer::TooDeep),
        IssueError::Memory => Err(Stop::Memory),
        IssueError::Request(_) => unreachable!(),
        IssueError::Build(_) => unreachable!(),
        IssueError::WrongKey(_) => unreachable!(),
    }
}
