//! The answer of a command.

ghost use Rattle.std.specs.Prelude.{◌≡◌, Err, IfOk, MatchResult, string_bytes};
ghost use Rattle.program_frame.specs.Answering.{line_held};
ghost use Rattle.program_frame.specs.Owned.{contents_held};
ghost use Rattle.program_frame.specs.Reports.{Reports, as_lines};
ghost use Rattle.program_frame.specs.Statuses as statuses;
ghost use Rattle.program_frame.specs.declared.stop.Stop.TheVariants as stops;
ghost use Rattle.signature_questions.specs.OwnedCommand.{command_held};
ghost use Rattle.signature_questions.specs.Words.{Command as AskedCommand};
ghost use Rattle.signature_questions.specs.Commands.{IsChainLine, IsSignatureLine, program};
ghost use Rattle.signature_questions.specs.Lines.{refused_chain_line, refused_line};

use crate::chain_questions::ChainQuestions;
use crate::command::Command;
use crate::lines::{chain_lines_of, lines_of};
use crate::questions::questions_of;
use crate::reading::read_chain;
use authenticode_core::CheckError;
use der_core::one_first_fault;
use program_frame::{ACCEPTED, Contents, Names, REFUSED, Report, Stop};
use std::alloc::{AllocError, Global};
use x509_core::CertError;

impl program_frame::Command for Command<'_> {
    ghost Asked = { AskedCommand };

    ghost program = { program };

    ghost asked = { command_held };

    fn names(&self) -> Names<'_> {
        match self {
            Command::Signature(file) => Names {
                first: file,
                others: &[],
                last: None,
            },
            Command::Chain { checked, parents } => Names {
                first: checked,
                others: parents,
                last: None,
            },
        }
    }

    fn report(&self, alloc: Global, read: &Contents) -> Result<Report, Stop> {
        match self {
            Command::Signature(_) => signature_report(alloc, &read.first),
            Command::Chain { .. } => chain_report(alloc, read),
        }
    }
}

/// The report on the octets of a signature file.
fn signature_report(alloc: Global, octets: &[u8]) -> Result<Report, Stop>
    ensures { Reports as_lines (IsSignatureLine octets.now) result }
{
    // a law that the proof uses; the call does nothing
    one_first_fault();
    match questions_of(octets) {
        Ok(questions) => Ok(Report {
            status: ACCEPTED,
            line: lines_of(alloc, questions)?,
        }),
        Err(error) => Ok(Report {
            status: REFUSED,
            line: refused_line(alloc, &error)?,
        }),
    }
}

/// The report on the octets of certificates as a chain.
fn chain_report(alloc: Global, read: &Contents) -> Result<Report, Stop>
    ensures { Reports as_lines (IsChainLine (contents_held read.now)) result }
{
    match read_chain(alloc, read) {
        Ok((checked, parents)) => Ok(Report {
            status: ACCEPTED,
            line: chain_lines_of(alloc, ChainQuestions::of(&checked, &parents))?,
        }),
        Err(error) => unread_report(alloc, &error),
    }
}

/// The report that octets aren't a certificate.
fn unread_report(alloc: Global, error: &CertError) -> Result<Report, Stop>
    ensures refused { MatchResult result
        (λ report. line_held report
        ≡ record { status = statuses.refused; text = refused_chain_line error.now })
        (λ stop. stop ≡ stops.Memory) }
    ensures memory { error.now ≡ CertError.Memory → result ≡ Err Stop.Memory }
{
    match error {
        CertError::Memory => Err(Stop::Memory),
        _ => Ok(Report {
            status: REFUSED,
            line: refused_chain_line(alloc, error)?,
        }),
    }
}

/// The line `refused NAME` and a newline, for octets that are no signature file.
fn refused_line(alloc: Global, error: &CheckError) -> Result<String, AllocError>
    ensures { IfOk result (λ line. string_bytes line ≡ refused_line error.now) }
{
    format!(in alloc; "refused {}\n", error.name(alloc)?)
}

/// The line `refused NAME` and a newline, for octets that are no certificate.
fn refused_chain_line(alloc: Global, error: &CertError) -> Result<String, AllocError>
    ensures { IfOk result (λ line. string_bytes line ≡ refused_chain_line error.now) }
{
    format!(in alloc; "refused {}\n", error.name(alloc)?)
}
