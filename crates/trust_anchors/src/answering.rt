//! The report about the files that the words name.

ghost use Rattle.std.specs.Prelude.{◌≡◌, ◌≤◌, IfErr, IfOk, length};
ghost use Rattle.program_frame.specs.Owned.{contents_held};
ghost use Rattle.program_frame.specs.Reports.{Reports};
ghost use Rattle.trust_anchors.specs.Commands.{IsAnswerTo, IsSearchResult, certificates_in, reporting, searches};
ghost use Rattle.trust_anchors.specs.AnchoredPath.{IsAnchoredPath};
ghost use Rattle.trust_anchors.specs.OwnedCommand.{command_held};
ghost use Rattle.trust_anchors.specs.Words.{Command as AskedCommand, files_of};
ghost use Rattle.trust_anchors.specs.declared.report.Answer.{Answer};

use crate::command::Command;
use crate::error::AnchorError;
use crate::reading::{Given, ReadError, read_given};
use crate::report::{Answer, report_of};
use program_frame::{Contents, Names, Report, Stop, TableCommand};
use sig_core::{Scheme, VerdictTable};
use std::alloc::Global;

impl TableCommand for Command<'_> {
    ghost Asked = { AskedCommand };

    ghost Answer = { Answer };

    ghost program = { searches };

    ghost asked = { command_held };

    fn names(&self) -> Names<'_> {
        Names {
            first: self.table,
            others: self.certificates,
            last: None,
        }
    }

    fn table_in<'a>(&self, read: &'a Contents) -> &'a [u8] {
        &read.first
    }

    fn report_by(
        &self,
        alloc: Global,
        read: &Contents,
        table: &VerdictTable,
    ) -> Result<Report, Stop> {
        report_by(alloc, self, read, table)
    }
}

/// The report on the contents of a command's files, by a scheme.
fn report_by<S: Scheme>(
    alloc: Global,
    asked: &Command<'_>,
    read: &Contents,
    scheme: &S,
) -> Result<Report, Stop>
    requires { length (contents_held read.now) ≡ length (files_of (command_held asked.now)) }
    ensures { Reports reporting (IsAnswerTo (S.judge scheme.now) (command_held asked.now)
        (certificates_in (contents_held read.now))) result }
{
    let answer = answer_by(alloc, asked, read, scheme)?;
    Ok(report_of(alloc, &answer)?)
}

/// The answer for the contents of a command's files, by a scheme.
fn answer_by<S: Scheme>(
    alloc: Global,
    asked: &Command<'_>,
    read: &Contents,
    scheme: &S,
) -> Result<Answer, Stop>
    requires { length (contents_held read.now) ≡ length (files_of (command_held asked.now)) }
    ensures answer { IfOk result (IsAnswerTo (S.judge scheme.now) (command_held asked.now)
        (certificates_in (contents_held read.now))) }
    ensures stopped { IfErr result (λ stop. stop ≡ Stop.Memory) }
{
    let (_, first, others) = read.parts();
    match read_given(alloc, first, others, asked.more) {
        Ok(given) => search(alloc, asked, &given, scheme),
        Err(ReadError::NoCertificate) => Ok(Answer::Unread),
        Err(ReadError::Memory) => Err(Stop::Memory),
    }
}

/// The answer for the certificates of a command, by a scheme.
fn search<S: Scheme>(
    alloc: Global,
    asked: &Command<'_>,
    given: &Given,
    scheme: &S,
) -> Result<Answer, Stop>
    requires { length given.now.pool.items ≤ 256 }
    ensures found { IfOk result (IsSearchResult (IsAnchoredPath (S.judge scheme.now) asked.now.date
        given.now.checked given.now.pool.items given.now.anchors asked.now.purpose)) }
    ensures stopped { IfErr result (λ stop. stop ≡ Stop.Memory) }
{
    let found = given.anchors.find(
        alloc,
        &given.checked,
        &given.pool,
        asked.purpose,
        &asked.date,
        scheme,
    );
    match found {
        Ok(Some(path)) => Ok(Answer::Anchored(path)),
        Ok(None) => Ok(Answer::NoPath),
        Err(AnchorError::TooMany { .. }) => unreachable!(),
        Err(AnchorError::Memory) => Err(Stop::Memory),
    }
}
