//! The report about the files that the words name.

ghost use Rattle.std.specs.Prelude.{◌≡◌, ◌≤◌, Result, length, map};
ghost use Rattle.authenticode_core.specs.declared.accepted.Accepted.{Accepted};
ghost use Rattle.program_frame.specs.Owned.{contents_held, options_held};
ghost use Rattle.program_frame.specs.Reports.{Reports};
ghost use Rattle.pe_image.specs.Commands.{IsAnswerTo, checks};
ghost use Rattle.pe_image.specs.OwnedCommand.{command_held};
ghost use Rattle.pe_image.specs.ListAnswer.{IsListAnswer, IsProgramAnswer};
ghost use Rattle.pe_image.specs.ProgramPolicy.{program_policy};
ghost use Rattle.pe_image.specs.Report.{reporting};
ghost use Rattle.pe_image.specs.Words.{Command as AskedCommand};
ghost use Rattle.pe_image.specs.declared.error.PeCheckError.{PeCheckError};

use crate::check::check_pe;
use crate::error::PeCheckError;
use crate::policy::program_policy;
use crate::report::report_of;
use crate::words::Command;
use authenticode_core::{AuthenticodeError, CertificateTrustList, CheckError, Policy};
use names_core::UtcDate;
use program_frame::{CheckOptions, Contents, Names, Report, Stop, TableCommand};
use sig_core::{Scheme, VerdictTable};
use std::alloc::Global;
use std::slice;

impl TableCommand for Command<'_> {
    ghost Asked = { AskedCommand };

    ghost Answer = { Result Accepted PeCheckError };

    ghost program = { checks };

    ghost asked = { command_held };

    fn names(&self) -> Names<'_> {
        Names {
            first: self.file,
            others: slice::from_ref(self.table),
            last: self.options.list_file(),
        }
    }

    fn table_in<'a>(&self, read: &'a Contents) -> &'a [u8] {
        read.parts().1
    }

    fn report_by(
        &self,
        alloc: Global,
        read: &Contents,
        table: &VerdictTable,
    ) -> Result<Report, Stop> {
        report_by(alloc, self, read, table)
    }
}

/// The report on the contents of a command's files, by a scheme.
fn report_by<S: Scheme>(
    alloc: Global,
    asked: &Command<'_>,
    read: &Contents,
    scheme: &S,
) -> Result<Report, Stop>
    requires { 2 ≤ length (contents_held read.now) }
    ensures { Reports reporting (IsAnswerTo (S.judge scheme.now) (command_held asked.now)
        (contents_held read.now)) result }
{
    let (program, _, lists) = read.parts();
    listed_report(alloc, program, lists, asked.date, &asked.options, scheme)
}

/// The report on the octets of a program, by a scheme and the options, the octets of whose trust
/// list are the first of `lists`.
fn listed_report<S: Scheme>(
    alloc: Global,
    octets: &[u8],
    lists: &[Vec<u8>],
    date: UtcDate,
    options: &CheckOptions<'_>,
    scheme: &S,
) -> Result<Report, Stop>
    ensures { Reports reporting (IsListAnswer (S.judge scheme.now) (program_policy date (options_held options.now))
        octets.now (map (λ octets. octets.items) lists.now)) result }
{
    let [list, ..] = lists else {
        let policy = program_policy(alloc, date, options, None);
        return judge_program(alloc, octets, policy, scheme);
    };
    let list = match CertificateTrustList::from_der(alloc, list) {
        Ok(list) => list,
        Err(error) => {
            let refusal = CheckError::from(AuthenticodeError::from(error));
            return report_of(alloc, &Err(PeCheckError::from(refusal)));
        }
    };
    let policy = program_policy(alloc, date, options, Some(&list));
    judge_program(alloc, octets, policy, scheme)
}

/// The report on the octets of a program, by a scheme and a policy.
fn judge_program<S: Scheme>(
    alloc: Global,
    octets: &[u8],
    policy: Policy<'_>,
    scheme: &S,
) -> Result<Report, Stop>
    ensures { Reports reporting (IsProgramAnswer (S.judge scheme.now) policy.entry octets.now) result }
{
    let answer = check_pe(alloc, octets, policy, scheme);
    report_of(alloc, &answer)
}
