//! The report about the files that the words name.

ghost use Rattle.std.specs.Prelude.{◌≡◌, ◌≤◌, length, map};
ghost use Rattle.program_frame.specs.Owned.{contents_held, options_held};
ghost use Rattle.program_frame.specs.Reports.{Reports};
ghost use Rattle.picky_check.specs.Commands.{IsAnswerTo, IsCertificateAnswer, checks};
ghost use Rattle.picky_check.specs.OwnedCommand.{command_held};
ghost use Rattle.picky_check.specs.Policies.{check_policy};
ghost use Rattle.picky_check.specs.Report.{Answer, reporting};
ghost use Rattle.picky_check.specs.SignatureAnswer.{IsListAnswer, IsSignatureAnswer};
ghost use Rattle.picky_check.specs.Words.{Command as AskedCommand, files_of};

use crate::chain::check_chain;
use crate::policies::{basic_policy, check_policy};
use crate::report::{chain_report_of, report_of};
use crate::words::Command;
use authenticode_core::{
    AuthenticodeError, CertificateTrustList, CheckError, Policy, check_wincert,
};
use names_core::UtcDate;
use program_frame::{CheckOptions, Contents, Names, Report, Stop, TableCommand};
use sig_core::{Scheme, VerdictTable};
use std::alloc::Global;
use std::slice;
use x509_core::{chains_break_no_rule, chains_have_one_answer};

impl TableCommand for Command<'_> {
    ghost Asked = { AskedCommand };

    ghost Answer = { Answer };

    ghost program = { checks };

    ghost asked = { command_held };

    fn names(&self) -> Names<'_> {
        match self {
            Command::Basic {
                signature,
                table,
                ..
            } => Names {
                first: signature,
                others: &[],
                last: Some(table),
            },
            Command::Check {
                signature,
                table,
                options,
                ..
            } => Names {
                first: signature,
                others: slice::from_ref(table),
                last: options.list_file(),
            },
            Command::Chain {
                table,
                certificates,
                ..
            } => Names {
                first: table,
                others: certificates.names,
                last: None,
            },
        }
    }

    fn table_in<'a>(&self, read: &'a Contents) -> &'a [u8] {
        match self {
            Command::Basic { .. } | Command::Check { .. } => read.parts().1,
            Command::Chain { .. } => &read.first,
        }
    }

    fn report_by(
        &self,
        alloc: Global,
        read: &Contents,
        table: &VerdictTable,
    ) -> Result<Report, Stop> {
        report_by(alloc, self, read, table)
    }
}

/// The report on the contents of a command's files, by a scheme.
fn report_by<S: Scheme>(
    alloc: Global,
    asked: &Command<'_>,
    read: &Contents,
    scheme: &S,
) -> Result<Report, Stop>
    requires { length (contents_held read.now) ≡ length (files_of (command_held asked.now)) }
    ensures { Reports reporting (IsAnswerTo (S.judge scheme.now) (command_held asked.now)
        (contents_held read.now)) result }
{
    match asked {
        Command::Basic { hash, .. } => {
            let policy = basic_policy(alloc, hash)?;
            judge_signature(alloc, &read.first, &policy, scheme)
        }
        Command::Check {
            hash,
            date,
            options,
            ..
        } => {
            let (signature, _, lists) = read.parts();
            listed_report(alloc, signature, lists, hash, *date, options, scheme)
        }
        Command::Chain { date, .. } => judge_chain(alloc, &read.others, date, scheme),
    }
}

/// The report on the octets of a signature file, by a scheme and the options of `check`, the octets
/// of whose trust list are the first of `lists`.
fn listed_report<S: Scheme>(
    alloc: Global,
    octets: &[u8],
    lists: &[Vec<u8>],
    hash: &[u8],
    date: UtcDate,
    options: &CheckOptions<'_>,
    scheme: &S,
) -> Result<Report, Stop>
    ensures { Reports reporting (IsListAnswer (S.judge scheme.now) (check_policy hash.now date (options_held options.now))
        octets.now (map (λ octets. octets.items) lists.now)) result }
{
    let [list, ..] = lists else {
        let policy = check_policy(alloc, hash, date, options, None)?;
        return judge_signature(alloc, octets, &policy, scheme);
    };
    let list = match CertificateTrustList::from_der(alloc, list) {
        Ok(list) => list,
        Err(error) => {
            let refusal = CheckError::from(AuthenticodeError::from(error));
            return report_of(alloc, &Err(refusal));
        }
    };
    let policy = check_policy(alloc, hash, date, options, Some(&list))?;
    judge_signature(alloc, octets, &policy, scheme)
}

/// The report on the octets of a signature file, by a scheme and a policy.
fn judge_signature<S: Scheme>(
    alloc: Global,
    octets: &[u8],
    policy: &Policy<'_>,
    scheme: &S,
) -> Result<Report, Stop>
    ensures { Reports reporting (IsSignatureAnswer (S.judge scheme.now) policy.entry.now octets.now) result }
{
    let answer = check_wincert(alloc, octets, policy, scheme);
    report_of(alloc, &answer)
}

/// The report on the octets of a certificate and its parents, by a scheme and at a date.
fn judge_chain<S: Scheme>(
    alloc: Global,
    certificates: &[Vec<u8>],
    date: &UtcDate,
    scheme: &S,
) -> Result<Report, Stop>
    requires { 1 ≤ length certificates.now }
    ensures { Reports reporting (IsCertificateAnswer (S.judge scheme.now) date.now
        (map (λ octets. octets.items) certificates.now)) result }
{
    // laws that the proof rests on; the calls do nothing
    chains_break_no_rule();
    chains_have_one_answer();
    let answer = check_chain(alloc, certificates, date, scheme);
    chain_report_of(alloc, &answer)
}
