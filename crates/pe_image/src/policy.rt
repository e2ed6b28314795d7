//! The policy of the program.

ghost use Rattle.std.specs.Prelude.{◌≡◌, option_map};
ghost use Rattle.program_frame.specs.Owned.{list_held, options_held};
ghost use Rattle.program_frame.specs.ListOption.{list_moment};
ghost use Rattle.pe_image.specs.ProgramPolicy.{moments, program_policy};

use authenticode_core::{CertificateTrustList, DateCheck, Policy};
use names_core::{NameList, UtcDate};
use program_frame::{CheckOptions, ListOption};
use std::alloc::Global;

/// The policy by the options and the trust list that was read from their file. The digest is left
/// to the check of the program.
pub(crate) fn program_policy<'a>(
    alloc: Global,
    date: UtcDate,
    options: &CheckOptions<'_>,
    list: Option<&'a CertificateTrustList>,
) -> Policy<'a>
    ensures { result ≡ program_policy date (options_held options.now) list.entry }
{
    Policy {
        basic: true,
        file_hash: None,
        signing: true,
        not_before: !options.no_before,
        not_after: !options.no_after,
        chain: !options.no_chain,
        date: moments(date, options.until),
        against_list: list.is_some(),
        list,
        now: moment(options.list),
        exclude: false,
        excluded: NameList::new(alloc),
    }
}

/// The moment at which the CA must be on the trust list, 0 without one.
fn moment(list: Option<ListOption<'_>>) -> i64
    ensures { result ≡ list_moment (option_map list_held list.entry) }
{
    match list {
        Some(list) => list.seconds,
        None => 0,
    }
}

/// The date, or the interval from it to another one.
fn moments(date: UtcDate, until: Option<UtcDate>) -> DateCheck
    ensures { result ≡ moments date until }
{
    match until {
        Some(other) => DateCheck::Interval {
            lower: date,
            upper: other,
        },
        None => DateCheck::Exact(date),
    }
}
