//! The policies of the commands for a signature file.

ghost use Rattle.std.specs.Prelude.{◌≡◌, IfOk, option_map};
ghost use Rattle.program_frame.specs.Owned.{list_held, options_held};
ghost use Rattle.program_frame.specs.ListOption.{list_moment};
ghost use Rattle.picky_check.specs.Policies.{basic_policy, check_policy, moments};

use authenticode_core::{CertificateTrustList, DateCheck, Policy};
use der_core::Octets;
use names_core::{NameList, UtcDate};
use program_frame::{CheckOptions, ListOption};
use std::alloc::{AllocError, Global};

/// The policy of `basic`: the signer's certificate isn't checked.
pub(crate) fn basic_policy(alloc: Global, hash: &[u8]) -> Result<Policy<'static>, AllocError>
    ensures { IfOk result (λ policy. policy ≡ basic_policy hash.now) }
{
    Ok(Policy {
        basic: true,
        file_hash: Some(Octets::from_slice(alloc, hash)?),
        signing: false,
        not_before: false,
        not_after: false,
        chain: false,
        date: DateCheck::Absent,
        against_list: false,
        list: None,
        now: 0,
        exclude: false,
        excluded: NameList::new(alloc),
    })
}

/// The policy of `check`, by its options and the trust list that was read from their file.
pub(crate) fn check_policy<'a>(
    alloc: Global,
    hash: &[u8],
    date: UtcDate,
    options: &CheckOptions<'_>,
    list: Option<&'a CertificateTrustList>,
) -> Result<Policy<'a>, AllocError>
    ensures { IfOk result (λ policy. policy ≡ check_policy hash.now date (options_held options.now) list.entry) }
{
    Ok(Policy {
        basic: true,
        file_hash: Some(Octets::from_slice(alloc, hash)?),
        signing: true,
        not_before: !options.no_before,
        not_after: !options.no_after,
        chain: !options.no_chain,
        date: moments(date, options.until),
        against_list: list.is_some(),
        list,
        now: moment(options.list),
        exclude: false,
        excluded: NameList::new(alloc),
    })
}

/// The moment at which the CA must be on the trust list, 0 without one.
fn moment(list: Option<ListOption<'_>>) -> i64
    ensures { result ≡ list_moment (option_map list_held list.entry) }
{
    match list {
        Some(list) => list.seconds,
        None => 0,
    }
}

/// The date, or the interval from it to another one.
fn moments(date: UtcDate, until: Option<UtcDate>) -> DateCheck
    ensures { result ≡ moments date until }
{
    match until {
        Some(other) => DateCheck::Interval {
            lower: date,
            upper: other,
        },
        None => DateCheck::Exact(date),
    }
}
