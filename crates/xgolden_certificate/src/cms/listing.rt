//! Names on trust lists.

use cms_content::{ListingError, expect_listed};
use cms_types::Ctl;
use der_core::{DerError, Structure};
use std::alloc::Global;
use xgolden::{Line, number_of};

/// Prints whether a name is listed at a time, the last word.
pub fn print(
    alloc: Global,
    kind: &str,
    (list, name): (&[u8], &[u8]),
    words: &[&str],
    line: &mut Line,
) {
    match (kind, words) {
        ("name", [_, _, seconds]) => match number_of::<i64>(seconds) {
            Ok(now) => match listing_of(alloc, list, name, now) {
                Ok(listing) => print_listing(listing, line),
                Err(error) => line.refused(error),
            },
            Err(why) => line.lose(why),
        },
        _ => line.no_call(),
    }
}

/// Whether the name is listed, by the octets of the list.
fn listing_of(
    alloc: Global,
    list: &[u8],
    name: &[u8],
    now: i64,
) -> Result<Result<(), ListingError>, DerError> {
    let list = Ctl::from_der(alloc, list)?;
    Ok(expect_listed(list.entries(), name, now))
}

fn print_listing(listing: Result<(), ListingError>, line: &mut Line) {
    match listing {
        Ok(()) => line.word("listed"),
        Err(error) => line.shown(&error),
    }
}
