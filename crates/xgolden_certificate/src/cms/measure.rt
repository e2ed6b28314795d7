//! Timing the reading of signed data, for `bench/signed_data/signed_data.py`.

use anyhow::Result;
use cms_types::{Pkcs7Certificate, SignedView};
use der_core::{Cursor, Structure};
use std::alloc::Global;
use std::io::Write;
use std::slice;
use std::time::CpuClock;
use xgolden::print_time;

/// Reads a file of signed data this often: borrowed, and as an owned value.
pub fn print_times(
    alloc: Global,
    clock: &impl CpuClock,
    file: &[u8],
    times: u32,
    out: &mut impl Write,
) -> Result<()> {
    let works = slice::from_ref(&file);
    print_time(alloc, clock, times, "view", works, |file| lent(file), out)?;
    print_time(
        alloc,
        clock,
        times,
        "owned",
        works,
        |file| kept(alloc, file),
        out,
    )?;
    Ok(())
}

/// The number of signers of the owned value.
fn kept(alloc: Global, octets: &[u8]) -> Option<usize> {
    let value = Pkcs7Certificate::from_der(alloc, octets).ok()?;
    let count = value.signed_data.signers_infos.len();
    drop(value);
    Some(count)
}

/// The length of the digest algorithms of the borrowed value, in octets.
fn lent(octets: &[u8]) -> Option<usize> {
    match Cursor::new(octets).next() {
        Ok(Some(elem)) => Some(
            SignedView::read(elem)?
                .digest_algorithm_identifiers()
                .whole
                .len(),
        ),
        _ => None,
    }
}
