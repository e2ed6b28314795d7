//! Timing the calls of a register, for `bench/register/register.py`.

use crate::register::calls::calls_of;
use crate::register::registering::register_of;
use anyhow::{Context, Result, bail};
use std::alloc::Global;
use std::io::Write;
use std::time::CpuClock;
use xgolden::date_of;

/// Prints the number of certificates, then nanoseconds: of making the register, of `usable` of the
/// last place, this often, and of verifying each certificate at the date; then how many were
/// accepted.
pub fn print_times(
    alloc: Global,
    clock: &impl CpuClock,
    row: &str,
    times: u32,
    out: &mut impl Write,
) -> Result<()> {
    let (date, calls) = row.split_once(' ').context("a row has a date and calls")?;
    let date = date_of(date)?;
    let calls = calls_of(alloc, calls)?;
    let start = clock.thread_cpu_time()?;
    let (register, _answers) = register_of(alloc, &calls)?;
    let made = clock.thread_cpu_time()?;
    let last = register
        .len()
        .checked_sub(1)
        .context("something is issued")?;
    let mut usable = 0u32;
    for _ in 0..times {
        let (from, to) = register.usable(last).context("it is a place")?;
        if from <= date && date <= to {
            usable = usable.wrapping_add(1);
        }
    }
    let asked = clock.thread_cpu_time()?;
    let mut accepted = 0usize;
    for place in 0..register.len() {
        if register.verify(alloc, place, &date).is_ok() {
            accepted = accepted.wrapping_add(1);
        }
    }
    let verified = clock.thread_cpu_time()?;
    if usable != 0 && usable != times {
        bail!("the dates differ");
    }
    writeln!(
        out,
        "{} {} {} {} {accepted}",
        register.len(),
        made.saturating_sub(start).as_nanos(),
        asked.saturating_sub(made).as_nanos(),
        verified.saturating_sub(asked).as_nanos()
    )?;
    Ok(())
}
