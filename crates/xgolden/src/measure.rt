//! Timing, for the programs of `bench/`.

use anyhow::Result;
use std::alloc::Global;
use std::io::Write;
use std::time::CpuClock;

/// A kind, the path of its file and how often it is read, if the words are these after `time`.
pub fn timed(words: &[String]) -> Option<(&str, &str, &str)> {
    match words {
        [time, kind, path, times] if time.as_str() == "time" => {
            Some((kind.as_str(), path.as_str(), times.as_str()))
        }
        _ => None,
    }
}

/// Does the work for each item this often, and prints a line: its name, for each item 1 if it
/// succeeded and else 0, the total nanoseconds, and a sum over the numbers returned, so that the
/// work isn't optimized away.
pub fn print_time<T, F: Fn(&T) -> Option<usize>>(
    alloc: Global,
    clock: &impl CpuClock,
    times: u32,
    name: &str,
    works: &[T],
    done: F,
    out: &mut impl Write,
) -> Result<()>
    requires { F.IsAlwaysCallable done }
{
    let mut which = String::new(alloc);
    for work in works {
        which.push(if done(work).is_some() { '1' } else { '0' })?;
    }
    let start = clock.thread_cpu_time()?;
    let mut sum = 0usize;
    for _ in 0..times {
        for work in works {
            sum = sum.wrapping_add(done(work).unwrap_or(0));
        }
    }
    let nanos = clock.thread_cpu_time()?.saturating_sub(start).as_nanos();
    writeln!(out, "{name} {which} {nanos} {sum}")?;
    Ok(())
}
