//! OIDs, integers, strings, times and dates.
//!
//! A vector is a subject, a call and its arguments.

mod errors;
mod identifiers;
mod strings;
mod times;

use std::alloc::Global;
use xgolden::{Args, Line};

/// Prints the output for a vector.
pub fn print(alloc: Global, args: Args<'_>, line: &mut Line) {
    match (args.words, args.octets) {
        (["identifier", call, _], [_, _, Some(octets)]) => {
            identifiers::print(alloc, call, octets, line)
        }
        (["string", call, _], [_, _, Some(octets)]) => strings::print(alloc, call, octets, line),
        (["error", name], _) => errors::print(name, line),
        (["time", call, words @ ..], [_, _, octets @ ..]) => {
            times::print(alloc, call, Args { words, octets }, line)
        }
        _ => line.no_call(),
    }
}
