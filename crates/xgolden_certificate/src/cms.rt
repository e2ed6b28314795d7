//! Structures of PKCS #7 and Authenticode.
//!
//! A vector is a call, a kind and arguments: `structure KIND OCTETS`, `unlike KIND OCTETS OCTETS`,
//! `both pkcs7 OCTETS`, `members KIND OCTETS`, `make string TEXT`, `make sha NAME` or
//! `listed name LIST OCTETS SECONDS`.

mod both;
mod details;
mod listing;
mod making;
pub mod measure;
mod members;
mod structures;
mod view;

use std::alloc::Global;
use xgolden::{Args, Line};

/// Prints the output for a vector.
pub fn print(alloc: Global, args: Args<'_>, line: &mut Line) {
    match (args.words, args.octets) {
        ([call, kind, words @ ..], [_, _, octets @ ..]) => {
            print_call(alloc, (call, kind), Args { words, octets }, line)
        }
        _ => line.no_call(),
    }
}

fn print_call(alloc: Global, (call, kind): (&str, &str), args: Args<'_>, line: &mut Line) {
    match (call, args.octets) {
        ("structure", [Some(element)]) => structures::print(alloc, kind, element, line),
        ("unlike", [Some(one), Some(other)]) => structures::print_unlike(
            alloc,
            kind,
            (one, other),
            line,
        ),
        ("both", [Some(octets)]) => both::print(alloc, kind, octets, line),
        ("members", [Some(octets)]) => members::print(alloc, kind, octets, line),
        ("listed", [Some(list), Some(name), _]) => {
            listing::print(alloc, kind, (list, name), args.words, line)
        }
        ("make", _) => making::print(alloc, kind, args, line),
        _ => line.no_call(),
    }
}
