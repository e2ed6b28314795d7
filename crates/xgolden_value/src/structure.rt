//! Structures, names and keys.
//!
//! A vector is a call, a kind and arguments: `structure KIND OCTETS`, `unlike KIND OCTETS OCTETS`,
//! `find general_names OCTETS`, or `make`, `key`, `point`, `private`, `signature` or `view` with
//! the arguments of each kind.

mod attribute_making;
mod details;
mod extension_making;
mod general_finding;
mod general_making;
mod keys;
mod making;
mod points;
mod private_keys;
mod signatures;
mod structures;
mod views;

use std::alloc::Global;
use xgolden::{Args, Line};

/// Prints the output for a vector.
pub fn print(alloc: Global, args: Args<'_>, line: &mut Line) {
    match (args.words, args.octets) {
        ([call, kind, words @ ..], [_, _, octets @ ..]) => {
            print_call(alloc, (call, kind), Args { words, octets }, line)
        }
        _ => line.no_call(),
    }
}

fn print_call(alloc: Global, (call, kind): (&str, &str), args: Args<'_>, line: &mut Line) {
    match (call, args.octets) {
        ("structure", [Some(element)]) => structures::print(alloc, kind, element, line),
        ("unlike", [Some(one), Some(other)]) => structures::print_unlike(
            alloc,
            kind,
            (one, other),
            line,
        ),
        ("find", [Some(element)]) => general_finding::print(alloc, kind, element, line),
        ("make", _) => print_made(alloc, kind, args, line),
        ("key", _) => keys::print(alloc, kind, args, line),
        ("point", octets) => points::print(alloc, kind, octets, line),
        ("private", _) => private_keys::print(alloc, kind, args, line),
        ("signature", _) => signatures::print(alloc, kind, args, line),
        ("view", _) => views::print(alloc, kind, args, line),
        _ => line.no_call(),
    }
}

/// Prints a value from its parts.
fn print_made(alloc: Global, kind: &str, args: Args<'_>, line: &mut Line) {
    match (kind, args.split()) {
        ("extension", Some((parts, args))) => extension_making::print(alloc, parts, args, line),
        ("valued_attribute", Some((parts, args))) => {
            attribute_making::print(alloc, parts, args.octets, line)
        }
        ("general_name", Some((parts, args))) => {
            general_making::print(alloc, parts, args.octets, line)
        }
        _ => making::print(alloc, kind, args, line),
    }
}
