//! Certificates.
//!
//! A vector is a call and its arguments: `structure certificate OCTETS`,
//! `view certificate OCTETS`, `kept certificate OCTETS`, `written certificate OCTETS ALGORITHM`,
//! `parent certificate OCTETS OCTETS`, `unlike certificate OCTETS OCTETS`,
//! `both certificate OCTETS`, or `both certificate BEGIN PART TIMES END`.

mod both;
mod details;
pub mod measure;
mod stored;
mod view;

use std::alloc::Global;
use x509_types::Certificate;
use xgolden::{Args, Line, Unanswered, are_equal, comes_back, number_of, value_of};

/// Prints the output for a vector.
pub fn print(alloc: Global, args: Args<'_>, line: &mut Line) {
    match (args.words, args.octets) {
        ([call, "certificate", words @ ..], [_, _, octets @ ..]) => {
            print_call(alloc, call, Args { words, octets }, line)
        }
        _ => line.no_call(),
    }
}

fn print_call(alloc: Global, call: &str, args: Args<'_>, line: &mut Line) {
    match (call, args.words, args.octets) {
        (_, _, [Some(octets)]) => print_one(alloc, call, octets, line),
        (_, _, [Some(one), Some(other)]) => print_two(alloc, call, one, other, line),
        ("both", [_, _, times, _], [Some(begin), Some(part), _, Some(end)]) => {
            print_repeated(alloc, (begin, part, end), times, line)
        }
        _ => line.no_call(),
    }
}

fn print_one(alloc: Global, call: &str, octets: &[u8], line: &mut Line) {
    match call {
        "structure" => print_structure(alloc, octets, line),
        "view" => print_view(octets, line),
        "both" => both::print(alloc, octets, line),
        "kept" => stored::print(alloc, octets, line),
        _ => line.no_call(),
    }
}

fn print_two(alloc: Global, call: &str, one: &[u8], other: &[u8], line: &mut Line) {
    match call {
        "unlike" => print_equal(alloc, one, other, line),
        "parent" => stored::print_parent(alloc, one, other, line),
        "written" => stored::print_written(alloc, one, other, line),
        _ => line.no_call(),
    }
}

/// Prints the output for octets with a repeated part.
fn print_repeated(alloc: Global, parts: (&[u8], &[u8], &[u8]), times: &str, line: &mut Line) {
    match repeated(alloc, parts, times) {
        Ok(octets) => both::print(alloc, &octets, line),
        Err(why) => line.lose(why),
    }
}

fn repeated(
    alloc: Global,
    (begin, part, end): (&[u8], &[u8], &[u8]),
    times: &str,
) -> Result<Vec<u8>, Unanswered> {
    Ok(both::repeated(alloc, begin, part, number_of(times)?, end)?)
}

/// Prints whether the certificate round-trips, and its fields; or that there is none.
fn print_structure(alloc: Global, element: &[u8], line: &mut Line) {
    match value_of::<Certificate>(alloc, element) {
        Ok(certificate) => {
            line.same(comes_back(alloc, element, &certificate));
            details::print(alloc, &certificate, line);
            drop(certificate);
        }
        Err(error) => line.refused(error),
    }
}

/// Prints the fields of the first certificate in the octets; or that there is none.
fn print_view(octets: &[u8], line: &mut Line) {
    match view::first_in(octets) {
        Ok(Some(view)) => view::print(&view, line),
        Ok(None) => line.word("Shape"),
        Err(malformed) => line.shown(&malformed),
    }
}

fn print_equal(alloc: Global, one: &[u8], other: &[u8], line: &mut Line) {
    line.equal(are_equal::<Certificate>(alloc, one, other));
}
