//! Whole runs of the programs.
//!
//! A vector has these words:
//!
//! ```text
//! PROGRAM ROOM CALL NAME=OCTETS,.. WORD ..
//! ```
//!
//! ROOM is the room of the sink, in octets. CALL is the call of the shelf that fails, counted from
//! 0, or `-` for none. The files of the shelf have their octets in hexadecimal, `-` stands for no
//! files or octets, and `OCTETS*COUNT` for these octets repeated. The words are those of the
//! command line. The line has the status and what the sink holds.

use anyhow::{Context, Result, bail};
use demo_core::count_of;
use program_frame::{MemShelf, MemSink};
use std::alloc::Global;
use xgolden::octets_of;

/// The output for a vector.
pub fn answer(alloc: Global, row: &str) -> Result<String> {
    let words: Vec<&str> = row.split(' ').collect(alloc)?;
    let [program, room, call, files, words @ ..] = words.as_slice() else {
        bail!("a row has four words and those of a command line");
    };
    let mut shelf = shelf_of(alloc, files)?;
    if *call != "-" {
        shelf.fail_at(call.parse()?)?;
    }
    let mut sink = MemSink::with_room(alloc, room.parse()?)?;
    let status = status_of(alloc, program, &owned(alloc, words)?, &mut shelf, &mut sink)?;
    line_of(alloc, status, sink.held())
}

/// The status of a run of a program.
fn status_of(
    alloc: Global,
    program: &str,
    words: &[String],
    shelf: &mut MemShelf,
    sink: &mut MemSink,
) -> Result<u8> {
    match program {
        "picky" => match count_of(words) {
            Some(count) => Ok(demo_core::run(alloc, count, sink)),
            None => Ok(picky_check::run(alloc, words, shelf, sink)),
        },
        "picky_pe" => Ok(pe_image::run(alloc, words, shelf, sink)),
        "picky_anchor" => Ok(trust_anchors::run(alloc, words, shelf, sink)),
        "picky_ask" => Ok(signature_questions::run(alloc, words, shelf, sink)),
        "picky_ca" => Ok(ca_register::run(alloc, words, shelf, sink)),
        _ => bail!("no program has this name"),
    }
}

/// A status, and what a sink holds without the newline at its end.
fn line_of(alloc: Global, status: u8, held: &[u8]) -> Result<String> {
    let held = held.strip_suffix(b"\n").unwrap_or(held);
    let text = str::from_utf8(held).ok().context("a line is ASCII")?;
    Ok(format!(in alloc; "{status} {text}")?)
}

fn shelf_of(alloc: Global, files: &str) -> Result<MemShelf> {
    let mut shelf = MemShelf::new(alloc);
    if files == "-" {
        return Ok(shelf);
    }
    for file in files.split(',') {
        let (name, word) = file.split_once('=').context("a file has a name")?;
        shelf.add(name, &file_of(alloc, word)?)?;
    }
    Ok(shelf)
}

/// The octets of a file: a word in hexadecimal, or one and how often it is repeated.
fn file_of(alloc: Global, word: &str) -> Result<Vec<u8>> {
    let Some((octets, count)) = word.split_once('*') else {
        return Ok(octets_of(alloc, word)?);
    };
    let octets = octets_of(alloc, octets)?;
    let count: usize = count.parse()?;
    let mut file = Vec::new(alloc);
    for _ in 0..count {
        file.extend_from_slice(&octets)?;
    }
    Ok(file)
}

fn owned(alloc: Global, words: &[&str]) -> Result<Vec<String>> {
    let mut strings = Vec::new(alloc);
    for word in words {
        strings.push(String::from_str(alloc, word)?)?;
    }
    Ok(strings)
}
