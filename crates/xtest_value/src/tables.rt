//! Texts of verdict tables, and the first bad lines of bad ones.

use crate::rows::{KEY, MSG, ROW, SIG, VERSION_2, joined};
use sig_core::{SigAlg, TableError, VerdictTable};
use std::alloc::{AllocError, Global};
use std::test::Fail;

/// Texts in pieces, and the first bad line.
#[rattlefmt::skip]
const TABLES: [(&str, &[&str], Option<u64>); 44] = [
    ("no rows", &[], None),
    ("one row", &[ROW], None),
    ("a row twice", &[ROW, ROW], None),
    ("another algorithm", &["ed25519 ", KEY, " ", MSG, " ", SIG, "\n", ROW], None),
    ("no last newline", &["rsa-sha256 ", KEY, " ", MSG, " ", SIG], Some(1)),
    ("no last newline after a row", &[ROW, "rsa-sha256 ", KEY, " ", MSG, " ", SIG], Some(2)),
    ("an octet after the last newline", &[ROW, "r"], Some(2)),
    ("an empty line", &["\n"], Some(1)),
    ("an empty last line", &[ROW, "\n"], Some(2)),
    ("a carriage return", &["rsa-sha256 ", KEY, " ", MSG, " ", SIG, "\r\n"], Some(1)),
    ("a carriage return alone", &["rsa-sha256 ", KEY, " ", MSG, " ", SIG, "\r"], Some(1)),
    ("upper-case digits", &["rsa-sha256 ", KEY, " ", MSG, " ", "1A2FC26DC7EA5A2A4748B7CB2B1EF193D96AB2C99F93092F69E63075B28D1278", "\n"], Some(1)),
    ("an upper-case name", &["RSA-SHA256 ", KEY, " ", MSG, " ", SIG, "\n"], Some(1)),
    ("an unknown algorithm", &["rsa-sha3 ", KEY, " ", MSG, " ", SIG, "\n"], Some(1)),
    ("the front of a name", &["rsa-sha25 ", KEY, " ", MSG, " ", SIG, "\n"], Some(1)),
    ("no name", &[" ", KEY, " ", MSG, " ", SIG, "\n"], Some(1)),
    ("a doubled space", &["rsa-sha256 ", KEY, "  ", MSG, " ", SIG, "\n"], Some(1)),
    ("a space at the end", &["rsa-sha256 ", KEY, " ", MSG, " ", SIG, " \n"], Some(1)),
    ("a space before the name", &[" ", ROW], Some(1)),
    ("a tab", &["rsa-sha256 ", KEY, "\t", MSG, " ", SIG, "\n"], Some(1)),
    ("two digests", &["rsa-sha256 ", KEY, " ", MSG, "\n"], Some(1)),
    ("four digests", &["rsa-sha256 ", KEY, " ", MSG, " ", SIG, " ", SIG, "\n"], Some(1)),
    ("65 digits", &["rsa-sha256 ", KEY, " ", MSG, " ", SIG, "0\n"], Some(1)),
    ("63 digits", &["rsa-sha256 ", KEY, " ", MSG, " ", "1a2fc26dc7ea5a2a4748b7cb2b1ef193d96ab2c99f93092f69e63075b28d127", "\n"], Some(1)),
    ("a bad third line", &[ROW, ROW, "rsa-sha256\n", ROW], Some(3)),
    ("the first of two bad lines", &[ROW, "?\n", "?\n"], Some(2)),
    ("version 2 without rows", &[VERSION_2], None),
    ("each verdict", &[VERSION_2, "accept ", ROW, "reject ", ROW, "malformed ", ROW], None),
    ("another verdict", &[VERSION_2, "yes ", ROW], Some(2)),
    ("an upper-case verdict", &[VERSION_2, "Accept ", ROW], Some(2)),
    ("the front of a verdict", &[VERSION_2, "accep ", ROW], Some(2)),
    ("a verdict with a letter more", &[VERSION_2, "accepted ", ROW], Some(2)),
    ("a doubled space behind the verdict", &[VERSION_2, "accept  ", ROW], Some(2)),
    ("a verdict alone", &[VERSION_2, "accept \n"], Some(2)),
    ("two verdicts", &[VERSION_2, "accept reject ", ROW], Some(2)),
    ("a row of version 1", &[VERSION_2, "accept ", ROW, ROW], Some(3)),
    ("an octet after the last newline of version 2", &[VERSION_2, "accept ", ROW, "a"], Some(3)),
    ("a row of version 2", &[ROW, "accept ", ROW], Some(2)),
    ("the first line without its newline", &["picky-verdicts 2"], Some(1)),
    ("the first line with a carriage return", &["picky-verdicts 2\r\n", "accept ", ROW], Some(1)),
    ("the first line twice", &[VERSION_2, VERSION_2], Some(2)),
    ("the first line behind a row", &[ROW, VERSION_2], Some(2)),
    ("version 1 by name", &["picky-verdicts 1\n", ROW], Some(1)),
    ("version 3", &["picky-verdicts 3\n", "accept ", ROW], Some(1)),
];

#[test]
fn tables(rt: HostRuntime) -> Result<(), Fail> {
    for (why, pieces, bad_line) in &TABLES {
        assert!(rt; bad_line_of(rt.alloc(), pieces)? == *bad_line, "{why}");
    }
    Ok(())
}

/// The first bad line of a text in pieces.
fn bad_line_of(alloc: Global, pieces: &[&str]) -> Result<Option<u64>, AllocError> {
    let text = joined(alloc, pieces)?;
    match VerdictTable::parse(alloc, text.as_bytes()) {
        Ok(_) => Ok(None),
        Err(TableError::BadLine { number }) => Ok(Some(number)),
        Err(TableError::Memory) => Err(AllocError),
    }
}

/// The first line of the version, then a line for each algorithm, the one at this index spoiled.
fn ten_rows(alloc: Global, verdicts: &[&str], spoiled: usize) -> Result<String, AllocError> {
    let mut text = String::new(alloc);
    if !verdicts.is_empty() {
        text.push_str(VERSION_2)?;
    }
    for (place, alg) in SigAlg::ALL.iter().enumerate() {
        if place == spoiled {
            text.push(' ')?;
        }
        text.push_str(verdicts.get(place % 3).copied().unwrap_or(""))?;
        text.push_str(&joined(alloc, &[alg.name(), " ", KEY, " ", MSG, " ", SIG, "\n"])?)?;
    }
    Ok(text)
}

/// Whether each spoiled line is reported by its number, of these.
fn reports_each_bad_line(
    alloc: Global,
    verdicts: &[&str],
    numbers: &[u64; 10],
) -> Result<bool, AllocError> {
    for (place, number) in numbers.iter().enumerate() {
        let text = ten_rows(alloc, verdicts, place)?;
        if bad_line_of(alloc, &[&text])? != Some(*number) {
            return Ok(false);
        }
    }
    let text = ten_rows(alloc, verdicts, SigAlg::ALL.len())?;
    Ok(bad_line_of(alloc, &[&text])?.is_none())
}

#[test]
fn bad_lines_of_ten(rt: HostRuntime) -> Result<(), Fail> {
    let words = &["accept ", "reject ", "malformed "];
    assert!(rt; reports_each_bad_line(rt.alloc(), &[], &[1, 2, 3, 4, 5, 6, 7, 8, 9, 10])?);
    assert!(rt; reports_each_bad_line(rt.alloc(), words, &[2, 3, 4, 5, 6, 7, 8, 9, 10, 11])?);
    Ok(())
}

/// Texts of tables in pieces, and the text of each in version 2.
#[rattlefmt::skip]
const WRITTEN: [(&str, &[&str], &[&str]); 4] = [
    ("no rows", &[], &[VERSION_2]),
    ("one row of version 1", &[ROW], &[VERSION_2, "accept ", ROW]),
    ("two rows of version 1", &["ed25519 ", KEY, " ", MSG, " ", SIG, "\n", ROW], &[VERSION_2, "accept ed25519 ", KEY, " ", MSG, " ", SIG, "\n", "accept ", ROW]),
    ("version 2", &[VERSION_2, "malformed ", ROW, "reject ", ROW, "accept ", ROW], &[VERSION_2, "malformed ", ROW, "reject ", ROW, "accept ", ROW]),
];

#[test]
fn texts(rt: HostRuntime) -> Result<(), Fail> {
    for (why, pieces, want) in &WRITTEN {
        assert!(rt; is_written_as(rt.alloc(), pieces, want)?, "{why}");
    }
    Ok(())
}

/// Whether a table is written as this text of version 2, which is read as the same table.
fn is_written_as(alloc: Global, pieces: &[&str], want: &[&str]) -> Result<bool, TableError> {
    let (text, want) = (joined(alloc, pieces)?, joined(alloc, want)?);
    let table = VerdictTable::parse(alloc, text.as_bytes())?;
    let written = table.to_bytes(alloc)?;
    let again = VerdictTable::parse(alloc, &written)?;
    Ok(written.as_slice() == want.as_bytes() && again == table)
}

#[test]
fn texts_of_errors(rt: HostRuntime) -> Result<(), Fail> {
    let bad = format!(in rt.alloc(); "{}", TableError::BadLine { number: 3 })?;
    assert!(rt; bad.as_str() == "line 3 of the verdict table is not a row");
    let memory = format!(in rt.alloc(); "{}", TableError::Memory)?;
    assert!(rt; memory.as_str() == "out of memory");
    Ok(())
}

/// Texts of tables that differ: another order, another number of rows, another verdict.
#[rattlefmt::skip]
const APART: [&[&str]; 7] = [
    &[],
    &[ROW],
    &[ROW, ROW],
    &[ROW, "ed25519 ", KEY, " ", MSG, " ", SIG, "\n"],
    &["ed25519 ", KEY, " ", MSG, " ", SIG, "\n", ROW],
    &[VERSION_2, "reject ", ROW],
    &[VERSION_2, "malformed ", ROW],
];

#[test]
fn rows(rt: HostRuntime) -> Result<(), Fail> {
    for pieces in &APART {
        assert!(rt; has_its_rows(rt.alloc(), pieces)?);
    }
    Ok(())
}

/// Whether a table has as many rows as its text has lines with rows, and is equal to its copy.
fn has_its_rows(alloc: Global, pieces: &[&str]) -> Result<bool, TableError> {
    let text = joined(alloc, pieces)?;
    let table = VerdictTable::parse(alloc, text.as_bytes())?;
    let copy = table.try_clone(alloc)?;
    let rows = text
        .lines()
        .filter(|line| line.len() > VERSION_2.len())
        .count();
    Ok(table.len() == rows && table.is_empty() == (rows == 0) && copy == table)
}

#[test]
fn equality(rt: HostRuntime) -> Result<(), Fail> {
    for (place, pieces) in APART.iter().enumerate() {
        for (other, others) in APART.iter().enumerate() {
            assert!(rt; are_equal(rt.alloc(), pieces, others)? == (place == other));
        }
    }
    Ok(())
}

/// Whether the tables of two texts are equal.
fn are_equal(alloc: Global, one: &[&str], other: &[&str]) -> Result<bool, TableError> {
    let (one, other) = (joined(alloc, one)?, joined(alloc, other)?);
    let one = VerdictTable::parse(alloc, one.as_bytes())?;
    let other = VerdictTable::parse(alloc, other.as_bytes())?;
    Ok(one == other)
}
