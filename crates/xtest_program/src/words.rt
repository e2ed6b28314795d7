//! Which words request a command, for an empty signature file `s`, another named `--until`, and an
//! empty table `t`.

use picky_check::{MemShelf, MemSink, REFUSED, USAGE, run};
use std::alloc::{AllocError, Global};

const OCTETS_64: &str = "000102030405060708090a0b0c0d0e0f101112131415161718191a1b1c1d1e1f\
    202122232425262728292a2b2c2d2e2f303132333435363738393a3b3c3d3e3f";

const OCTETS_65: &str = "000102030405060708090a0b0c0d0e0f101112131415161718191a1b1c1d1e1f\
    202122232425262728292a2b2c2d2e2f303132333435363738393a3b3c3d3e3f40";

// Words, and whether they request a command.
#[rattlefmt::skip]
const WORDS: [(&str, &[&str], bool); 70] = [
    ("no words",            &[],                              false),
    ("a command alone",     &["basic"],                       false),
    ("a word too few",      &["basic", "s", "t"],             false),
    ("a word too many",     &["basic", "s", "t", "00", "00"], false),
    ("another command",     &["checks", "s", "t", "00", "2025-01-31"], false),
    ("another case",        &["Basic", "s", "t", "00"],       false),
    ("a hash of 0 octets",  &["basic", "s", "t", ""],         false),
    ("of 1",                &["basic", "s", "t", "00"],       true),
    ("of 64",               &["basic", "s", "t", OCTETS_64],  true),
    ("of 65",               &["basic", "s", "t", OCTETS_65],  false),
    ("an odd digit",        &["basic", "s", "t", "0"],        false),
    ("three digits",        &["basic", "s", "t", "000"],      false),
    ("upper case",          &["basic", "s", "t", "AF"],       true),
    ("both cases",          &["basic", "s", "t", "aFfA"],     true),
    ("no digits",           &["basic", "s", "t", "x0"],       false),
    ("a prefix",            &["basic", "s", "t", "0x00"],     false),
    ("a space",             &["basic", "s", "t", "00 "],      false),
    ("a chain of one",      &["chain", "t", "2025-01-31", "s"],          true),
    ("of two at a moment",  &["chain", "t", "2024-02-29T23:59:59", "s", "s"], true),
    ("no certificate",      &["chain", "t", "2025-01-31"],    false),
    ("no such day",         &["chain", "t", "2023-02-29", "s"],          false),
    ("no such hour",        &["chain", "t", "2025-01-31T24:00:00", "s"], false),
    ("a hash for a date",   &["chain", "t", "00", "s"],       false),
    ("a date for a hash",   &["basic", "s", "t", "2025-01-31"], false),
    ("a check at a day",    &["check", "s", "t", "00", "2025-01-31"],          true),
    ("at a moment",         &["check", "s", "t", "00", "2024-02-29T23:59:59"], true),
    ("without a date",      &["check", "s", "t", "00"],                        false),
    ("at no such day",      &["check", "s", "t", "00", "2023-02-29"],          false),
    ("by no hash",          &["check", "s", "t", "0", "2025-01-31"],           false),
    ("a name like an option", &["check", "--until", "t", "00", "2025-01-31"],  true),
    ("up to a day",         &["check", "s", "t", "00", "2025-01-31", "--until", "2025-02-01"], true),
    ("to a moment",         &["check", "s", "t", "00", "2025-01-31", "--until", "2025-02-01T00:00:01"], true),
    ("to an earlier day",   &["check", "s", "t", "00", "2025-01-31", "--until", "2024-02-01"], true),
    ("to no such day",      &["check", "s", "t", "00", "2025-01-31", "--until", "2025-02-30"], false),
    ("to no day",           &["check", "s", "t", "00", "2025-01-31", "--until"], false),
    ("an option for a day", &["check", "s", "t", "00", "2025-01-31", "--until", "--no-chain"], false),
    ("a day in one word",   &["check", "s", "t", "00", "2025-01-31", "--until=2025-02-01"], false),
    ("not already",         &["check", "s", "t", "00", "2025-01-31", "--no-before"], true),
    ("not still",           &["check", "s", "t", "00", "2025-01-31", "--no-after"], true),
    ("no chain",            &["check", "s", "t", "00", "2025-01-31", "--no-chain"], true),
    ("each option",         &["check", "s", "t", "00", "2025-01-31", "--no-chain", "--until", "2025-02-01", "--no-after", "--no-before"], true),
    ("in another order",    &["check", "s", "t", "00", "2025-01-31", "--no-before", "--no-after", "--no-chain", "--until", "2025-02-01"], true),
    ("two days",            &["check", "s", "t", "00", "2025-01-31", "--until", "2025-02-01", "--until", "2025-02-01"], false),
    ("not already, twice",  &["check", "s", "t", "00", "2025-01-31", "--no-before", "--no-before"], false),
    ("not still, twice",    &["check", "s", "t", "00", "2025-01-31", "--no-after", "--no-chain", "--no-after"], false),
    ("no chain, twice",     &["check", "s", "t", "00", "2025-01-31", "--no-chain", "--no-chain"], false),
    ("ahead of the date",   &["check", "s", "t", "00", "--no-chain", "2025-01-31"], false),
    ("ahead of the files",  &["check", "--no-chain", "s", "t", "00", "2025-01-31"], false),
    ("a word between",      &["check", "s", "t", "00", "2025-01-31", "--no-after", "s", "--no-chain"], false),
    ("another option",      &["check", "s", "t", "00", "2025-01-31", "--help"], false),
    ("in another case",     &["check", "s", "t", "00", "2025-01-31", "--No-Chain"], false),
    ("a list",              &["check", "s", "t", "00", "2025-01-31", "--list", "t", "0"], true),
    ("of 18 digits",        &["check", "s", "t", "00", "2025-01-31", "--list", "t", "999999999999999999"], true),
    ("leading zeros",       &["check", "s", "t", "00", "2025-01-31", "--list", "t", "000000000000000000"], true),
    ("of 19 digits",        &["check", "s", "t", "00", "2025-01-31", "--list", "t", "0000000000000000000"], false),
    ("of no digit",         &["check", "s", "t", "00", "2025-01-31", "--list", "t", ""], false),
    ("with a plus",         &["check", "s", "t", "00", "2025-01-31", "--list", "t", "+1"], false),
    ("with a minus",        &["check", "s", "t", "00", "2025-01-31", "--list", "t", "-1"], false),
    ("with a space",        &["check", "s", "t", "00", "2025-01-31", "--list", "t", "1 "], false),
    ("hexadecimal seconds", &["check", "s", "t", "00", "2025-01-31", "--list", "t", "1a"], false),
    ("a date for seconds",  &["check", "s", "t", "00", "2025-01-31", "--list", "t", "2025-01-31"], false),
    ("a list alone",        &["check", "s", "t", "00", "2025-01-31", "--list"], false),
    ("without seconds",     &["check", "s", "t", "00", "2025-01-31", "--list", "t"], false),
    ("seconds first",       &["check", "s", "t", "00", "2025-01-31", "--list", "0", "t"], false),
    ("a list in one word",  &["check", "s", "t", "00", "2025-01-31", "--list=t", "0"], false),
    ("two lists",           &["check", "s", "t", "00", "2025-01-31", "--list", "t", "0", "--list", "t", "0"], false),
    ("a list like an option", &["check", "s", "t", "00", "2025-01-31", "--list", "--until", "0", "--until", "2025-02-01"], true),
    ("a list between",      &["check", "s", "t", "00", "2025-01-31", "--no-after", "--list", "t", "0", "--no-before"], true),
    ("a list of none",      &["basic", "s", "t", "00", "--list", "t", "0"], false),
    ("an option of none",   &["basic", "s", "t", "00", "--no-chain"], false),
];

#[test]
fn words_ask_for_a_job(rt: HostRuntime) -> Result<(), AllocError> {
    for (why, words, asks) in WORDS {
        let want = if asks { REFUSED } else { USAGE };
        assert!(rt; status_of(rt.alloc(), words)? == want, "{why}");
    }
    Ok(())
}

fn status_of(alloc: Global, words: &[&str]) -> Result<u8, AllocError> {
    let words = owned(alloc, words)?;
    let mut shelf = MemShelf::new(alloc);
    shelf.add("s", b"")?;
    shelf.add("--until", b"")?;
    shelf.add("t", b"")?;
    let mut sink = MemSink::with_room(alloc, 99)?;
    Ok(run(alloc, &words, &mut shelf, &mut sink))
}

fn owned(alloc: Global, words: &[&str]) -> Result<Vec<String>, AllocError> {
    let mut strings = Vec::new(alloc);
    for word in words {
        strings.push(String::from_str(alloc, word)?)?;
    }
    Ok(strings)
}
