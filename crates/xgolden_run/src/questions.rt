//! Which signatures `check_wincert` asks a scheme about, under many policies, and whether each is
//! one of the questions that `picky_ask` lists.
//!
//! A vector has a signature file in hexadecimal; a verdict table with `:` for each space and `;` for
//! each newline, `-` for none; the digest of the file, `-` for none; dates as `20250101000000Z` and
//! intervals with `-` between both ends, separated by commas; a trust list in hexadecimal, and the
//! time for it in seconds since 1601. The file is checked at each date under each choice of basic
//! validation, the signer, both ends of validities, the chain and the trust list, by the table and
//! by a scheme that accepts every signature. The line has how many questions there are, how many
//! different ones were asked of the table, how many of these are others, and the same of the other
//! scheme.

mod recorder;

use anyhow::{Context, Result, bail};
use authenticode_core::{CertificateTrustList, Policy, check_wincert};
use der_core::Octets;
use program_frame::{MemShelf, MemSink};
use recorder::Recorder;
use signature_questions::run;
use std::alloc::Global;
use x509_core::DateCheck;
use xgolden::{date_of, line_table_of, octets_of};

/// The room for the lines of the questions about a file.
const MOST_HELD: usize = 1_048_576;

/// The choices of six flags.
const CHOICES: u8 = 64;

/// What a file is checked for: its digest, dates, and a trust list with the time for it.
#[derive(Clone, Copy)]
struct Ways<'a> {
    hash: &'a str,
    dates: &'a str,
    list: &'a CertificateTrustList,
    now: i64,
}

/// The line for a vector.
pub fn answer(alloc: Global, row: &str) -> Result<String> {
    let words: Vec<&str> = row.split(' ').collect(alloc)?;
    let [file, table, hash, dates, list, now] = words.as_slice() else {
        bail!("a vector has a file, a table, a digest, dates, a trust list and a time");
    };
    let file = octets_of(alloc, file)?;
    let list = CertificateTrustList::from_der(alloc, &octets_of(alloc, list)?)?;
    let ways = Ways {
        hash: *hash,
        dates: *dates,
        list: &list,
        now: now.parse()?,
    };
    let listed = listed_of(alloc, &file)?;
    let (asked, others) = counts_under(alloc, &file, &listed, ways, false, table)?;
    let (more, more_others) = counts_under(alloc, &file, &listed, ways, true, table)?;
    Ok(format!(in alloc;
        "questions={} asked={asked} others={others} accepting: asked={more} others={more_others}",
        listed.len()
    )?)
}

/// How many questions a scheme is asked, and how many of them aren't listed.
fn counts_under(
    alloc: Global,
    file: &[u8],
    listed: &[String],
    ways: Ways<'_>,
    accepts: bool,
    table: &str,
) -> Result<(usize, usize)> {
    let recorder = Recorder::over(alloc, accepts, line_table_of(alloc, table)?);
    for date in ways.dates.split(',') {
        check_under_all(alloc, file, ways, date, &recorder)?;
    }
    recorder.counts(listed)
}

/// The questions that `picky_ask` lists, each as the recorder has it.
fn listed_of(alloc: Global, file: &[u8]) -> Result<Vec<String>> {
    let mut shelf = MemShelf::new(alloc);
    shelf.add("SIG", file)?;
    let mut sink = MemSink::with_room(alloc, MOST_HELD)?;
    let mut words = Vec::new(alloc);
    words.push(String::from_str(alloc, "SIG")?)?;
    let status = run(alloc, &words, &mut shelf, &mut sink);
    let mut listed = Vec::new(alloc);
    if status != 0 {
        return Ok(listed);
    }
    let text = str::from_utf8(sink.held()).ok().context("a line is ASCII")?;
    for line in text.lines() {
        listed.push(question_in(alloc, line)?)?;
    }
    Ok(listed)
}

fn question_in(alloc: Global, line: &str) -> Result<String> {
    let words: Vec<&str> = line.split(' ').collect(alloc)?;
    let [name, _, _, _, key, message, signature] = words.as_slice() else {
        bail!("a question has seven words");
    };
    Ok(format!(in alloc; "{name} {key} {message} {signature}")?)
}

/// Checks a file under each choice of flags; what is returned doesn't matter.
fn check_under_all(
    alloc: Global,
    file: &[u8],
    ways: Ways<'_>,
    date: &str,
    recorder: &Recorder,
) -> Result<()> {
    for choice in 0..CHOICES {
        let policy = policy_of(alloc, choice, ways, date)?;
        let _ = check_wincert(alloc, file, &policy, recorder);
    }
    Ok(())
}

/// The policy of a choice: a flag is on if its bit is.
fn policy_of<'a>(alloc: Global, choice: u8, ways: Ways<'a>, date: &str) -> Result<Policy<'a>> {
    let mut policy = Policy::new(alloc);
    policy.basic = choice & 1 != 0;
    policy.file_hash = hash_of(alloc, ways.hash)?;
    policy.signing = choice & 2 != 0;
    policy.not_before = choice & 4 != 0;
    policy.not_after = choice & 8 != 0;
    policy.chain = choice & 16 != 0;
    policy.date = dates_of(date)?;
    policy.against_list = choice & 32 != 0;
    policy.list = if policy.against_list {
        Some(ways.list)
    } else {
        None
    };
    policy.now = ways.now;
    policy.exclude = false;
    Ok(policy)
}

fn hash_of(alloc: Global, word: &str) -> Result<Option<Octets>> {
    if word == "-" {
        return Ok(None);
    }
    let octets = octets_of(alloc, word)?;
    Ok(Some(Octets::from_slice(alloc, &octets)?))
}

/// A date, or both ends of an interval.
fn dates_of(word: &str) -> Result<DateCheck> {
    let Some((lower, upper)) = word.split_once('-') else {
        return Ok(DateCheck::Exact(date_of(word)?));
    };
    Ok(DateCheck::Interval {
        lower: date_of(lower)?,
        upper: date_of(upper)?,
    })
}
