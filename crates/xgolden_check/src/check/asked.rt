//! A policy and a change of the file: words separated by commas.

use crate::check::lists::{ListWords, list_words_of, names_of};
use anyhow::{Result, bail};
use authenticode_core::{CertificateTrustList, Policy};
use der_core::Octets;
use std::alloc::Global;
use x509_core::DateCheck;
use xgolden::{date_of, octets_of};

/// What is asked, in words: of the policy, and the change of the file, `-` for none.
#[derive(Clone, Copy)]
pub struct Asked<'a> {
    flags: &'a str,
    hash: &'a str,
    lower: &'a str,
    upper: &'a str,
    pub change: &'a str,
    pub list: ListWords<'a>,
}

/// Five words, and behind them those of a trust list, if there is one.
pub fn asked_of(alloc: Global, text: &str) -> Result<Asked<'_>> {
    let words: Vec<&str> = text.split(',').collect(alloc)?;
    let [flags, hash, lower, upper, change, list @ ..] = words.as_slice() else {
        bail!("what is asked has five words or more");
    };
    Ok(Asked {
        flags: *flags,
        hash: *hash,
        lower: *lower,
        upper: *upper,
        change: *change,
        list: list_words_of(list)?,
    })
}

/// The policy, with this list. A flag is on if its letter is there.
pub fn policy_of<'a>(
    alloc: Global,
    asked: &Asked<'_>,
    list: Option<&'a CertificateTrustList>,
) -> Result<Policy<'a>> {
    let mut policy = Policy {
        basic: false,
        file_hash: hash_of(alloc, asked.hash)?,
        signing: false,
        not_before: false,
        not_after: false,
        chain: false,
        date: dates_of(asked.lower, asked.upper)?,
        against_list: false,
        list,
        now: asked.list.now,
        exclude: false,
        excluded: names_of(alloc, asked.list.excluded)?,
    };
    if asked.flags != "-" {
        for flag in asked.flags.bytes() {
            set(&mut policy, flag)?;
        }
    }
    Ok(policy)
}

fn set(policy: &mut Policy<'_>, flag: u8) -> Result<()> {
    match flag {
        b'b' => policy.basic = true,
        b's' => policy.signing = true,
        b'f' => policy.not_before = true,
        b'l' => policy.not_after = true,
        b'c' => policy.chain = true,
        b'a' => policy.against_list = true,
        b'e' => policy.exclude = true,
        _ => bail!("no flag has such a letter"),
    }
    Ok(())
}

fn hash_of(alloc: Global, word: &str) -> Result<Option<Octets>> {
    if word == "-" {
        return Ok(None);
    }
    let octets = octets_of(alloc, word)?;
    Ok(Some(Octets::from_slice(alloc, &octets)?))
}

/// A single date if no upper end is given.
fn dates_of(lower: &str, upper: &str) -> Result<DateCheck> {
    if lower == "-" {
        return Ok(DateCheck::Absent);
    }
    let first = date_of(lower)?;
    if upper == "-" {
        return Ok(DateCheck::Exact(first));
    }
    let last = date_of(upper)?;
    Ok(DateCheck::Interval {
        lower: first,
        upper: last,
    })
}
