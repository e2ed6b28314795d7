//! Parsing the calls of a vector.

use anyhow::{Result, bail};
use ca_register::Grant;
use std::alloc::Global;
use xgolden::{ca_flag_of, date_of, length_of};

/// What is issued.
#[derive(Clone, Copy)]
pub enum Kind {
    Root,
    Child,
    /// For a request that is signed by its own key.
    Request,
    /// For a request that isn't.
    Unsigned,
    /// For octets that are no request.
    Unread,
}

/// A call of a register.
#[derive(Clone, Copy)]
pub struct Call {
    pub kind: Kind,
    /// The index of the issuer; 0 of a root.
    pub issuer: usize,
    /// The number of the key that signs.
    pub signer: u32,
    pub grant: Grant,
}

/// Calls, separated by spaces.
pub fn calls_of(alloc: Global, words: &str) -> Result<Vec<Call>> {
    let mut calls = Vec::new(alloc);
    for word in words.split(' ') {
        calls.push(call_of(alloc, word)?)?;
    }
    Ok(calls)
}

pub fn call_of(alloc: Global, word: &str) -> Result<Call> {
    let parts: Vec<&str> = word.split(',').collect(alloc)?;
    let [kind, issuer, signer, flag, length, first, last] = parts.as_slice() else {
        bail!("a call has seven parts");
    };
    Ok(Call {
        kind: kind_of(kind)?,
        issuer: issuer.parse()?,
        signer: signer.parse()?,
        grant: Grant {
            ca: ca_flag_of(flag)?,
            path_length: length_of(length)?,
            from: date_of(first)?,
            to: date_of(last)?,
        },
    })
}

fn kind_of(word: &str) -> Result<Kind> {
    match word {
        "root" => Ok(Kind::Root),
        "child" => Ok(Kind::Child),
        "request" => Ok(Kind::Request),
        "unsigned" => Ok(Kind::Unsigned),
        "unread" => Ok(Kind::Unread),
        _ => bail!("no kind is written so"),
    }
}
