//! Paths to trust anchors.
//!
//! A vector has these words:
//!
//! ```text
//! PURPOSE DATE ANCHOR,.. CERTIFICATE POOL,..
//! ```
//!
//! PURPOSE is `code` or `time`, DATE the contents of a GeneralizedTime. An anchor is `code`,
//! `time`, `code+time` or `neither`, a colon and its octets. Octets are in hexadecimal, `-` is no
//! anchors or an empty pool. The line has the path that is found, or `none`.

use anyhow::{Context, Result, bail};
use sig_core::DemoScheme;
use std::alloc::Global;
use trust_anchors::{AnchorError, AnchorStore, AnchoredPath, Purpose};
use x509_core::Cert;
use xgolden::{date_of, octets_of};

/// The line for a vector.
pub fn answer(alloc: Global, row: &str) -> Result<String> {
    let words: Vec<&str> = row.split(' ').collect(alloc)?;
    let [purpose, date, anchors, certificate, pool] = words.as_slice() else {
        bail!("a vector has five words");
    };
    let anchors = anchors_of(alloc, anchors)?;
    let certificate = certificate_of(alloc, certificate)?;
    let pool = pool_of(alloc, pool)?;
    let date = date_of(date)?;
    let purpose = purpose_of(purpose)?;
    let found = anchors.find(
        alloc,
        &certificate,
        &pool,
        purpose,
        &date,
        &DemoScheme::new(),
    );
    line_of(alloc, found)
}

/// The line for what is found.
fn line_of(alloc: Global, found: Result<Option<AnchoredPath>, AnchorError>) -> Result<String> {
    match found {
        Ok(Some(path)) => path_line(alloc, &path),
        Ok(None) => Ok(String::from_str(alloc, "none")?),
        Err(AnchorError::TooMany { count }) => Ok(format!(in alloc; "too many: {count}")?),
        Err(AnchorError::Memory) => bail!("out of memory"),
    }
}

fn path_line(alloc: Global, path: &AnchoredPath) -> Result<String> {
    let mut line = String::from_str(alloc, "anchored pool=")?;
    for (at, place) in path.pool.as_slice().iter().enumerate() {
        let comma = if at == 0 { "" } else { "," };
        let word = format!(in alloc; "{comma}{place}")?;
        line.push_str(word.as_str())?;
    }
    let end = format!(in alloc; " anchor={}", path.anchor)?;
    line.push_str(end.as_str())?;
    Ok(line)
}

fn purpose_of(word: &str) -> Result<Purpose> {
    match word {
        "code" => Ok(Purpose::Code),
        "time" => Ok(Purpose::Time),
        _ => bail!("no purpose is called so"),
    }
}

/// Whether an anchor is trusted for signing code, and for time stamping.
fn purposes_of(word: &str) -> Result<(bool, bool)> {
    match word {
        "code" => Ok((true, false)),
        "time" => Ok((false, true)),
        "code+time" => Ok((true, true)),
        "neither" => Ok((false, false)),
        _ => bail!("no purposes are called so"),
    }
}

fn anchors_of(alloc: Global, words: &str) -> Result<AnchorStore> {
    let mut anchors = AnchorStore::new(alloc);
    if words == "-" {
        return Ok(anchors);
    }
    for word in words.split(',') {
        let (purposes, octets) = word.split_once(':').context("an anchor has purposes")?;
        let (code, time) = purposes_of(purposes)?;
        anchors.add(certificate_of(alloc, octets)?, code, time)?;
    }
    Ok(anchors)
}

fn pool_of(alloc: Global, words: &str) -> Result<Vec<Cert>> {
    let mut pool = Vec::new(alloc);
    if words == "-" {
        return Ok(pool);
    }
    for word in words.split(',') {
        pool.push(certificate_of(alloc, word)?)?;
    }
    Ok(pool)
}

fn certificate_of(alloc: Global, word: &str) -> Result<Cert> {
    let octets = octets_of(alloc, word)?;
    Ok(Cert::from_der(alloc, &octets)?)
}
