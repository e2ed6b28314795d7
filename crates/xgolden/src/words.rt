//! The words of a vector.

use crate::unanswered::Unanswered;
use anyhow::{Context, Result, bail};
use asn1_types::GeneralizedTime;
use hex::FromHexError;
use names_core::UtcDate;
use sig_core::{HashAlgorithm, VerdictTable};
use std::alloc::{AllocError, Global};
use std::str::FromStr;

/// The octets of a word in hexadecimal, `-` for none.
pub fn octets_of(alloc: Global, word: &str) -> Result<Vec<u8>, Unanswered> {
    if word == "-" {
        return Ok(Vec::new(alloc));
    }
    match hex::decode(alloc, word) {
        Ok(octets) => Ok(octets),
        Err(FromHexError::OutOfMemory) => Err(Unanswered::Memory),
        Err(_) => Err(Unanswered::NoOctets),
    }
}

/// The text in octets.
pub fn text_of(octets: &[u8]) -> Result<&str, Unanswered> {
    match str::from_utf8(octets) {
        Ok(text) => Ok(text),
        Err(_) => Err(Unanswered::NoText),
    }
}

/// The flag for `true` or `false`.
pub fn flag_of(word: &str) -> Result<bool, Unanswered> {
    match word {
        "true" => Ok(true),
        "false" => Ok(false),
        _ => Err(Unanswered::NoCall),
    }
}

/// A decimal number.
pub fn number_of<T: FromStr>(word: &str) -> Result<T, Unanswered>
where
    T::Err: Drop,
{
    match word.parse() {
        Ok(number) => Ok(number),
        Err(_) => Err(Unanswered::NoCall),
    }
}

/// Octets as a word.
pub fn word_of(alloc: Global, octets: &[u8]) -> Result<String, AllocError> {
    if octets.is_empty() {
        String::from_str(alloc, "-")
    } else {
        hex::encode(alloc, octets)
    }
}

/// The moment by the contents of its GeneralizedTime.
pub fn date_of(word: &str) -> Result<UtcDate> {
    let time = GeneralizedTime::from_content(word.as_bytes());
    Ok(UtcDate::from(time.context("no moment is written so")?))
}

/// Whether a certificate is a CA's: `ca` or `end`.
pub fn ca_flag_of(word: &str) -> Result<bool> {
    match word {
        "ca" => Ok(true),
        "end" => Ok(false),
        _ => bail!("no flag is written so"),
    }
}

/// A path length, `-` for none.
pub fn length_of(word: &str) -> Result<Option<u8>> {
    if word == "-" {
        return Ok(None);
    }
    Ok(Some(word.parse()?))
}

/// A digest algorithm by its name.
pub fn digest_of(name: &str) -> Result<HashAlgorithm> {
    for digest in HashAlgorithm::ALL {
        if digest.name() == name {
            return Ok(digest);
        }
    }
    bail!("no digest algorithm is called so")
}

/// The verdict table with the text in octets.
pub fn table_of(alloc: Global, word: &str) -> Result<VerdictTable> {
    let text = octets_of(alloc, word)?;
    Ok(VerdictTable::parse(alloc, &text)?)
}

/// The verdict table with `:` for each space and `;` for each newline, `-` for an empty one.
pub fn line_table_of(alloc: Global, word: &str) -> Result<VerdictTable> {
    if word == "-" {
        return Ok(VerdictTable::parse(alloc, b"")?);
    }
    let spaced = word.replace(alloc, ':', " ")?;
    let text = spaced.replace(alloc, ';', "\n")?;
    Ok(VerdictTable::parse(alloc, text.as_bytes())?)
}
