//! The commands of the command line.

ghost use Rattle.std.specs.Prelude.{◌≡◌, Some, None, map, IfOk, IfSome, IsErr, IsSome, MatchOption, option_map, string_bytes, ◌∷◌, codes, Ok};
ghost use Rattle.picky_check.specs.OwnedCommand.{command_held};
ghost use Rattle.program_frame.specs.Commands.{AsksForNothing};
ghost use Rattle.picky_check.specs.Commands.{program};
ghost use Rattle.picky_check.specs.Words.{AsksFor, Command as AskedCommand, asked_hash};

use crate::chain_files::ChainFiles;
use names_core::UtcDate;
use program_frame::{CheckOptions, date_of, options_of};
use std::alloc::{AllocError, Global};

/// The maximal length of a hash, in octets.
const LONGEST_HASH: usize = 64;

/// The maximal number of certificates of a chain.
const MOST_CERTIFICATES: usize = 32;

/// A command with its arguments.
#[derive(Debug, Drop)]
pub(crate) enum Command<'a> {
    /// Checks the form of one signature file, its digest and its signature.
    Basic {
        signature: &'a str,
        table: &'a str,
        hash: Vec<u8>,
    },
    /// The same, and the signer's certificate with those of its issuers, at a date or over an
    /// interval, and whether a trust list has its CA.
    Check {
        signature: &'a str,
        table: &'a String,
        hash: Vec<u8>,
        date: UtcDate,
        options: CheckOptions<'a>,
    },
    /// Validates a certificate with its parents, at a date.
    Chain {
        table: &'a str,
        date: UtcDate,
        certificates: ChainFiles<'a>,
    },
}

/// Parses the words, by the table of commands. Nothing is allocated if they are no command.
pub(crate) fn command_of(alloc: Global, words: &[String]) -> Result<Option<Command<'_>>, AllocError>
    ensures asked { IfOk result (λ asked. MatchOption asked
        (AsksForNothing program (map string_bytes words.now))
        (λ held. AsksFor (map string_bytes words.now) (command_held held))) }
    ensures only { (asked : AskedCommand) → AsksFor (map string_bytes words.now) asked
        → IfOk result (λ held. option_map command_held held ≡ Some asked) }
    ensures memory { IsErr result
        → (asked : AskedCommand) × AsksFor (map string_bytes words.now) asked }
{
    let [command, words @ ..] = words else {
        return Ok(None);
    };
    match command.as_str() {
        "basic" => basic_of(alloc, words),
        "check" => check_of(alloc, words),
        "chain" => Ok(chain_of(words)),
        _ => Ok(None),
    }
}

/// Parses the words after `basic`.
fn basic_of(alloc: Global, words: &[String]) -> Result<Option<Command<'_>>, AllocError>
    ensures asked { IfOk result (λ asked. MatchOption asked
        (AsksForNothing program (codes "basic" ∷ map string_bytes words.now))
        (λ held. AsksFor (codes "basic" ∷ map string_bytes words.now) (command_held held))) }
    ensures only { (asked : AskedCommand) → AsksFor (codes "basic" ∷ map string_bytes words.now) asked
        → IfOk result (λ held. option_map command_held held ≡ Some asked) }
    ensures memory { IsErr result → (asked : AskedCommand)
        × AsksFor (codes "basic" ∷ map string_bytes words.now) asked }
{
    let [signature, table, hash] = words else {
        return Ok(None);
    };
    let Some(hash) = asked_hash(alloc, hash.as_str())? else {
        return Ok(None);
    };
    Ok(Some(Command::Basic {
        signature: signature.as_str(),
        table: table.as_str(),
        hash,
    }))
}

/// Parses the words after `check`.
fn check_of(alloc: Global, words: &[String]) -> Result<Option<Command<'_>>, AllocError>
    ensures asked { IfOk result (λ asked. MatchOption asked
        (AsksForNothing program (codes "check" ∷ map string_bytes words.now))
        (λ held. AsksFor (codes "check" ∷ map string_bytes words.now) (command_held held))) }
    ensures only { (asked : AskedCommand) → AsksFor (codes "check" ∷ map string_bytes words.now) asked
        → IfOk result (λ held. option_map command_held held ≡ Some asked) }
    ensures memory { IsErr result → (asked : AskedCommand)
        × AsksFor (codes "check" ∷ map string_bytes words.now) asked }
{
    let [signature, table, hash, date, options @ ..] = words else {
        return Ok(None);
    };
    let Some(date) = date_of(date.as_str()) else {
        return Ok(None);
    };
    let Some(options) = options_of(options) else {
        return Ok(None);
    };
    let Some(hash) = asked_hash(alloc, hash.as_str())? else {
        return Ok(None);
    };
    Ok(Some(Command::Check {
        signature: signature.as_str(),
        table,
        hash,
        date,
        options,
    }))
}

/// Parses the words after `chain`.
fn chain_of(words: &[String]) -> Option<Command<'_>>
    ensures asked { MatchOption result
        (AsksForNothing program (codes "chain" ∷ map string_bytes words.now))
        (λ held. AsksFor (codes "chain" ∷ map string_bytes words.now) (command_held held)) }
    ensures only { (asked : AskedCommand) → AsksFor (codes "chain" ∷ map string_bytes words.now) asked
        → option_map command_held result ≡ Some asked }
{
    let [table, date, names @ ..] = words else {
        return None;
    };
    if names.is_empty() || names.len() > MOST_CERTIFICATES {
        return None;
    }
    let date = date_of(date.as_str())?;
    Some(Command::Chain {
        table: table.as_str(),
        date,
        certificates: ChainFiles { names },
    })
}

// 1 to 64 octets in hexadecimal, digits of either case.
fn asked_hash(alloc: Global, word: &str) -> Result<Option<Vec<u8>>, AllocError>
    ensures value { IfOk result (λ hash. option_map (λ h. h.items) hash ≡ asked_hash word.now) }
    ensures memory { IsErr result → IsSome (asked_hash word.now) }
{
    let count = word.len() / 2;
    if count == 0 || count > LONGEST_HASH {
        return Ok(None);
    }
    let mut octets = [0; LONGEST_HASH];
    let hash = &mut octets[..count];
    match hex::decode_to_slice(word, hash) {
        Ok(()) => Ok(Some(Vec::from_slice(alloc, hash)?)),
        Err(_) => Ok(None),
    }
}
