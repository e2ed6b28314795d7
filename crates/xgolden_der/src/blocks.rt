//! Digests of the results for whole blocks of inputs.

ghost use Rattle.std.specs.Prelude.{◌≤◌};

use crate::answer::push_answers;
use crate::family::Family;
use anyhow::Result;
use der_core::DerError;
use sha2::{Digest, Sha256};
use std::alloc::{AllocError, Global};
use std::io::Write;

/// The inputs of a block agree except for this many octets at their end.
const FREE_OCTETS: u8 = 2;

/// Prints the digest of each block of a family.
pub fn print_digests(alloc: Global, family: &Family, out: &mut impl Write) -> Result<()> {
    let free = family.count.min(FREE_OCTETS);
    let agreed = family.count - free;
    for number in 0..strings(agreed) {
        let block = extended(alloc, &family.prefix, number, agreed)?;
        let digest = hex::encode(alloc, block_digest(alloc, &block, free)?)?;
        let block = spelled(alloc, &block)?;
        writeln!(out, "{block} {digest}")?;
    }
    Ok(())
}

/// The SHA-256 of the output lines of all inputs that are a block's octets and `free` more.
fn block_digest(alloc: Global, block: &[u8], free: u8) -> Result<[u8; 32], DerError>
    requires { free ≤ FREE_OCTETS }
{
    let mut hasher = Sha256::new();
    let mut line = String::new(alloc);
    for number in 0..strings(free) {
        let input = extended(alloc, block, number, free)?;
        line.clear();
        push_answers(alloc, &mut line, &input)?;
        hasher.update(line.as_bytes());
    }
    Ok(hasher.finalize())
}

/// The number of strings of this many octets.
fn strings(count: u8) -> u32
    requires { count ≤ 3 }
{
    1 << (8 * u32::from(count))
}

/// The octets, and a number in `count` more, in big-endian order.
fn extended(alloc: Global, octets: &[u8], number: u32, count: u8) -> Result<Vec<u8>, AllocError>
    requires { count ≤ 3 }
{
    let mut input = Vec::from_slice(alloc, octets)?;
    input.extend_from_slice(&number.to_be_bytes()[4 - usize::from(count)..])?;
    Ok(input)
}

/// The octets in hexadecimal, or `-` for none.
fn spelled(alloc: Global, octets: &[u8]) -> Result<String, AllocError> {
    if octets.is_empty() {
        String::from_str(alloc, "-")
    } else {
        hex::encode(alloc, octets)
    }
}
