//! Registers that enrol requests of another program, under keys and signatures of that program.

use crate::register::calls::{Call, Kind, call_of};
use crate::register::printing::{print_answer, print_marks};
use crate::register::registering::name_of;
use crate::register::stored::Stored;
use anyhow::{Context, Result, bail};
use ca_register::{IssueError, Register};
use key_core::PrivateKey;
use names_core::UtcDate;
use sig_core::DemoScheme;
use std::alloc::Global;
use xgolden::{Line, date_of, octets_of};

/// Prints the line for a row, after its first word.
pub fn print(alloc: Global, words: &str, line: &mut Line) -> Result<()> {
    let words: Vec<&str> = words.split(' ').collect(alloc)?;
    let [table, signatures, keys, date, calls @ ..] = words.as_slice() else {
        bail!("a table, signatures, keys and a date are given");
    };
    print_called(alloc, (table, signatures), (keys, date), calls, line)
}

fn print_called(
    alloc: Global,
    (table, signatures): (&str, &str),
    (keys, date): (&str, &str),
    calls: &[&str],
    line: &mut Line,
) -> Result<()> {
    let date = date_of(date)?;
    let keys = keys_of(alloc, keys)?;
    let scheme = Stored::of(alloc, table, signatures)?;
    let register = register_of(alloc, scheme, &keys, calls, line)?;
    print_register(alloc, &register, &date, line)
}

/// Prints which certificates are accepted at a date, and each certificate.
fn print_register(
    alloc: Global,
    register: &Register<Stored>,
    date: &UtcDate,
    line: &mut Line,
) -> Result<()> {
    print_marks(alloc, register, date, line)?;
    print_certificates(register, line)
}

/// Private keys, commas between.
fn keys_of(alloc: Global, words: &str) -> Result<Vec<PrivateKey>> {
    let mut keys = Vec::new(alloc);
    for word in words.split(',') {
        let octets = octets_of(alloc, word)?;
        keys.push(PrivateKey::from_pkcs8(alloc, &octets, &DemoScheme::new())?)?;
    }
    Ok(keys)
}

/// The register after these calls; prints what each returns.
fn register_of(
    alloc: Global,
    scheme: Stored,
    keys: &[PrivateKey],
    words: &[&str],
    line: &mut Line,
) -> Result<Register<Stored>> {
    let mut register = Register::new(alloc, scheme);
    let mut number = 0u32;
    for word in words {
        number = number.checked_add(1).context("there are fewer calls")?;
        let (call, request) = word.rsplit_once(',').context("a call and a request")?;
        let call = call_of(alloc, call)?;
        let signer = keys.get(call.signer as usize).context("there is one")?;
        let request = octets_of(alloc, request)?;
        let answer = answer(alloc, &mut register, (&call, number), signer, &request)?;
        print_answer(&answer, line)?;
    }
    Ok(register)
}

/// What the register returns for a call with this number.
fn answer(
    alloc: Global,
    register: &mut Register<Stored>,
    (call, number): (&Call, u32),
    signer: &PrivateKey,
    request: &[u8],
) -> Result<Result<usize, IssueError>> {
    match call.kind {
        Kind::Root => Ok(register.root(name_of(alloc, number)?, signer, call.grant, number)),
        _ => Ok(register.enrol(call.issuer, signer, request, call.grant, number)),
    }
}

fn print_certificates(register: &Register<Stored>, line: &mut Line) -> Result<()> {
    for index in 0..register.len() {
        let certificate = register.certificate(index).context("there is one")?;
        line.octets(certificate.as_bytes());
    }
    Ok(())
}
