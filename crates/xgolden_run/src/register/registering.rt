//! The calls of a register, each with the key of the demonstration for its number.

use crate::register::calls::{Call, Kind};
use anyhow::{Context, Result};
use ca_register::{IssueError, Register};
use demo_core::private_key_of;
use key_core::SignatureAlgorithm;
use names_core::DirectoryName;
use sig_core::{DemoScheme, HashAlgorithm};
use std::alloc::Global;
use x509_issuing::Csr;

/// A register after these calls, and what each returned.
pub fn register_of(
    alloc: Global,
    calls: &[Call],
) -> Result<(Register<DemoScheme>, Vec<Result<usize, IssueError>>)> {
    let mut register = Register::new(alloc, DemoScheme::new());
    let mut answers = Vec::new(alloc);
    let mut number = 0u32;
    for call in calls {
        answers.push(answer(alloc, &mut register, call, number)?)?;
        number = number.checked_add(1).context("there are fewer calls")?;
    }
    Ok((register, answers))
}

/// What the register returns; the certificate's key and name have this number.
pub fn answer(
    alloc: Global,
    register: &mut Register<DemoScheme>,
    call: &Call,
    number: u32,
) -> Result<Result<usize, IssueError>> {
    let signer = private_key_of(alloc, call.signer)?;
    match call.kind {
        Kind::Root => Ok(register.root(name_of(alloc, number)?, &signer, call.grant, 1)),
        Kind::Child => {
            let name = name_of(alloc, number)?;
            let own = private_key_of(alloc, number)?.to_public_key(alloc)?;
            Ok(register.child(call.issuer, &signer, name, own, call.grant, 1))
        }
        _ => {
            let request = request_of(alloc, call.kind, number)?;
            Ok(register.enrol(call.issuer, &signer, &request, call.grant, 1))
        }
    }
}

/// A request of the key with this number, or what isn't one.
fn request_of(alloc: Global, kind: Kind, number: u32) -> Result<Vec<u8>> {
    let key = private_key_of(alloc, number)?;
    let algorithm = SignatureAlgorithm::RsaPkcs1v15(HashAlgorithm::SHA2_256);
    let csr = Csr::generate(
        alloc,
        name_of(alloc, number)?,
        &key,
        algorithm,
        &DemoScheme::new(),
    )?;
    let mut octets = csr.to_der(alloc)?;
    match kind {
        Kind::Unread => octets.push(0)?,
        Kind::Unsigned => {
            // the last octet is one of the signature
            if let Some(last) = octets.last_mut() {
                *last = !*last;
            }
        }
        _ => {}
    }
    Ok(octets)
}

/// The name with this number.
pub fn name_of(alloc: Global, number: u32) -> Result<DirectoryName> {
    let name = format!(in alloc; "N{number}")?;
    Ok(DirectoryName::new_common_name(alloc, name.as_str())?)
}
