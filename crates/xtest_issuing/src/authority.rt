//! A CA, by the moduli of its keys.

use ca_register::{Grant, IssueError, Register};
use key_core::{PrivateKey, PublicKey};
use names_core::{DirectoryName, UtcDate};
use sig_core::DemoScheme;
use std::alloc::Global;
use std::test::Fail;

/// The RSA private key with this modulus, and the exponent 3.
pub(crate) fn key_of(alloc: Global, modulus: u8) -> Result<PrivateKey, Fail> {
    let octets = [
        0x30, 27, 2, 1, 0, 2, 1, modulus, 2, 1, 3, 2, 1, 5, 2, 1, 7, 2, 1, 11, 2, 1, 1, 2, 1, 2, 2,
        1, 4,
    ];
    Ok(PrivateKey::from_pkcs1(alloc, &octets)?)
}

pub(crate) fn public_key_of(alloc: Global, modulus: u8) -> Result<PublicKey, Fail> {
    Ok(key_of(alloc, modulus)?.to_public_key(alloc)?)
}

/// The first second of a day.
pub(crate) fn day((year, month, day): (u16, u8, u8)) -> Result<UtcDate, Fail> {
    match UtcDate::ymd(year, month, day) {
        Some(date) => Ok(date),
        None => Err(Fail::from("no such day")),
    }
}

/// A grant from the first second of a year to that of another.
pub(crate) fn grant(
    ca: bool,
    path_length: Option<u8>,
    (from, to): (u16, u16),
) -> Result<Grant, Fail> {
    Ok(Grant {
        ca,
        path_length,
        from: day((from, 1, 1))?,
        to: day((to, 1, 1))?,
    })
}

pub(crate) fn name_of(alloc: Global, name: &str) -> Result<DirectoryName, Fail> {
    Ok(DirectoryName::new_common_name(alloc, name)?)
}

/// Issues a certificate for the key with this modulus, signed by the key with the issuer's modulus.
pub(crate) fn child(
    alloc: Global,
    register: &mut Register<DemoScheme>,
    (issuer, signer): (usize, u8),
    (name, modulus): (&str, u8),
    grant: Grant,
) -> Result<Result<usize, IssueError>, Fail> {
    let key = key_of(alloc, signer)?;
    let subject = name_of(alloc, name)?;
    let public = public_key_of(alloc, modulus)?;
    Ok(register.child(issuer, &key, subject, public, grant, 2))
}

/// A register of a root without a path length, and the root's key, the modulus 17.
pub(crate) fn with_root(alloc: Global) -> Result<Register<DemoScheme>, Fail> {
    let mut register = Register::new(alloc, DemoScheme::new());
    let key = key_of(alloc, 17)?;
    let place = register.root(
        name_of(alloc, "R")?,
        &key,
        grant(true, None, (2020, 2030))?,
        1,
    )?;
    if place != 0 {
        return Err(Fail::from("the root isn't the first"));
    }
    Ok(register)
}

/// A root from 2020 to 2030, an intermediate of path length 0 from 2021 to 2029, and a leaf under
/// it from 2020 to 2025.
pub(crate) fn with_leaf(alloc: Global) -> Result<Register<DemoScheme>, Fail> {
    let mut register = with_root(alloc)?;
    let of_intermediate = grant(true, Some(0), (2021, 2029))?;
    let intermediate = child(alloc, &mut register, (0, 17), ("I", 18), of_intermediate)??;
    let of_leaf = grant(false, None, (2020, 2025))?;
    let leaf = child(alloc, &mut register, (1, 18), ("L", 19), of_leaf)??;
    if (intermediate, leaf) != (1, 2) {
        return Err(Fail::from("the places aren't in order"));
    }
    Ok(register)
}
