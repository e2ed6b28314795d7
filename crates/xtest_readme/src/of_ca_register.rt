//! A CA with a register, which enrols a device by its request.

use ca_register::{Grant, IssueError, Register};
use key_core::{PrivateKey, SignatureAlgorithm};
use names_core::{DirectoryName, UtcDate};
use sig_core::{DemoScheme, HashAlgorithm, Scheme};
use std::alloc::Global;
use std::test::Fail;
use x509_issuing::Csr;

/// Answers the request of a device with a certificate under a CA of the register. Returns from when
/// to when it is accepted.
fn enrol_device<S: Scheme + Drop>(
    register: &mut Register<S>,
    (ca, key): (usize, &PrivateKey),
    request: &[u8],
    (from, to): (UtcDate, UtcDate),
    word: u32,
) -> Result<Option<(UtcDate, UtcDate)>, IssueError> {
    let grant = Grant {
        ca: false,
        path_length: None,
        from,
        to,
    };
    let index = register.enrol(ca, key, request, grant, word)?;
    Ok(register.usable(index))
}

#[test]
fn enrols_a_device_by_its_request(rt: HostRuntime) -> Result<(), Fail> {
    let alloc = rt.alloc();
    let key = key_of(alloc, 17)?;
    let mut register = Register::new(alloc, DemoScheme::new());
    let of_root = Grant {
        ca: true,
        path_length: None,
        from: year(2020)?,
        to: year(2030)?,
    };
    register.root(
        DirectoryName::new_common_name(alloc, "R")?,
        &key,
        of_root,
        1,
    )?;
    let request = Csr::generate(
        alloc,
        DirectoryName::new_common_name(alloc, "DEVICE")?,
        &key_of(alloc, 33)?,
        SignatureAlgorithm::RsaPkcs1v15(HashAlgorithm::SHA2_256),
        &DemoScheme::new(),
    )?;
    let octets = request.to_der(alloc)?;
    let dates = (year(2025)?, year(2035)?);
    let usable = enrol_device(&mut register, (0, &key), &octets, dates, 2)?;
    // it ends with the root
    assert_eq!(rt; usable, Some((year(2025)?, year(2030)?)));
    Ok(())
}

/// The RSA private key with this modulus and the exponent 3.
fn key_of(alloc: Global, modulus: u8) -> Result<PrivateKey, Fail> {
    let octets = [
        0x30, 27, 2, 1, 0, 2, 1, modulus, 2, 1, 3, 2, 1, 5, 2, 1, 7, 2, 1, 11, 2, 1, 1, 2, 1, 2, 2,
        1, 4,
    ];
    Ok(PrivateKey::from_pkcs1(alloc, &octets)?)
}

fn year(year: u16) -> Result<UtcDate, Fail> {
    match UtcDate::ymd(year, 1, 1) {
        Some(date) => Ok(date),
        None => Err(Fail::from("no such year")),
    }
}
