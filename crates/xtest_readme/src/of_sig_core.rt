//! The caller in the README of `sig_core`.

use sig_core::{Scheme, SigAlg, TableError, Verdict, VerdictTable};
use std::alloc::Global;
use std::test::Fail;

/// Whether a verdict table accepts a signature of a message by RSA with SHA-256.
fn is_accepted(
    alloc: Global,
    table: &[u8],
    key: &[u8],
    msg: &[u8],
    sig: &[u8],
) -> Result<bool, TableError> {
    let table = VerdictTable::parse(alloc, table)?;
    let verdict = table.verify(alloc, SigAlg::RsaSha256, key, msg, sig)?;
    Ok(verdict == Verdict::Accept)
}

#[test]
fn a_table(rt: HostRuntime) -> Result<(), Fail> {
    let table = TABLE.as_bytes();
    assert!(rt; is_accepted(rt.alloc(), table, b"abc", b"", b"abc")?);
    assert!(rt; !is_accepted(rt.alloc(), table, b"abc", b"abc", b"abc")?);
    Ok(())
}

/// The digests of `abc`, of no octets and of `abc`, by `hashlib` of Python.
#[rattlefmt::skip]
const TABLE: &str = "rsa-sha256 ba7816bf8f01cfea414140de5dae2223b00361a396177a9cb410ff61f20015ad e3b0c44298fc1c149afbf4c8996fb92427ae41e4649b934ca495991b7852b855 ba7816bf8f01cfea414140de5dae2223b00361a396177a9cb410ff61f20015ad\n";
