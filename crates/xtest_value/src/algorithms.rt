//! Names and kinds of signature algorithms.

use crate::rows::{KEY, MSG, SIG, joined};
use sig_core::{Scheme as _, SchemeKind, SigAlg, TableError, Verdict, VerdictTable};
use std::alloc::Global;
use std::test::Fail;

/// The names of the algorithms and the kinds of their keys.
const ALGORITHMS: [(SigAlg, &str, SchemeKind); 10] = [
    (SigAlg::RsaMd5, "rsa-md5", SchemeKind::Rsa),
    (SigAlg::RsaSha1, "rsa-sha1", SchemeKind::Rsa),
    (SigAlg::RsaSha224, "rsa-sha224", SchemeKind::Rsa),
    (SigAlg::RsaSha256, "rsa-sha256", SchemeKind::Rsa),
    (SigAlg::RsaSha384, "rsa-sha384", SchemeKind::Rsa),
    (SigAlg::RsaSha512, "rsa-sha512", SchemeKind::Rsa),
    (SigAlg::P256Sha256, "p256-sha256", SchemeKind::P256),
    (SigAlg::P384Sha384, "p384-sha384", SchemeKind::P384),
    (SigAlg::P521Sha512, "p521-sha512", SchemeKind::P521),
    (SigAlg::Ed25519, "ed25519", SchemeKind::Ed25519),
];

#[test]
fn names_and_kinds(rt: HostRuntime) -> Result<(), Fail> {
    assert!(rt; SigAlg::ALL.len() == ALGORITHMS.len());
    for (alg, name, kind) in &ALGORITHMS {
        assert!(rt; SigAlg::ALL.contains(alg), "{name}");
        assert!(rt; alg.name().as_bytes() == name.as_bytes());
        assert!(rt; SigAlg::from_name(name.as_bytes()) == Some(*alg), "{name}");
        assert!(rt; alg.kind() == *kind, "{name}");
    }
    Ok(())
}

#[test]
fn names_in_tables(rt: HostRuntime) -> Result<(), Fail> {
    for (alg, name, _) in &ALGORITHMS {
        assert!(rt; is_in_a_table(rt.alloc(), *alg, name)?, "{name}");
    }
    Ok(())
}

/// Whether a row with the name accepts a signature by the algorithm.
fn is_in_a_table(alloc: Global, alg: SigAlg, name: &str) -> Result<bool, TableError> {
    let text = joined(alloc, &[name, " ", KEY, " ", MSG, " ", SIG, "\n"])?;
    let table = VerdictTable::parse(alloc, text.as_bytes())?;
    let verdict = table.verify(alloc, alg, b"key", b"message", b"signature")?;
    Ok(verdict == Verdict::Accept)
}

/// Texts that are no algorithm's name.
const NO_NAMES: [&str; 6] = ["", "rsa", "rsa-sha25", "rsa-sha256 ", "RSA-SHA256", "ed448"];

#[test]
fn other_names(rt: HostRuntime) -> Result<(), Fail> {
    for name in &NO_NAMES {
        assert!(rt; SigAlg::from_name(name.as_bytes()).is_none(), "{name}");
    }
    Ok(())
}
