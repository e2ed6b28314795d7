//! The verdicts of a verdict table.

use crate::rows::{KEY, MSG, ROW, SIG, VERSION_2};
use sig_core::{Scheme as _, SchemeError, SchemeKind, SigAlg, TableError, Verdict, VerdictTable};
use std::alloc::{AllocError, Global};
use std::test::Fail;

/// The verdicts of the table with `ROW`.
#[rattlefmt::skip]
const VERDICTS: [(&str, SigAlg, &[u8], &[u8], &[u8], Verdict); 7] = [
    ("the row", SigAlg::RsaSha256, b"key", b"message", b"signature", Verdict::Accept),
    ("another digest", SigAlg::RsaSha1, b"key", b"message", b"signature", Verdict::Reject),
    ("another kind", SigAlg::P256Sha256, b"key", b"message", b"signature", Verdict::Reject),
    ("another key", SigAlg::RsaSha256, b"kez", b"message", b"signature", Verdict::Reject),
    ("another message", SigAlg::RsaSha256, b"key", b"message ", b"signature", Verdict::Reject),
    ("another signature", SigAlg::RsaSha256, b"key", b"message", b"", Verdict::Reject),
    ("key and message for each other", SigAlg::RsaSha256, b"message", b"key", b"signature", Verdict::Reject),
];

#[test]
fn verdicts(rt: HostRuntime) -> Result<(), Fail> {
    let table = VerdictTable::parse(rt.alloc(), ROW.as_bytes())?;
    for (why, alg, key, msg, sig, want) in &VERDICTS {
        assert!(rt;
            table.verify(rt.alloc(), *alg, key, msg, sig)? == *want,
            "{why}"
        );
    }
    Ok(())
}

#[test]
fn verdicts_of_a_copy(rt: HostRuntime) -> Result<(), Fail> {
    let table = VerdictTable::parse(rt.alloc(), ROW.as_bytes())?.try_clone(rt.alloc())?;
    for (why, alg, key, msg, sig, want) in &VERDICTS {
        assert!(rt;
            table.verify(rt.alloc(), *alg, key, msg, sig)? == *want,
            "{why}"
        );
    }
    Ok(())
}

/// Rows of version 2 about one signature, and the verdict of their table.
#[rattlefmt::skip]
const FIRST: [(&[&str], Verdict); 9] = [
    (&[], Verdict::Reject),
    (&["accept "], Verdict::Accept),
    (&["reject "], Verdict::Reject),
    (&["malformed "], Verdict::Malformed),
    (&["accept ", "reject "], Verdict::Accept),
    (&["reject ", "accept "], Verdict::Reject),
    (&["malformed ", "accept "], Verdict::Malformed),
    (&["malformed ", "reject ", "accept "], Verdict::Malformed),
    (&["accept ", "malformed ", "malformed "], Verdict::Accept),
];

#[test]
fn first_rows(rt: HostRuntime) -> Result<(), Fail> {
    for (words, want) in &FIRST {
        for (before, behind) in &[("", ""), ("reject ", ""), ("", "malformed ")] {
            assert!(rt;
                verdict_among(rt.alloc(), words, before, behind)? == *want,
                "{before} {words:?} {behind}"
            );
        }
    }
    Ok(())
}

/// The verdict of a table whose rows about the signature have these verdicts, with a row about
/// another one before and after them, if it has a verdict.
fn verdict_among(
    alloc: Global,
    words: &[&str],
    before: &str,
    behind: &str,
) -> Result<Verdict, TableError> {
    let mut text = String::from_str(alloc, VERSION_2)?;
    push_other(&mut text, before)?;
    for word in words {
        text.push_str(word)?;
        text.push_str(ROW)?;
    }
    push_other(&mut text, behind)?;
    let table = VerdictTable::parse(alloc, text.as_bytes())?;
    Ok(table.verify(alloc, SigAlg::RsaSha256, b"key", b"message", b"signature")?)
}

/// Adds a row for another algorithm with this verdict.
fn push_other(text: &mut String, word: &str) -> Result<(), AllocError> {
    if word.is_empty() {
        return Ok(());
    }
    text.push_str(word)?;
    for piece in &["rsa-sha1 ", KEY, " ", MSG, " ", SIG, "\n"] {
        text.push_str(piece)?;
    }
    Ok(())
}

#[test]
fn no_signatures_and_no_keys(rt: HostRuntime) -> Result<(), Fail> {
    let table = VerdictTable::parse(rt.alloc(), ROW.as_bytes())?;
    let signature = table.sign(rt.alloc(), SigAlg::RsaSha256, b"secret", b"message");
    assert!(rt; signature.err() == Some(SchemeError::Refused));
    let key = table.public_of(rt.alloc(), SchemeKind::Rsa, b"secret");
    assert!(rt; key.err() == Some(SchemeError::Refused));
    Ok(())
}

#[test]
fn texts_of_errors(rt: HostRuntime) -> Result<(), Fail> {
    let returned = format!(in rt.alloc(); "{}; {}", SchemeError::Refused, SchemeError::Memory)?;
    assert!(rt; returned.as_str() == "the signature scheme refused; out of memory");
    Ok(())
}
