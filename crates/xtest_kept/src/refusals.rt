//! The texts of refusals. A clause has the texts and the names of all, and `xgolden_check` prints
//! each that signature files can have.

use crate::made::{FILE, FILE_HASH, basic_policy, table, table_saying};
use authenticode_core::{Accepted, AuthenticodeError, CheckError, check_wincert};
use std::alloc::{AllocError, Global};
use std::test::Fail;

/// The expected digest.
const ASKED: [u8; 2] = [0, 0xFF];

/// The text of a mismatch.
const MISMATCH: &str =
    "the signature is for a file with the digest ba7816bf8f01cfea414140de5dae2223b00361a396177a9cb410ff61f20015ad, but that of the file is 00ff";

/// The text of a refusal.
fn text_of(alloc: Global, answer: &Result<Accepted, CheckError>) -> Result<String, AllocError> {
    match answer {
        Ok(_) => Ok(String::new(alloc)),
        Err(error) => format!(in alloc; "{error}"),
    }
}

/// Whether the result is a mismatch of this digest of the file and the expected one.
fn has_digests(answer: &Result<Accepted, CheckError>, hash: &[u8]) -> bool {
    match answer {
        Err(CheckError::Authenticode(AuthenticodeError::FileHashMismatch { actual, expected })) => {
            actual.as_slice() == hash && expected.as_slice() == ASKED.as_slice()
        }
        _ => false,
    }
}

/// Whether the result is a mismatch with these digests, as values and as text.
fn is_this_mismatch(alloc: Global, answer: &Result<Accepted, CheckError>, hash: &[u8]) -> bool {
    match text_of(alloc, answer) {
        Ok(text) => text.as_str() == MISMATCH && has_digests(answer, hash),
        Err(_) => false,
    }
}

/// Whether the file is refused for another digest than its own.
fn is_mismatch(alloc: Global, file: &[u8], hash: &[u8]) -> Result<bool, Fail> {
    let table = table(alloc, &[])?;
    let policy = basic_policy(alloc, &ASKED)?;
    let answer = check_wincert(alloc, file, &policy, &table);
    Ok(is_this_mismatch(alloc, &answer, hash))
}

/// A mismatch reports both digests, as values and as text.
#[test]
fn mismatch(rt: HostRuntime) -> Result<(), Fail> {
    let file = hex::decode(rt.alloc(), FILE)?;
    let hash = hex::decode(rt.alloc(), FILE_HASH)?;
    assert!(rt; is_mismatch(rt.alloc(), &file, &hash)?);
    Ok(())
}

/// The text of the result for the file, if a table has these verdicts on its signature, in this
/// order.
fn returned(alloc: Global, file: &[u8], hash: &[u8], verdicts: &[&str]) -> Result<String, Fail> {
    let table = table_saying(alloc, verdicts)?;
    let policy = basic_policy(alloc, hash)?;
    let answer = check_wincert(alloc, file, &policy, &table);
    Ok(text_of(alloc, &answer)?)
}

/// Verdicts on the file's signature, and the text of the result.
const VERDICTS: [(&[&str], &str); 4] = [
    (&["accept", "reject"], ""),
    (&["reject", "accept"], "signature error: invalid signature"),
    (
        &["malformed", "accept"],
        "signature error: RSA error: the signature is malformed",
    ),
    (&[], "signature error: invalid signature"),
];

/// The first row decides: a signature is malformed only if it says so.
#[test]
fn verdicts(rt: HostRuntime) -> Result<(), Fail> {
    let file = hex::decode(rt.alloc(), FILE)?;
    let hash = hex::decode(rt.alloc(), FILE_HASH)?;
    for (words, text) in &VERDICTS {
        assert!(rt;
            returned(rt.alloc(), &file, &hash, words)?.as_str() == *text,
            "{text}"
        );
    }
    Ok(())
}
