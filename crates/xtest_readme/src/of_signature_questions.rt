//! Verdicts on the questions about a signature file, and a check by a verdict table that has them.

use authenticode_core::{Accepted, CheckError, Policy, check_wincert};
use sig_core::{DemoScheme, Scheme, Verdict, VerdictTable};
use signature_questions::{questions_of, tables_decide};
use std::alloc::Global;
use std::test::Fail;

/// The verdict of a scheme on the first question about a signature file, None if there is none. If
/// its first signer's key is an RSA key, it is the question about the signer.
fn first_verdict<S: Scheme>(
    alloc: Global,
    file: &[u8],
    scheme: &S,
) -> Result<Option<Verdict>, CheckError> {
    let mut questions = questions_of(file)?;
    let Some(question) = questions.next() else {
        return Ok(None);
    };
    let message = question.message.to_vec(alloc)?;
    let verdict = scheme.verify(
        alloc,
        question.algorithm,
        question.key,
        &message,
        question.signature,
    )?;
    Ok(Some(verdict))
}

/// Checks a signature file by a table. If its rows are those of the questions, with the verdicts of
/// a scheme, the result is what that scheme would give, unless memory runs out: `tables_decide`.
fn check_by_table(
    alloc: Global,
    file: &[u8],
    policy: &Policy<'_>,
    table: &VerdictTable,
) -> Result<Accepted, CheckError> {
    // the law; the call does nothing
    tables_decide();
    check_wincert(alloc, file, policy, table)
}

#[test]
fn asks_nothing_about_what_is_no_signature_file(rt: HostRuntime) -> Result<(), Fail> {
    let refused = first_verdict(rt.alloc(), b"1234567".as_slice(), &DemoScheme::new());
    assert!(rt; matches!(&refused, Err(CheckError::Win(_))));
    Ok(())
}

#[test]
fn refuses_what_is_no_signature_file(rt: HostRuntime) -> Result<(), Fail> {
    let table = VerdictTable::parse(rt.alloc(), b"picky-verdicts 2\n".as_slice())?;
    assert!(rt; is_refused(rt.alloc(), b"1234567".as_slice(), &table));
    Ok(())
}

/// Whether the octets are refused by their header, which has eight.
fn is_refused(alloc: Global, file: &[u8], table: &VerdictTable) -> bool {
    match check_by_table(alloc, file, &Policy::new(alloc), table) {
        Err(CheckError::Win(_)) => true,
        _ => false,
    }
}
