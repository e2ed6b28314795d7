//! Questions about a chain, one after another; and as a program.

use crate::of_trust_anchors::{INT, LEAF, ROOT, certificate, certificates};
use program_frame::{MemShelf, MemSink};
use sig_core::{DemoScheme, Scheme, SigAlg, Verdict};
use signature_questions::{ChainQuestions, run};
use std::alloc::{AllocError, Global};
use std::test::Fail;

#[test]
fn questions_about_a_chain(rt: HostRuntime) -> Result<(), Fail> {
    let alloc = rt.alloc();
    let leaf = certificate(alloc, LEAF)?;
    let parents = certificates(alloc, &[INT, ROOT])?;
    let mut questions = ChainQuestions::of(&leaf, &parents);
    let scheme = DemoScheme::new();
    for _ in 0..2 {
        let question = questions.next();
        assert!(rt; question.is_some());
        if let Some(question) = question {
            let message = question.message.to_vec(alloc)?;
            let verdict = scheme.verify(
                alloc,
                SigAlg::Ed25519,
                question.key,
                &message,
                question.signature,
            )?;
            assert!(rt; question.algorithm == SigAlg::Ed25519);
            assert!(rt; verdict == Verdict::Accept);
        }
    }
    assert!(rt; questions.next().is_none());
    Ok(())
}

#[test]
fn program_reports_a_refusal(rt: HostRuntime) -> Result<(), Fail> {
    let mut sink = MemSink::with_room(rt.alloc(), 100)?;
    assert!(rt; status(rt.alloc(), b"1234567".as_slice(), &mut sink)? == 1);
    assert!(rt; sink.held() == b"refused WrongLength\n".as_slice());
    Ok(())
}

/// The exit status of `picky_ask` over a signature. Its lines go to the sink.
fn status(alloc: Global, signature: &[u8], out: &mut MemSink) -> Result<u8, AllocError> {
    let mut shelf = MemShelf::new(alloc);
    shelf.add("sig", signature)?;
    let mut words = Vec::new(alloc);
    words.push(String::from_str(alloc, "sig")?)?;
    Ok(run(alloc, &words, &mut shelf, out))
}
