//! A scheme that records what it is asked.

ghost use Rattle.std.specs.Prelude.{if◌then◌else◌};
ghost use Rattle.sig_core.specs.VerdictTable.{verdict_of};
ghost use Rattle.sig_core.specs.declared.scheme.Verdict.TheVariants.{Accept};

use anyhow::{Context, Result};
use sig_core::{Scheme, SchemeError, SchemeKind, SigAlg, Verdict, VerdictTable};
use std::alloc::{AllocError, Global};
use std::cell::RefCell;

/// A verdict table or a scheme that accepts every signature, and each question that it was asked,
/// once: the algorithm's name, then key bytes, message and signature in hexadecimal.
#[derive(Drop)]
pub struct Recorder {
    accepts: bool,
    table: VerdictTable,
    asked: RefCell<Vec<String>>,
}

impl Recorder {
    /// A recorder that wasn't asked anything; it accepts all, or has the verdicts of the table.
    pub fn over(alloc: Global, accepts: bool, table: VerdictTable) -> Recorder {
        Recorder {
            accepts,
            table,
            asked: RefCell::new(Vec::new(alloc)),
        }
    }

    /// How many different questions it was asked, and how many of these aren't listed.
    pub fn counts(&self, listed: &[String]) -> Result<(usize, usize)> {
        let asked = self.asked.try_borrow().ok().context("it is being asked")?;
        let mut others: usize = 0;
        for question in asked.iter() {
            if !listed.contains(question) {
                others = others.saturating_add(1);
            }
        }
        Ok((asked.len(), others))
    }

    fn note(&self, question: String) -> Result<(), AllocError> {
        if let Ok(mut asked) = self.asked.try_borrow_mut() {
            if !asked.contains(&question) {
                asked.push(question)?;
            }
        }
        Ok(())
    }
}

impl Scheme for Recorder {
    ghost use Rattle.std.specs.Prelude.{false, None};
    ghost use Rattle.std.proofs.lemmas.Option.{none-some};

    ghost judge = { λ recorder alg key msg sig.
        if recorder.accepts then Accept else verdict_of recorder.table alg key msg sig };

    ghost signs = { λ _ _ _ _. false };

    ghost derives = { λ _ _ _. None };

    ghost pair = { λ _ _ _ _. ⊥ };

    ghost derived_pairs = { λ _ _ _ key none. none-some key none };

    fn verify(
        &self,
        alloc: Global,
        alg: SigAlg,
        key: &[u8],
        msg: &[u8],
        sig: &[u8],
    ) -> std::result::Result<Verdict, AllocError> {
        self.note(question_text(alloc, alg, key, msg, sig)?)?;
        if self.accepts {
            return Ok(Verdict::Accept);
        }
        self.table.verify(alloc, alg, key, msg, sig)
    }

    fn sign(
        &self,
        _alloc: Global,
        _alg: SigAlg,
        _secret: &[u8],
        _msg: &[u8],
    ) -> std::result::Result<Vec<u8>, SchemeError> {
        Err(SchemeError::Refused)
    }

    fn public_of(
        &self,
        _alloc: Global,
        _kind: SchemeKind,
        _secret: &[u8],
    ) -> std::result::Result<Vec<u8>, SchemeError> {
        Err(SchemeError::Refused)
    }
}

/// The algorithm's name, then key bytes, message and signature in hexadecimal.
fn question_text(
    alloc: Global,
    alg: SigAlg,
    key: &[u8],
    msg: &[u8],
    sig: &[u8],
) -> std::result::Result<String, AllocError> {
    let key = hex::encode(alloc, key)?;
    let msg = hex::encode(alloc, msg)?;
    let sig = hex::encode(alloc, sig)?;
    format!(in alloc; "{} {key} {msg} {sig}", alg.name())
}
