//! Checking a signature file after a library of one's own has judged its questions.

ghost use Rattle.std.specs.Prelude.{if◌then◌else◌};
ghost use Rattle.sig_core.specs.declared.scheme.Verdict.TheVariants.{Accept, Reject};

use crate::schemes::{FILE, FILE_HASH, KEY};
use authenticode_core::{CheckError, Policy, check_wincert};
use der_core::Octets;
use sig_core::{Scheme, SchemeError, SchemeKind, SigAlg, Verdict};
use signature_questions::{Question, questions_of};
use std::alloc::{AllocError, Global};
use std::test::Fail;

const MOST_ASKED: usize = 100;

/// A scheme that knows what a library found before: it accepts everything if all was good, else
/// nothing.
#[derive(Drop)]
struct Judged {
    all_good: bool,
}

impl Scheme for Judged {
    ghost use Rattle.std.specs.Prelude.{false, None};
    ghost use Rattle.std.proofs.lemmas.Option.{none-some};

    ghost judge = { λ scheme _ _ _ _. if scheme.all_good then Accept else Reject };

    ghost signs = { λ _ _ _ _. false };

    ghost derives = { λ _ _ _. None };

    ghost pair = { λ _ _ _ _. ⊥ };

    ghost derived_pairs = { λ _ _ _ key none. none-some key none };

    fn verify(
        &self,
        _alloc: Global,
        _alg: SigAlg,
        _key: &[u8],
        _msg: &[u8],
        _sig: &[u8],
    ) -> Result<Verdict, AllocError> {
        if self.all_good {
            Ok(Verdict::Accept)
        } else {
            Ok(Verdict::Reject)
        }
    }

    fn sign(
        &self,
        _alloc: Global,
        _alg: SigAlg,
        _secret: &[u8],
        _msg: &[u8],
    ) -> Result<Vec<u8>, SchemeError> {
        Err(SchemeError::Refused)
    }

    fn public_of(
        &self,
        _alloc: Global,
        _kind: SchemeKind,
        _secret: &[u8],
    ) -> Result<Vec<u8>, SchemeError> {
        Err(SchemeError::Refused)
    }
}

/// In place of a library: whether the key is this one.
fn verifies(question: &Question<'_>, message: &[u8], key: &[u8]) -> bool {
    question.key == key && !message.is_empty()
}

/// Asks the library about each question; of too many nothing is good.
fn ask_library(alloc: Global, file: &[u8], key: &[u8]) -> Result<Judged, CheckError> {
    let mut questions = questions_of(file)?;
    let mut all_good = true;
    for _ in 0..MOST_ASKED {
        let Some(question) = questions.next() else {
            return Ok(Judged { all_good });
        };
        let message = question.message.to_vec(alloc)?;
        all_good = all_good && verifies(&question, &message, key);
    }
    Ok(Judged { all_good: false })
}

/// Whether the file is signed for the digest, by what the library finds.
fn is_signed(alloc: Global, file: &[u8], hash: &[u8], key: &[u8]) -> Result<bool, CheckError> {
    let scheme = ask_library(alloc, file, key)?;
    let mut policy = Policy::new(alloc);
    policy.file_hash = Some(Octets::from_slice(alloc, hash)?);
    policy.signing = false;
    match check_wincert(alloc, file, &policy, &scheme) {
        Ok(_) => Ok(true),
        Err(CheckError::Memory) => Err(CheckError::Memory),
        Err(_) => Ok(false),
    }
}

#[test]
fn checks_what_was_judged(rt: HostRuntime) -> Result<(), Fail> {
    let file = hex::decode(rt.alloc(), FILE)?;
    let hash = hex::decode(rt.alloc(), FILE_HASH)?;
    let key = hex::decode(rt.alloc(), KEY)?;
    assert!(rt; is_signed(rt.alloc(), &file, &hash, &key)?);
    assert!(rt; !is_signed(rt.alloc(), &file, &hash, &[1])?);
    assert!(rt; !is_signed(rt.alloc(), &file, &[1], &key)?);
    Ok(())
}
