//! A scheme with a signature from another program.

ghost use Rattle.std.specs.Prelude.{bytes_eq};
ghost use Rattle.sig_core.specs.declared.scheme.Verdict.TheVariants.{Reject};

use anyhow::{Context, Result};
use sig_core::{Scheme, SchemeError, SchemeKind, SigAlg, Verdict};
use std::alloc::{AllocError, Global};
use xgolden::octets_of;

/// The signature of one message, which another program made. No other message is signed, and no
/// signature is verified.
#[derive(Drop)]
pub struct Beforehand {
    message: Vec<u8>,
    signature: Vec<u8>,
}

impl Beforehand {
    /// The scheme for a message and its signature, separated by a colon.
    pub fn of(alloc: Global, word: &str) -> Result<Beforehand> {
        let (message, signature) = word.split_once(':').context("a message and its signature")?;
        let message = octets_of(alloc, message)?;
        let signature = octets_of(alloc, signature)?;
        Ok(Beforehand { message, signature })
    }
}

impl Scheme for Beforehand {
    ghost use Rattle.std.specs.Prelude.{None};
    ghost use Rattle.std.proofs.lemmas.Option.{none-some};

    ghost judge = { λ _ _ _ _ _. Reject };

    ghost signs = { λ scheme _ _ message. bytes_eq message scheme.message.items };

    ghost derives = { λ _ _ _. None };

    ghost pair = { λ _ _ _ _. ⊥ };

    ghost derived_pairs = { λ _ _ _ key none. none-some key none };

    fn verify(
        &self,
        _alloc: Global,
        _alg: SigAlg,
        _key: &[u8],
        _msg: &[u8],
        _sig: &[u8],
    ) -> std::result::Result<Verdict, AllocError> {
        Ok(Verdict::Reject)
    }

    fn sign(
        &self,
        alloc: Global,
        _alg: SigAlg,
        _secret: &[u8],
        msg: &[u8],
    ) -> std::result::Result<Vec<u8>, SchemeError> {
        if msg == self.message.as_slice() {
            Ok(Vec::from_slice(alloc, &self.signature)?)
        } else {
            Err(SchemeError::Refused)
        }
    }

    fn public_of(
        &self,
        _alloc: Global,
        _kind: SchemeKind,
        _secret: &[u8],
    ) -> std::result::Result<Vec<u8>, SchemeError> {
        Err(SchemeError::Refused)
    }
}
