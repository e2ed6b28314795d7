//! A scheme of three rows.

ghost use Rattle.std.specs.Prelude.{◌≡◌};
ghost use Rattle.xtest_value.specs.ThreeRows.{is_asked, row_verdict};

use der_core::Octets;
use sig_core::{Scheme, SchemeError, SchemeKind, SigAlg, Verdict};
use std::alloc::{AllocError, Global};

/// One secret with its key, the algorithm `rsa-sha256` and the message `message`. Of the signatures
/// `good` is accepted and `odd` is malformed; all others are rejected. It signs with `good`.
#[derive(Drop)]
pub(crate) struct ThreeRows {
    pub key: Octets,
    pub secret: Octets,
}

/// Whether the rows are about this algorithm, these octets and this message.
fn is_asked(octets: &Octets, alg: SigAlg, given: &[u8], msg: &[u8]) -> bool
    ensures { result ≡ is_asked octets.now alg given.now msg.now }
{
    alg.name() == "rsa-sha256" && given == octets.as_slice() && msg == b"message".as_slice()
}

impl Scheme for ThreeRows {
    ghost use Rattle.std.specs.Prelude.{None};
    ghost use Rattle.std.proofs.lemmas.Option.{none-some};

    ghost judge = { λ rows alg key msg sig. row_verdict rows.key alg key msg sig };

    ghost signs = { λ rows alg secret msg. is_asked rows.secret alg secret msg };

    ghost derives = { λ _ _ _. None };

    ghost pair = { λ rows _ key _. key ≡ rows.key };

    ghost derived_pairs = { λ _ _ _ key none. absurd (none-some key none) };

    fn verify(
        &self,
        _alloc: Global,
        alg: SigAlg,
        key: &[u8],
        msg: &[u8],
        sig: &[u8],
    ) -> Result<Verdict, AllocError> {
        if !is_asked(&self.key, alg, key, msg) {
            return Ok(Verdict::Reject);
        }
        if sig == b"good".as_slice() {
            return Ok(Verdict::Accept);
        }
        if sig == b"odd".as_slice() {
            return Ok(Verdict::Malformed);
        }
        Ok(Verdict::Reject)
    }

    fn sign(
        &self,
        alloc: Global,
        alg: SigAlg,
        secret: &[u8],
        msg: &[u8],
    ) -> Result<Vec<u8>, SchemeError> {
        if !is_asked(&self.secret, alg, secret, msg) {
            return Err(SchemeError::Refused);
        }
        Ok(Vec::from_slice(alloc, b"good")?)
    }

    fn public_of(
        &self,
        _alloc: Global,
        _kind: SchemeKind,
        _secret: &[u8],
    ) -> Result<Vec<u8>, SchemeError> {
        Err(SchemeError::Refused)
    }
}
