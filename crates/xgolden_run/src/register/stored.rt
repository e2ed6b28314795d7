//! A scheme with signatures that another program made.

ghost use Rattle.sig_core.specs.VerdictTable.{verdict_of};

use anyhow::{Context, Result};
use sig_core::{HashAlgorithm, Scheme, SchemeError, SchemeKind, SigAlg, Verdict, VerdictTable};
use std::alloc::{AllocError, Global};
use xgolden::{octets_of, table_of};

/// The verdicts of a table, and signatures that another program made.
#[derive(Drop)]
pub struct Stored {
    table: VerdictTable,
    signatures: Vec<Signature>,
}

/// A signature, and the SHA-256 of its message.
#[derive(Drop)]
struct Signature {
    digest: Vec<u8>,
    octets: Vec<u8>,
}

impl Stored {
    /// The scheme for the text of a table, and for signatures, commas between.
    pub fn of(alloc: Global, table: &str, signatures: &str) -> Result<Stored> {
        let table = table_of(alloc, table)?;
        let mut stored = Vec::new(alloc);
        for word in signatures.split(',') {
            stored.push(signature_of(alloc, word)?)?;
        }
        Ok(Stored {
            table,
            signatures: stored,
        })
    }
}

fn signature_of(alloc: Global, word: &str) -> Result<Signature> {
    let (digest, octets) = word.split_once(':').context("a digest and a signature")?;
    Ok(Signature {
        digest: octets_of(alloc, digest)?,
        octets: octets_of(alloc, octets)?,
    })
}

impl Scheme for Stored {
    ghost use Rattle.std.specs.Prelude.{true, None};
    ghost use Rattle.std.proofs.lemmas.Option.{none-some};

    ghost judge = { λ stored alg key msg sig. verdict_of stored.table alg key msg sig };

    ghost signs = { λ _ _ _ _. true };

    ghost derives = { λ _ _ _. None };

    ghost pair = { λ _ _ _ _. ⊥ };

    ghost derived_pairs = { λ _ _ _ key none. none-some key none };

    fn verify(
        &self,
        alloc: Global,
        alg: SigAlg,
        key: &[u8],
        msg: &[u8],
        sig: &[u8],
    ) -> std::result::Result<Verdict, AllocError> {
        self.table.verify(alloc, alg, key, msg, sig)
    }

    /// The signature that is stored for the message, else no octets.
    fn sign(
        &self,
        alloc: Global,
        _alg: SigAlg,
        _secret: &[u8],
        msg: &[u8],
    ) -> std::result::Result<Vec<u8>, SchemeError> {
        let digest = HashAlgorithm::SHA2_256.digest(alloc, msg)?;
        for signature in &self.signatures {
            if signature.digest.as_slice() == digest.as_slice() {
                return Ok(Vec::from_slice(alloc, &signature.octets)?);
            }
        }
        Ok(Vec::new(alloc))
    }

    fn public_of(
        &self,
        _alloc: Global,
        _kind: SchemeKind,
        _secret: &[u8],
    ) -> std::result::Result<Vec<u8>, SchemeError> {
        Err(SchemeError::Refused)
    }
}
