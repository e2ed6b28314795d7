//! A signature scheme that accepts the signatures on a list, each kept whole.

ghost use Rattle.std.specs.Prelude.{◌≡◌, [], ◌∷◌, ◌++◌, OnErr, OnOk};
ghost use Rattle.std.specs.List.{list_any};
ghost use Rattle.xtest_issuing.specs.WholeRow.{is_row_of, row_of, verdict_of};

use der_core::Octets;
use sig_core::{Scheme, SchemeError, SchemeKind, SigAlg, Verdict};
use std::alloc::{AllocError, Global};

/// A signature: the algorithm, the key bytes, the message and the signature itself.
#[derive(Drop)]
pub struct WholeRow {
    pub alg: SigAlg,
    pub key: Octets,
    pub msg: Octets,
    pub sig: Octets,
}

impl WholeRow {
    /// Whether the row is this signature.
    fn is_of(&self, alg: SigAlg, key: &[u8], msg: &[u8], sig: &[u8]) -> bool
        ensures { result ≡ is_row_of alg key.now msg.now sig.now self.now }
    {
        alg.name() == self.alg.name()
            && key == self.key.as_slice()
            && msg == self.msg.as_slice()
            && sig == self.sig.as_slice()
    }
}

/// A scheme that accepts the signatures of its rows and rejects all others. It doesn't sign.
#[derive(Drop)]
pub struct WholeRows {
    alloc: Global,
    rows: Vec<WholeRow>,
}

impl WholeRows {
    /// A scheme without rows, which rejects everything.
    pub fn new(alloc: Global) -> WholeRows
        ensures { result.rows.items ≡ [] }
    {
        WholeRows {
            alloc,
            rows: Vec::new(alloc),
        }
    }

    /// Appends a row.
    pub fn push(
        &mut self,
        alg: SigAlg,
        key: &[u8],
        msg: &[u8],
        sig: &[u8],
    ) -> Result<(), AllocError>
        ensures ok { OnOk result (self.new.rows.items ≡ self.old.rows.items
            ++ row_of alg key.now msg.now sig.now ∷ []) }
        ensures err { OnErr result (self.new.rows.items ≡ self.old.rows.items) }
    {
        let alloc = self.alloc;
        let row = WholeRow {
            alg,
            key: Octets::from_slice(alloc, key)?,
            msg: Octets::from_slice(alloc, msg)?,
            sig: Octets::from_slice(alloc, sig)?,
        };
        Ok(self.rows.push(row)?)
    }

    /// Whether some row is this signature.
    fn has(&self, alg: SigAlg, key: &[u8], msg: &[u8], sig: &[u8]) -> bool
        ensures { result ≡ list_any (is_row_of alg key.now msg.now sig.now) self.now.rows.items }
    {
        self.rows.iter().any(|row| row.is_of(alg, key, msg, sig))
    }
}

impl Scheme for WholeRows {
    ghost use Rattle.std.specs.Prelude.{false, None};
    ghost use Rattle.std.proofs.lemmas.Option.{none-some};

    ghost judge = { λ scheme. verdict_of scheme.rows.items };

    ghost signs = { λ _ _ _ _. false };

    ghost derives = { λ _ _ _. None };

    ghost pair = { λ _ _ _ _. ⊥ };

    ghost derived_pairs = { λ _ _ _ key none. none-some key none };

    fn verify(
        &self,
        _alloc: Global,
        alg: SigAlg,
        key: &[u8],
        msg: &[u8],
        sig: &[u8],
    ) -> Result<Verdict, AllocError> {
        if self.has(alg, key, msg, sig) {
            Ok(Verdict::Accept)
        } else {
            Ok(Verdict::Reject)
        }
    }

    fn sign(
        &self,
        _alloc: Global,
        _alg: SigAlg,
        _secret: &[u8],
        _msg: &[u8],
    ) -> Result<Vec<u8>, SchemeError> {
        Err(SchemeError::Refused)
    }

    fn public_of(
        &self,
        _alloc: Global,
        _kind: SchemeKind,
        _secret: &[u8],
    ) -> Result<Vec<u8>, SchemeError> {
        Err(SchemeError::Refused)
    }
}
