//! Signature schemes: a verdict on each signature, and what the calls must satisfy.

ghost use Rattle.std.specs.Prelude.{◌≡◌, false, Some, IsTrue, IfOk, OnOk, IsErrOf};
ghost use Rattle.sig_core.specs.Algorithm.{kind_of_algorithm};
ghost use Rattle.sig_core.specs.ErrorText.{scheme_error_text};
ghost use Rattle.sig_core.specs.declared.scheme.SchemeError.TheVariants.{Memory};

use crate::algorithm::{SchemeKind, SigAlg};
use std::alloc::{AllocError, AllocFailed, Global};
use std::fmt;
use thiserror::Error;

/// The verdict of a scheme on a signature.
#[derive(Clone, Copy, PartialEq, Eq, Debug)]
pub enum Verdict {
    /// The signature belongs to the key and the message.
    Accept,
    /// The signature doesn't.
    Reject,
    /// The signature doesn't have the form of a signature of the algorithm.
    Malformed,
}

/// Why a scheme returns no signature, or no public key.
#[derive(Clone, Copy, PartialEq, Eq, Debug, Error)]
pub enum SchemeError {
    /// The scheme doesn't sign with this secret, or derives no key from it.
    Refused,
    /// Out of memory.
    Memory,
}

impl fmt::Display for SchemeError {
    ghost output = { λ error. Some (scheme_error_text error) };

    fn fmt<W: fmt::Write>(&self, f: &mut fmt::Formatter<W>) -> fmt::Result {
        match self {
            SchemeError::Refused => write!(f, "the signature scheme refused"),
            SchemeError::Memory => write!(f, "out of memory"),
        }
    }
}

impl From<AllocError> for SchemeError {
    ghost from_gives = { λ _ e. e ≡ Memory };

    fn from(_error: AllocError) -> SchemeError {
        SchemeError::Memory
    }
}

impl<T: Drop> From<AllocFailed<T>> for SchemeError {
    ghost from_gives = { λ _ e. e ≡ Memory };

    fn from(_error: AllocFailed<T>) -> SchemeError {
        SchemeError::Memory
    }
}

/// A signature scheme, which replaces the arithmetic of keys.
///
/// Key bytes are the payload of the BIT STRING of a key. Secret bytes are the encoded RSAPrivateKey
/// for RSA, else the secret octets.
pub trait Scheme {
    ghost use Rattle.std.specs.Prelude.{◌≡◌, ℕ, Bool, List, Option, Some};
    ghost use Rattle.sig_core.specs.declared.algorithm.SigAlg.{SigAlg};
    ghost use Rattle.sig_core.specs.declared.algorithm.SchemeKind.{SchemeKind};
    ghost use Rattle.sig_core.specs.declared.scheme.Verdict.{Verdict};

    // The verdict on a signature, by algorithm, key bytes, message and signature.
    ghost judge: { Self → SigAlg → List ℕ → List ℕ → List ℕ → Verdict };

    // Whether the scheme signs, by algorithm, secret and message.
    ghost signs: { Self → SigAlg → List ℕ → List ℕ → Bool };

    // The public key of a secret, if the scheme has one.
    ghost derives: { Self → SchemeKind → List ℕ → Option (List ℕ) };

    // The key, named first, and the secret belong together.
    ghost pair: { Self → SchemeKind → List ℕ → List ℕ → Type 0 };

    /// The verdict on the signature `sig` of the message `msg` under the key bytes `key`.
    fn verify(
        &self,
        alloc: Global,
        alg: SigAlg,
        key: &[u8],
        msg: &[u8],
        sig: &[u8],
    ) -> Result<Verdict, AllocError>
        ensures { IfOk result (λ verdict. verdict ≡ judge self.now alg key.now msg.now sig.now) };

    /// A signature of the message `msg`.
    fn sign(
        &self,
        alloc: Global,
        alg: SigAlg,
        secret: &[u8],
        msg: &[u8],
    ) -> Result<Vec<u8>, SchemeError>
        ensures signed { OnOk result (IsTrue (signs self.now alg secret.now msg.now)) }
        // Accepted under every key that pairs with the secret.
        ensures accepted { IfOk result
            (λ sig. (key : List ℕ) → pair self.now (kind_of_algorithm alg) key secret.now
            → judge self.now alg key msg.now sig.items ≡ Verdict.Accept) }
        ensures refused { IsErrOf result SchemeError.Refused
            → signs self.now alg secret.now msg.now ≡ false };

    /// The public key of the secret.
    fn public_of(
        &self,
        alloc: Global,
        kind: SchemeKind,
        secret: &[u8],
    ) -> Result<Vec<u8>, SchemeError>
        ensures derived { IfOk result (λ key. derives self.now kind secret.now ≡ Some key.items) }
        ensures refused { IsErrOf result SchemeError.Refused
            → derives self.now kind secret.now ≡ None };

    // A derived key pairs with its secret.
    ghost derived_pairs: { (scheme : Self) (kind : SchemeKind) (secret key : List ℕ)
        → derives scheme kind secret ≡ Some key → pair scheme kind key secret };
}
