//! A signature scheme for demonstrations and tests.

ghost use Rattle.std.specs.Prelude.{◌≡◌, ◌∷◌, ◌++◌, ℕ, List, false, IfOk, IsErrOf, IsOk, IsTrue, OnOk, Some, None, Err};
ghost use Rattle.sha2.specs.Sha256.{sha256};
ghost use Rattle.sig_core.specs.Algorithm.{kind_of_algorithm};
ghost use Rattle.sig_core.specs.DemoScheme.{demo_key, demo_signature, demo_signs, demo_verdict, key_of_length};
ghost use Rattle.sig_core.specs.declared.algorithm.SchemeKind.TheVariants.{Rsa};

use crate::algorithm::{SchemeKind, SigAlg};
use crate::rsa_secret::RsaSecret;
use crate::scheme::{Scheme, SchemeError, Verdict};
use sha2::{Digest, Sha256};
use std::alloc::{AllocError, Global};

/// The length of a signature in octets.
const SIGNATURE_LEN: usize = 32;

/// The demonstration scheme. It has no security: whoever knows a public key can make every
/// signature that is accepted under it.
///
/// A signature is the SHA-256 of the name of the algorithm, an octet 00, the SHA-256 of the key
/// bytes, and the message. The key of an RSA secret is the RSAPublicKey (RFC 8017 A.1.1) with its
/// modulus and exponent; that of a named curve is 04 and the secret twice; that of curve 25519 is
/// the SHA-256 of the secret.
#[derive(Clone, Copy, Debug)]
pub struct DemoScheme;

impl DemoScheme {
    /// The scheme.
    pub fn new() -> DemoScheme {
        DemoScheme
    }
}

impl Scheme for DemoScheme {
    ghost judge = { λ _ alg key msg sig. demo_verdict alg key msg sig };

    ghost signs = { λ _ alg secret _. demo_signs alg secret };

    ghost derives = { λ _ kind secret. demo_key kind secret };

    ghost pair = { λ _ kind key secret. demo_key kind secret ≡ Some key };

    ghost derived_pairs = { λ _ kind secret key derived. derived };

    fn verify(
        &self,
        _alloc: Global,
        alg: SigAlg,
        key: &[u8],
        msg: &[u8],
        sig: &[u8],
    ) -> Result<Verdict, AllocError>
        ensures verdict { IfOk result
            (λ verdict. verdict ≡ demo_verdict alg key.now msg.now sig.now) }
        // It doesn't allocate.
        ensures never_memory { IsOk result }
    {
        if sig.len() != SIGNATURE_LEN {
            return Ok(Verdict::Malformed);
        }
        if sig == signature(alg, key, msg).as_slice() {
            Ok(Verdict::Accept)
        } else {
            Ok(Verdict::Reject)
        }
    }

    fn sign(
        &self,
        alloc: Global,
        alg: SigAlg,
        secret: &[u8],
        msg: &[u8],
    ) -> Result<Vec<u8>, SchemeError>
        ensures signed { OnOk result (IsTrue (demo_signs alg secret.now)) }
        // Accepted under the key of the secret.
        ensures accepted { IfOk result
            (λ sig. (key : List ℕ) → demo_key (kind_of_algorithm alg) secret.now ≡ Some key
            → demo_verdict alg key msg.now sig.items ≡ Verdict.Accept) }
        ensures refused { IsErrOf result SchemeError.Refused → demo_signs alg secret.now ≡ false }
        // A secret without a key is refused, even when memory runs out.
        ensures always { demo_signs alg secret.now ≡ false → result ≡ Err SchemeError.Refused }
    {
        let key = self.public_of(alloc, alg.kind(), secret)?;
        Ok(Vec::from_slice(alloc, &signature(alg, &key, msg))?)
    }

    fn public_of(
        &self,
        alloc: Global,
        kind: SchemeKind,
        secret: &[u8],
    ) -> Result<Vec<u8>, SchemeError>
        ensures derived { IfOk result (λ key. demo_key kind secret.now ≡ Some key.items) }
        ensures refused { IsErrOf result SchemeError.Refused → demo_key kind secret.now ≡ None }
        // A secret without a key is refused, even when memory runs out.
        ensures always { demo_key kind secret.now ≡ None → result ≡ Err SchemeError.Refused }
    {
        match kind {
            SchemeKind::Rsa => rsa_key(alloc, secret),
            SchemeKind::P256 => point(alloc, secret, 32),
            SchemeKind::P384 => point(alloc, secret, 48),
            SchemeKind::P521 => point(alloc, secret, 66),
            SchemeKind::Ed25519 | SchemeKind::X25519 => digest(alloc, secret),
        }
    }
}

/// The signature that is accepted.
fn signature(alg: SigAlg, key: &[u8], msg: &[u8]) -> [u8; SIGNATURE_LEN]
    ensures { result ≡ demo_signature alg key.now msg.now }
{
    let mut hasher = Sha256::new();
    hasher.update(alg.name().as_bytes());
    hasher.update(&[0u8]);
    hasher.update(&Sha256::digest(key));
    hasher.update(msg);
    hasher.finalize()
}

/// The key of an RSA secret.
fn rsa_key(alloc: Global, secret: &[u8]) -> Result<Vec<u8>, SchemeError>
    ensures derived { IfOk result (λ key. demo_key Rsa secret.now ≡ Some key.items) }
    ensures refused { IsErrOf result SchemeError.Refused → demo_key Rsa secret.now ≡ None }
    ensures always { demo_key Rsa secret.now ≡ None → result ≡ Err SchemeError.Refused }
{
    match RsaSecret::of(secret) {
        Some(secret) => Ok(secret.public_key(alloc)?),
        None => Err(SchemeError::Refused),
    }
}

/// The key of a secret for a curve with a field of so many octets.
fn point(alloc: Global, secret: &[u8], field: usize) -> Result<Vec<u8>, SchemeError>
    ensures derived { IfOk result
        (λ key. key_of_length field secret.now (0x04 ∷ secret.now ++ secret.now) ≡ Some key.items) }
    ensures refused { IsErrOf result SchemeError.Refused
        → key_of_length field secret.now (0x04 ∷ secret.now ++ secret.now) ≡ None }
    ensures always { key_of_length field secret.now (0x04 ∷ secret.now ++ secret.now) ≡ None
        → result ≡ Err SchemeError.Refused }
{
    if secret.len() != field {
        return Err(SchemeError::Refused);
    }
    let mut key = Vec::new(alloc);
    key.push(4)?;
    key.extend_from_slice(secret)?;
    key.extend_from_slice(secret)?;
    Ok(key)
}

/// The key of a secret for curve 25519.
fn digest(alloc: Global, secret: &[u8]) -> Result<Vec<u8>, SchemeError>
    ensures derived { IfOk result
        (λ key. key_of_length 32 secret.now (sha256 secret.now) ≡ Some key.items) }
    ensures refused { IsErrOf result SchemeError.Refused
        → key_of_length 32 secret.now (sha256 secret.now) ≡ None }
    ensures always { key_of_length 32 secret.now (sha256 secret.now) ≡ None
        → result ≡ Err SchemeError.Refused }
{
    if secret.len() != 32 {
        return Err(SchemeError::Refused);
    }
    Ok(Vec::from_slice(alloc, &Sha256::digest(secret))?)
}
