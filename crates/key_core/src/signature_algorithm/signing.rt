//! Signing with private keys.

ghost use Rattle.std.specs.Prelude.{◌≡◌, ◌≢◌, [], ◌∷◌, ℕ, List, length, true, false, Some, Err, IfOk, MatchResult};
ghost use Rattle.asn1_types.specs.Values.{payload_of};
ghost use Rattle.der_core.specs.Rules.{IsFirstBroken, OrMemory};
ghost use Rattle.key_types.specs.declared.key_info.SubjectPublicKeyInfo.{SubjectPublicKeyInfo};
ghost use Rattle.sig_core.specs.Algorithm.{kind_of_algorithm};
ghost use Rattle.sig_core.specs.declared.scheme.Verdict.TheVariants as verdicts;
ghost use Rattle.key_core.specs.PrivatePkcs1.{IsPkcs1OfPrivate};
ghost use Rattle.key_core.specs.SchemeNames.{curve_for};
ghost use Rattle.key_core.specs.SignatureRules.{RefusesSignatureBy};
ghost use Rattle.key_core.specs.Signing.{FitsSecret, IsAsked, IsKeyPair, IsEd25519Secret, HasCurveOf, NotRsaSecret, UnwritableSecret, UnknownCurveOf, UnpairedSecret, secret_rules, sign_rules, scheme_refused};
ghost use Rattle.key_core.specs.Verifying.{Accepts};
ghost use Rattle.key_core.specs.declared.ec_curve.EcCurve.{EcCurve};
ghost use Rattle.key_core.specs.declared.signature_algorithm.SignatureAlgorithm.TheVariants as algorithms;
ghost use Rattle.key_core.specs.declared.signature_error.SigContext.TheVariants as contexts;
ghost use Rattle.key_core.specs.declared.signature_error.SignatureError.{SignatureError};
ghost use Rattle.key_core.specs.declared.signature_error.SignatureError.TheVariants as errors;

use super::SignatureAlgorithm;
use super::verifying::{ED25519_LEN, curve_of};
use crate::ec_curve::EcCurve;
use crate::ed_algorithm::EdAlgorithm;
use crate::error::{KeyContext, KeyError};
use crate::private_key::PrivateKey;
use crate::private_key_value::PrivateKeyValue;
use crate::scheme_names::{curve_for, ecdsa_alg, rsa_alg};
use crate::signature_error::{SigContext, SignatureError, Unsupported};
use asn1_types::BitString;
use sig_core::{HashAlgorithm, Scheme, SchemeError, SigAlg};
use std::alloc::Global;

impl SignatureAlgorithm {
    /// Signs the message with the key, as the scheme does. The key must fit the algorithm: be of
    /// its kind, for ECDSA on P-256 with SHA-256, on P-384 with SHA-384, or on P-521 with SHA-512,
    /// with a secret of the field's size; for Ed25519 with a public key, both of 32 octets.
    pub fn sign<S: Scheme>(
        self,
        alloc: Global,
        msg: &[u8],
        private_key: &PrivateKey,
        scheme: &S,
    ) -> Result<Vec<u8>, SignatureError>
        ensures signed { MatchResult result
            (λ _. IsAsked (S.signs scheme.now) self private_key.now msg.now true)
            (RefusesSignatureBy (sign_rules (S.signs scheme.now) self private_key.now msg.now)) }
        // The signature is accepted under each public key of the pair.
        ensures accepted { IfOk result (λ sig. (info : SubjectPublicKeyInfo)
            → IsKeyPair (S.pair scheme.now) private_key.now info
            → Accepts (S.judge scheme.now) self info msg.now sig.items) }
        // A key that doesn't fit the algorithm is refused, even when memory runs out.
        ensures refused { (e : SignatureError) → IsFirstBroken (secret_rules self private_key.now) e
            → result ≡ Err e }
    {
        match self {
            SignatureAlgorithm::RsaPkcs1v15(hash) => {
                let mut secret = rsa_secret(alloc, private_key)?;
                let signature = self.made(alloc, rsa_alg(hash), &secret, msg, scheme);
                // It is a copy of the secret.
                secret.fill(0);
                signature
            }
            SignatureAlgorithm::Ecdsa(hash) => {
                let (alg, secret) = secret_on(private_key, hash)?;
                self.made(alloc, alg, secret, msg, scheme)
            }
            SignatureAlgorithm::Ed25519 => {
                let secret = ed25519_secret(private_key)?;
                self.made(alloc, SigAlg::Ed25519, secret, msg, scheme)
            }
        }
    }

    /// The signature that the scheme makes with a secret that fits the algorithm.
    fn made<S: Scheme>(
        self,
        alloc: Global,
        alg: SigAlg,
        secret: &[u8],
        msg: &[u8],
        scheme: &S,
    ) -> Result<Vec<u8>, SignatureError>
        ensures signed { MatchResult result (λ _. S.signs scheme.now alg secret.now msg.now ≡ true)
            (OrMemory errors.Memory (λ e. (S.signs scheme.now alg secret.now msg.now ≡ false)
            × (e ≡ scheme_refused self))) }
        ensures accepted { IfOk result
            (λ sig. (key : List ℕ) → S.pair scheme.now (kind_of_algorithm alg) key secret.now
            → S.judge scheme.now alg key msg.now sig.items ≡ verdicts.Accept) }
    {
        match scheme.sign(alloc, alg, secret, msg) {
            Ok(signature) => Ok(signature),
            Err(SchemeError::Refused) => Err(self.scheme_refused()),
            Err(SchemeError::Memory) => Err(SignatureError::Memory),
        }
    }

    /// The error if the scheme doesn't sign.
    fn scheme_refused(self) -> SignatureError
        ensures { result ≡ scheme_refused self }
    {
        let context = SigContext::SchemeRefused;
        match self {
            SignatureAlgorithm::RsaPkcs1v15(_) => SignatureError::Rsa { context },
            SignatureAlgorithm::Ecdsa(_) => SignatureError::Ec { context },
            SignatureAlgorithm::Ed25519 => SignatureError::Ed { context },
        }
    }
}

/// The secret of an RSA key.
fn rsa_secret(alloc: Global, private_key: &PrivateKey) -> Result<Vec<u8>, SignatureError>
    ensures answer { MatchResult result
        (λ secret. IsPkcs1OfPrivate private_key.now.info.private_key secret.items)
        (RefusesSignatureBy
        (NotRsaSecret private_key.now ∷ UnwritableSecret private_key.now ∷ [])) }
    ensures refused { (e : SignatureError) → NotRsaSecret private_key.now e → result ≡ Err e }
{
    Ok(private_key.to_pkcs1(alloc)?)
}

/// The secret of a key on the curve whose keys sign the digest, with the scheme's name of the
/// algorithm.
fn secret_on(
    private_key: &PrivateKey,
    hash: HashAlgorithm,
) -> Result<(SigAlg, &[u8]), SignatureError>
    ensures { MatchResult result
        (λ secret. FitsSecret (algorithms.Ecdsa hash) private_key.now secret.0 secret.1.now)
        (IsFirstBroken (secret_rules (algorithms.Ecdsa hash) private_key.now)) }
{
    let PrivateKeyValue::Ec(key) = &private_key.info.private_key else {
        return Err(SignatureError::Key {
            source: KeyError::EC {
                context: KeyContext::NotEc,
            },
        });
    };
    let curve = signing_curve(private_key, hash)?;
    let secret = key.private_key.as_slice();
    if secret.len() != curve.field_size() {
        return Err(SignatureError::Key {
            source: KeyError::EC {
                context: KeyContext::SecretSize,
            },
        });
    }
    Ok((ecdsa_alg(curve), secret))
}

/// The curve of the key, where keys on it sign the digest.
fn signing_curve(private_key: &PrivateKey, hash: HashAlgorithm) -> Result<EcCurve, SignatureError>
    ensures { MatchResult result
        (λ curve. HasCurveOf private_key.now curve × (curve_for hash ≡ Some curve))
        (IsFirstBroken
        (UnknownCurveOf private_key.now ∷ UnpairedSecret private_key.now hash ∷ [])) }
{
    let Some(curve) = curve_of(&private_key.info.private_key_algorithm) else {
        return Err(SignatureError::Key {
            source: KeyError::EC {
                context: KeyContext::UnsupportedCurve,
            },
        });
    };
    if curve_for(hash) != Some(curve) {
        return Err(SignatureError::UnsupportedAlgorithm {
            algorithm: Unsupported::Pairing(curve, hash),
        });
    }
    Ok(curve)
}

/// The secret of an Ed25519 key.
fn ed25519_secret(private_key: &PrivateKey) -> Result<&[u8], SignatureError>
    ensures { MatchResult result
        (λ secret. IsEd25519Secret private_key.now secret.now)
        (IsFirstBroken (secret_rules algorithms.Ed25519 private_key.now)) }
{
    let PrivateKeyValue::Ed(secret) = &private_key.info.private_key else {
        return Err(SignatureError::Key {
            source: KeyError::ED {
                context: KeyContext::NotEd,
            },
        });
    };
    let Some(bits) = &private_key.public_key else {
        return Err(SignatureError::Key {
            source: KeyError::ED {
                context: KeyContext::PublicKeyMissing,
            },
        });
    };
    match EdAlgorithm::named(private_key.info.private_key_algorithm.oid().as_bytes()) {
        Some(EdAlgorithm::Ed25519) => sized_secret(secret.as_slice(), bits),
        Some(EdAlgorithm::X25519) => Err(SignatureError::Ed {
            context: SigContext::NotForSigning,
        }),
        None => Err(SignatureError::Key {
            source: KeyError::ED {
                context: KeyContext::UnsupportedEd,
            },
        }),
    }
}

/// The secret, if it and the public key have the size of Ed25519 keys.
fn sized_secret<'a>(secret: &'a [u8], bits: &BitString) -> Result<&'a [u8], SignatureError>
    ensures { MatchResult result
        (λ octets. (octets.now ≡ secret.now) × (length (payload_of bits.now) ≡ 32)
        × (length secret.now ≡ 32))
        (λ e. ((length (payload_of bits.now) ≡ 32) × (length secret.now ≡ 32) → ⊥)
        × (e ≡ errors.Ed contexts.KeySize)) }
{
    if bits.payload_view().len() != ED25519_LEN || secret.len() != ED25519_LEN {
        return Err(SignatureError::Ed {
            context: SigContext::KeySize,
        });
    }
    Ok(secret)
}
