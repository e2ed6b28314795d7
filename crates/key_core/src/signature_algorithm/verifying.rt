//! Verifying signatures.

ghost use Rattle.std.specs.Prelude.{◌≡◌, ◌≢◌, ℕ, List, [], ◌∷◌, length, Some, Err, MatchOption, MatchResult};
ghost use Rattle.asn1_types.specs.Values.{payload_of};
ghost use Rattle.der_core.specs.Rules.{IsFirstBroken};
ghost use Rattle.key_types.specs.SubjectKey.{kind_of_key};
ghost use Rattle.key_types.specs.declared.key_info.SubjectPublicKeyInfo.{SubjectPublicKeyInfo};
ghost use Rattle.key_types.specs.declared.key_kind.KeyKind.TheVariants as kinds;
ghost use Rattle.key_types.specs.declared.public_key.RsaPublicKey.{RsaPublicKey};
ghost use Rattle.key_types.specs.declared.subject_key.SubjectKey.TheVariants as keys;
ghost use Rattle.key_core.specs.Pkcs1.{IsPkcs1Of};
ghost use Rattle.key_core.specs.SchemeNames.{curve_for, ecdsa_alg};
ghost use Rattle.key_core.specs.SignatureRules.{RefusesSignatureBy};
ghost use Rattle.key_core.specs.Verifying.{Judge, FitsKey, IsJudged, NamesCurve, IsOnCurve, IsEd25519Key, NotRsa, Unwritable, UnknownCurve, UnknownHash, Unpaired, key_rules, malformed, IsVerified, HasVerdict, RefusesKey};
ghost use Rattle.key_core.specs.declared.ec_curve.EcCurve.{EcCurve};
ghost use Rattle.key_core.specs.declared.signature_algorithm.SignatureAlgorithm.TheVariants as algorithms;
ghost use Rattle.key_core.specs.declared.signature_error.SigContext.TheVariants as contexts;
ghost use Rattle.key_core.specs.declared.signature_error.SignatureError.{SignatureError};
ghost use Rattle.key_core.specs.declared.signature_error.SignatureError.TheVariants as errors;

use super::SignatureAlgorithm;
use crate::ec_curve::EcCurve;
use crate::ed_algorithm::EdAlgorithm;
use crate::error::{KeyContext, KeyError};
use crate::public_key::PublicKey;
use crate::scheme_names::{curve_for, ecdsa_alg, rsa_alg};
use crate::signature_error::{SigContext, SignatureError, Unsupported};
use asn1_types::BitString;
use der_core::leaf_at;
use der_core::tag::OBJECT_IDENTIFIER;
use key_types::{AlgorithmIdentifier, KeyKind, SubjectKey, SubjectPublicKeyInfo};
use sig_core::{HashAlgorithm, Scheme, SigAlg, Verdict};
use std::alloc::Global;

/// The size of an Ed25519 public key, and of a secret, in octets (RFC 8032 5.1.5).
pub(super) const ED25519_LEN: usize = 32;

impl SignatureAlgorithm {
    /// Verifies the signature of the message by the key. The key must fit the algorithm: be of its
    /// kind, and for ECDSA on P-256 with SHA-256, on P-384 with SHA-384, or on P-521 with SHA-512.
    /// The rest is the verdict of the scheme.
    pub fn verify<S: Scheme>(
        self,
        alloc: Global,
        public_key: &PublicKey,
        msg: &[u8],
        signature: &[u8],
        scheme: &S,
    ) -> Result<(), SignatureError>
        ensures answer { IsVerified (S.judge scheme.now) self public_key.now.info msg.now
            signature.now result }
        ensures refused { RefusesKey self public_key.now.info result }
    {
        let verdict = self.verdict(alloc, public_key, msg, signature, scheme)?;
        self.result_of(verdict)
    }

    /// Like `verify`, for a caller that has the encoding of an RSA key, which `to_pkcs1` returns:
    /// it is borrowed, so no key is encoded. For a key of another kind it is ignored.
    pub fn verify_by<S: Scheme>(
        self,
        alloc: Global,
        public_key: &PublicKey,
        octets: &[u8],
        msg: &[u8],
        signature: &[u8],
        scheme: &S,
    ) -> Result<(), SignatureError>
        requires { (key : RsaPublicKey) → public_key.now.info.subject_public_key ≡ keys.Rsa key
            → IsPkcs1Of (keys.Rsa key) octets.now }
        ensures answer { IsVerified (S.judge scheme.now) self public_key.now.info msg.now
            signature.now result }
        ensures refused { RefusesKey self public_key.now.info result }
    {
        let verdict = self.verdict_by(alloc, public_key, octets, msg, signature, scheme)?;
        self.result_of(verdict)
    }

    /// The verdict of the scheme if the key, whose encoding is borrowed, fits the algorithm.
    fn verdict_by<S: Scheme>(
        self,
        alloc: Global,
        public_key: &PublicKey,
        octets: &[u8],
        msg: &[u8],
        signature: &[u8],
        scheme: &S,
    ) -> Result<Verdict, SignatureError>
        requires { (key : RsaPublicKey) → public_key.now.info.subject_public_key ≡ keys.Rsa key
            → IsPkcs1Of (keys.Rsa key) octets.now }
        ensures answer { HasVerdict (S.judge scheme.now) self public_key.now.info msg.now
            signature.now result }
        ensures refused { RefusesKey self public_key.now.info result }
    {
        let SignatureAlgorithm::RsaPkcs1v15(hash) = self else {
            return self.verdict(alloc, public_key, msg, signature, scheme);
        };
        expect_rsa(public_key)?;
        Ok(scheme.verify(alloc, rsa_alg(hash), octets, msg, signature)?)
    }

    /// The verdict of the scheme if the key fits the algorithm.
    fn verdict<S: Scheme>(
        self,
        alloc: Global,
        public_key: &PublicKey,
        msg: &[u8],
        signature: &[u8],
        scheme: &S,
    ) -> Result<Verdict, SignatureError>
        ensures answer { HasVerdict (S.judge scheme.now) self public_key.now.info msg.now
            signature.now result }
        ensures refused { RefusesKey self public_key.now.info result }
    {
        match self {
            SignatureAlgorithm::RsaPkcs1v15(hash) => {
                let key = rsa_bytes(alloc, public_key)?;
                Ok(scheme.verify(alloc, rsa_alg(hash), &key, msg, signature)?)
            }
            SignatureAlgorithm::Ecdsa(hash) => {
                let (alg, point) = point_of(public_key, hash)?;
                Ok(scheme.verify(alloc, alg, point, msg, signature)?)
            }
            SignatureAlgorithm::Ed25519 => {
                let key = ed25519_bytes(public_key)?;
                Ok(scheme.verify(alloc, SigAlg::Ed25519, key, msg, signature)?)
            }
        }
    }

    /// A verdict as a result.
    fn result_of(self, verdict: Verdict) -> Result<(), SignatureError>
        ensures { (judge : Judge) (info : SubjectPublicKeyInfo) (msg sig : List ℕ)
            → IsJudged judge self info msg sig verdict
            → IsVerified judge self info msg sig result }
    {
        match verdict {
            Verdict::Accept => Ok(()),
            Verdict::Reject => Err(SignatureError::BadSignature),
            Verdict::Malformed => Err(self.malformed()),
        }
    }

    /// The error for a malformed signature.
    fn malformed(self) -> SignatureError
        ensures { result ≡ malformed self }
    {
        let context = SigContext::Malformed;
        match self {
            SignatureAlgorithm::RsaPkcs1v15(_) => SignatureError::Rsa { context },
            SignatureAlgorithm::Ecdsa(_) => SignatureError::Ec { context },
            SignatureAlgorithm::Ed25519 => SignatureError::Ed { context },
        }
    }
}

/// The key bytes of an RSA key.
fn rsa_bytes(alloc: Global, public_key: &PublicKey) -> Result<Vec<u8>, SignatureError>
    ensures answer { MatchResult result
        (λ bytes. IsPkcs1Of public_key.now.info.subject_public_key bytes.items)
        (RefusesSignatureBy (NotRsa public_key.now.info ∷ Unwritable public_key.now.info ∷ [])) }
    ensures refused { (e : SignatureError) → NotRsa public_key.now.info e → result ≡ Err e }
{
    expect_rsa(public_key)?;
    Ok(public_key.to_pkcs1(alloc)?)
}

/// Refuses a key that isn't an RSA key.
fn expect_rsa(public_key: &PublicKey) -> Result<(), SignatureError>
    ensures { MatchResult result
        (λ _. kind_of_key public_key.now.info.subject_public_key ≡ kinds.Rsa)
        (NotRsa public_key.now.info) }
{
    let kind = public_key.kind();
    if kind == KeyKind::Rsa {
        return Ok(());
    }
    Err(SignatureError::Key {
        source: KeyError::UnsupportedAlgorithm { algorithm: kind },
    })
}

/// The point of a key on the curve whose keys sign the digest, with the scheme's name of the
/// algorithm.
fn point_of(public_key: &PublicKey, hash: HashAlgorithm) -> Result<(SigAlg, &[u8]), SignatureError>
    ensures { MatchResult result
        (λ point. FitsKey (algorithms.Ecdsa hash) public_key.now.info point.0 point.1.now)
        (IsFirstBroken (key_rules (algorithms.Ecdsa hash) public_key.now.info)) }
{
    let info = public_key.as_spki();
    let SubjectKey::Ec(bits) = &info.subject_public_key else {
        return Err(SignatureError::Key {
            source: KeyError::EC {
                context: KeyContext::NotEc,
            },
        });
    };
    let alg = paired(info, hash)?;
    Ok((alg, bits.payload_view()))
}

/// The scheme's name of ECDSA with the digest algorithm and keys on the curve of this key.
fn paired(info: &SubjectPublicKeyInfo, hash: HashAlgorithm) -> Result<SigAlg, SignatureError>
    ensures { MatchResult result
        (λ alg. (curve : EcCurve) × (curve_for hash ≡ Some curve) × (alg ≡ ecdsa_alg curve)
        × IsOnCurve info.now curve)
        (IsFirstBroken (UnknownCurve info.now ∷ UnknownHash hash ∷ Unpaired info.now hash ∷ [])) }
{
    let Some(curve) = curve_of(&info.algorithm) else {
        return Err(SignatureError::Key {
            source: KeyError::EC {
                context: KeyContext::UnsupportedCurve,
            },
        });
    };
    let Some(signing) = curve_for(hash) else {
        return Err(SignatureError::UnsupportedAlgorithm {
            algorithm: Unsupported::Hash(hash),
        });
    };
    if signing != curve {
        return Err(SignatureError::UnsupportedAlgorithm {
            algorithm: Unsupported::Pairing(curve, hash),
        });
    }
    Ok(ecdsa_alg(curve))
}

/// The curve that the parameters of an algorithm name.
pub(super) fn curve_of(algorithm: &AlgorithmIdentifier) -> Option<EcCurve>
    ensures { MatchOption result
        ((curve : EcCurve) → NamesCurve algorithm.now curve → ⊥)
        (λ curve. NamesCurve algorithm.now curve) }
{
    let parameters = algorithm.parameters()?;
    let oid = leaf_at(parameters.elem(), OBJECT_IDENTIFIER)?;
    Some(EcCurve::named(oid)?)
}

/// The octets of an Ed25519 key.
fn ed25519_bytes(public_key: &PublicKey) -> Result<&[u8], SignatureError>
    ensures { MatchResult result
        (λ bytes. IsEd25519Key public_key.now.info bytes.now)
        (IsFirstBroken (key_rules algorithms.Ed25519 public_key.now.info)) }
{
    let info = public_key.as_spki();
    let SubjectKey::Ed(bits) = &info.subject_public_key else {
        return Err(SignatureError::Key {
            source: KeyError::ED {
                context: KeyContext::NotEd,
            },
        });
    };
    match EdAlgorithm::named(info.algorithm.oid().as_bytes()) {
        Some(EdAlgorithm::Ed25519) => sized_key(bits),
        Some(EdAlgorithm::X25519) => Err(SignatureError::Ed {
            context: SigContext::NotForSigning,
        }),
        None => Err(SignatureError::Key {
            source: KeyError::ED {
                context: KeyContext::UnsupportedEd,
            },
        }),
    }
}

/// The octets, if they have the size of an Ed25519 key.
fn sized_key(bits: &BitString) -> Result<&[u8], SignatureError>
    ensures { MatchResult result
        (λ bytes. (bytes.now ≡ payload_of bits.now) × (length bytes.now ≡ 32))
        (λ e. (length (payload_of bits.now) ≢ 32) × (e ≡ errors.Ed contexts.KeySize)) }
{
    let octets = bits.payload_view();
    if octets.len() != ED25519_LEN {
        return Err(SignatureError::Ed {
            context: SigContext::KeySize,
        });
    }
    Ok(octets)
}
