//! Key identifiers.

ghost use Rattle.std.specs.Prelude.{◌≡◌, ◌≢◌, ℕ, List, Err, IfOk, MatchResult, vec_len, Some};
ghost use Rattle.sig_core.specs.Digest.{digest_of, digest_size};
ghost use Rattle.sig_core.specs.declared.hash.HashAlgorithm.{HashAlgorithm};
ghost use Rattle.sig_core.specs.declared.hash.HashAlgorithm.TheVariants.{MD5};
ghost use Rattle.key_types.specs.SubjectKey.{kind_of_key};
ghost use Rattle.key_types.specs.declared.subject_key.SubjectKey.TheVariants.{Rsa};
ghost use Rattle.key_core.specs.KeyIdentifier.{IsKeyIdentifier, IsPayloadOf, RefusesPayload, RefusesKeyIdentifier, key_id_refusal, payload_refusal};
ghost use Rattle.key_core.specs.SignatureErrorText.{key_id_error_text};
ghost use Rattle.key_core.specs.declared.error.KeyError.TheVariants as key_errors;
ghost use Rattle.key_core.specs.declared.key_id.KeyIdGenError.TheVariants as errors;
ghost use Rattle.key_core.specs.declared.key_id.KeyIdGenMethod.TheVariants as methods;

use crate::element::Element;
use crate::error::{KeyError, write_element};
use crate::public_key::PublicKey;
use der_core::{DerError, Structure};
use key_types::{RsaPublicKey, SubjectKey};
use sig_core::HashAlgorithm;
use std::alloc::{AllocError, AllocFailed, Global};
use std::fmt;
use thiserror::Error;

/// 160 bits, in octets.
const LEFTMOST: usize = 20;

/// How a key identifier is derived from a key (RFC 5280 4.2.1.2, RFC 7093 2).
#[derive(Clone, Copy, Debug, PartialEq, Eq, Hash)]
pub enum KeyIdGenMethod {
    /// The digest of the SubjectPublicKeyInfo.
    SPKFullDER(HashAlgorithm),
    /// The first 20 octets of the digest of the key's bits, without their tag, length and count of
    /// unused bits. An MD5 digest is too short.
    SPKValueHashedLeftmost160(HashAlgorithm),
}

/// Why a key has no key identifier.
#[derive(Clone, Copy, Debug, PartialEq, Eq, Error)]
pub enum KeyIdGenError {
    /// The key can't be written, or the digest is shorter than the key identifier. Never wraps
    /// `Memory`.
    InvalidKey { source: KeyError },
    /// The structure in the key's bits can't be written. Never wraps `Memory`.
    Asn1Serialization { element: Element, source: DerError },
    /// Out of memory.
    Memory,
}

impl KeyIdGenMethod {
    /// The key identifier: the digest, or its first 20 octets. Of the SubjectPublicKeyInfo:
    /// `InvalidKey` exactly where `PublicKey::to_der` refuses. Of the bits: `InvalidKey` with
    /// `UnsupportedAlgorithm` of the key's kind exactly for MD5, else `Asn1Serialization` exactly
    /// where the RSAPublicKey of an RSA key can't be written.
    pub fn generate_from(
        self,
        alloc: Global,
        public_key: &PublicKey,
    ) -> Result<Vec<u8>, KeyIdGenError>
        ensures answer { MatchResult result
            (λ id. IsKeyIdentifier self public_key.now.info id.items)
            (RefusesKeyIdentifier self public_key.now.info) }
        ensures sized { IfOk result (λ id. (hash : HashAlgorithm)
            → self ≡ methods.SPKValueHashedLeftmost160 hash → vec_len id ≡ 20) }
        // MD5 is refused for the bits, even when memory runs out.
        ensures refused { self ≡ methods.SPKValueHashedLeftmost160 MD5
            → result ≡ Err (errors.InvalidKey (key_errors.UnsupportedAlgorithm
            (kind_of_key public_key.now.info.subject_public_key))) }
    {
        match self {
            KeyIdGenMethod::SPKFullDER(hash) => {
                let octets = public_key.to_der(alloc)?;
                Ok(hash.digest(alloc, &octets)?)
            }
            KeyIdGenMethod::SPKValueHashedLeftmost160(hash) => leftmost160(alloc, hash, public_key),
        }
    }
}

/// The first 160 bits of the digest of the key's bits.
fn leftmost160(
    alloc: Global,
    hash: HashAlgorithm,
    public_key: &PublicKey,
) -> Result<Vec<u8>, KeyIdGenError>
    ensures answer { MatchResult result
        (λ id. IsKeyIdentifier (methods.SPKValueHashedLeftmost160 hash) public_key.now.info
        id.items)
        (RefusesKeyIdentifier (methods.SPKValueHashedLeftmost160 hash) public_key.now.info) }
    ensures sized { IfOk result (λ id. vec_len id ≡ 20) }
    ensures refused { hash ≡ MD5
        → result ≡ Err (errors.InvalidKey (key_errors.UnsupportedAlgorithm
        (kind_of_key public_key.now.info.subject_public_key))) }
{
    if hash == HashAlgorithm::MD5 {
        return Err(KeyIdGenError::InvalidKey {
            source: KeyError::UnsupportedAlgorithm {
                algorithm: public_key.kind(),
            },
        });
    }
    let mut id = payload_digest(alloc, hash, public_key)?;
    id.truncate(LEFTMOST);
    Ok(id)
}

/// The digest of the key's bits.
fn payload_digest(
    alloc: Global,
    hash: HashAlgorithm,
    public_key: &PublicKey,
) -> Result<Vec<u8>, KeyIdGenError>
    ensures answer { MatchResult result
        (λ digest. (octets : List ℕ) × IsPayloadOf public_key.now.info.subject_public_key octets
        × (digest.items ≡ digest_of hash octets))
        (RefusesPayload public_key.now.info.subject_public_key) }
    ensures size { IfOk result (λ digest. vec_len digest ≡ digest_size hash) }
{
    match &public_key.as_spki().subject_public_key {
        SubjectKey::Rsa(key) => {
            let octets = written(alloc, key)?;
            Ok(hash.digest(alloc, &octets)?)
        }
        SubjectKey::Ec(bits) | SubjectKey::Ed(bits) | SubjectKey::Mldsa(bits) => {
            Ok(hash.digest(alloc, bits.payload_view())?)
        }
    }
}

/// The encoding of the key.
fn written(alloc: Global, key: &RsaPublicKey) -> Result<Vec<u8>, KeyIdGenError>
    ensures { MatchResult result
        (λ octets. IsPayloadOf (Rsa key.now) octets.items)
        (RefusesPayload (Rsa key.now)) }
{
    match key.to_der(alloc) {
        Ok(octets) => Ok(octets),
        Err(source) => Err(unwritten(source)),
    }
}

/// The error for a key that isn't written.
fn unwritten(source: DerError) -> KeyIdGenError
    ensures { result ≡ payload_refusal source }
{
    match source {
        DerError::Memory => KeyIdGenError::Memory,
        source => KeyIdGenError::Asn1Serialization {
            element: Element::RsaPublicKey,
            source,
        },
    }
}

impl fmt::Display for KeyIdGenError {
    ghost output = { λ error. Some (key_id_error_text error) };

    fn fmt<W: fmt::Write>(&self, f: &mut fmt::Formatter<W>) -> fmt::Result {
        match self {
            KeyIdGenError::InvalidKey { source } => write!(f, "invalid key: {source}"),
            KeyIdGenError::Asn1Serialization { element, source } => {
                write_element("(asn1) couldn't serialize ", *element, source, f)
            }
            KeyIdGenError::Memory => f.write_str("out of memory"),
        }
    }
}

/// The variant that wraps the error, and `Memory` for `Memory`.
impl From<KeyError> for KeyIdGenError {
    ghost from_gives = { λ source e. e ≡ key_id_refusal source };

    fn from(source: KeyError) -> KeyIdGenError {
        match source {
            KeyError::Memory => KeyIdGenError::Memory,
            source => KeyIdGenError::InvalidKey { source },
        }
    }
}

impl From<AllocError> for KeyIdGenError {
    ghost from_gives = { λ _ e. e ≡ errors.Memory };

    fn from(_refused: AllocError) -> KeyIdGenError {
        KeyIdGenError::Memory
    }
}

impl<T: Drop> From<AllocFailed<T>> for KeyIdGenError {
    ghost from_gives = { λ _ e. e ≡ errors.Memory };

    fn from(_refused: AllocFailed<T>) -> KeyIdGenError {
        KeyIdGenError::Memory
    }
}
