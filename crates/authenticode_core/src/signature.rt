//! Whether the signature of the first signer is good, step by step (RFC 2315 9.3, 9.4; Windows
//! Authenticode Portable Executable Signature Format).

ghost use Rattle.std.specs.Prelude.{◌≡◌, [], ◌∷◌, IfOk, MatchResult};
ghost use Rattle.cms_types.specs.SignedView.{data_elements};
ghost use Rattle.cms_types.specs.SignerView.{signer_elements_at};
ghost use Rattle.der_core.specs.Elements.{sequence};
ghost use Rattle.der_core.specs.Borrowed.{AreDer};
ghost use Rattle.der_core.specs.Rules.{OrMemory};
ghost use Rattle.key_types.specs.PublicKeyInfo.{inner_key};
ghost use Rattle.key_core.specs.Keys.{info_of};
ghost use Rattle.x509_core.specs.Link.{HasKey};
ghost use Rattle.x509_types.specs.CertificateView.{view_elements};
ghost use Rattle.authenticode_core.specs.Inside.SigningSteps.{IsBoundBy, NamesSigner, ReportsName, digest_rules};
ghost use Rattle.authenticode_core.specs.SignedFields.{IndirectData, IsFirstSigner, indirect_kids};
ghost use Rattle.authenticode_core.specs.SigningRules.{HasNoCertificate, HasUnknownDigest, IsNamedByKey, IsRefusedUnder, IsSigned, HasSignatureBy, NamesDigest, RefusesAuthenticodeBy, digested_octets, signing_rules};
ghost use Rattle.authenticode_core.specs.declared.error.AuthenticodeError.TheVariants as errors;

pub(crate) mod attributes;
mod code_signing;

use crate::bag::naming::{Named, named_certificate};
use crate::digest::digest_named;
use crate::error::AuthenticodeError;
use crate::signature::attributes::{message_digest_of, signed_message_of};
use crate::signature::code_signing::expect_code_signing;
use asn1_types::IntegerAsn1;
use cms_types::{SignedView, SignerView};
use der_core::{Elem, Octets, Structure, is_same};
use key_core::{PublicKey, SignatureAlgorithm};
use key_types::SubjectPublicKeyInfo;
use names_core::DirectoryName;
use sig_core::{HashAlgorithm, Scheme, UnsupportedAlgorithmError, UnsupportedHashAlgorithmError};
use std::alloc::{AllocError, Global};
use x509_types::CertView;

/// Checks that the signature of the first signer over its attributes is good, and that they have
/// the digest of the indirect data, given as its element; returns the index of the signer's
/// certificate. The first of these that fails is returned: the signer is identified by an issuer
/// and a serial number, and some certificate has these; the digest algorithm is known; the scheme
/// accepts RSA with it over the attributes under the key of the certificate; the attributes have a
/// message digest; the digest algorithm isn't SHA-224; the message digest is that of the contents
/// octets of the indirect data; the certificate may sign code.
pub(crate) fn expect_signed<'a, S: Scheme>(
    alloc: Global,
    signed_data: &SignedView<'a>,
    signer: &SignerView<'a>,
    content: Elem<'a>,
    scheme: &S,
) -> Result<usize, AuthenticodeError>
    requires { IsFirstSigner (data_elements signed_data.now) (signer_elements_at signer.now) }
    ensures { (d : IndirectData) → content.entry.is.0 ≡ sequence (indirect_kids d)
        → MatchResult result
        (λ place. IsSigned (S.judge scheme.now) (data_elements signed_data.now) d
        (signer_elements_at signer.now) place)
        (RefusesAuthenticodeBy (signing_rules (S.judge scheme.now) (data_elements signed_data.now)
        d (signer_elements_at signer.now))) }
{
    let named = expect_certificate(alloc, signed_data, signer)?;
    let hash = expect_known_digest(signer)?;
    expect_signature(alloc, signer, hash, &named.certificate.certificate, scheme)?;
    expect_message_digest(alloc, signer, hash, content.content)?;
    expect_code_signing(&named)?;
    Ok(named.certificate.place)
}

/// The certificate with the issuer and the serial number of the first signer.
pub(crate) fn expect_certificate<'a>(
    alloc: Global,
    signed_data: &SignedView<'a>,
    signer: &SignerView<'a>,
) -> Result<Named<'a>, AuthenticodeError>
    requires { IsFirstSigner (data_elements signed_data.now) (signer_elements_at signer.now) }
    ensures { MatchResult result (NamesSigner (data_elements signed_data.now))
        (RefusesAuthenticodeBy (IsNamedByKey (signer_elements_at signer.now) ∷
        HasNoCertificate (data_elements signed_data.now) (signer_elements_at signer.now) ∷
        [])) }
{
    let Some((issuer, serial_number)) = signer.issuer_and_serial() else {
        return Err(AuthenticodeError::IncorrectSignerIdentifier);
    };
    match named_certificate(signed_data, issuer, serial_number) {
        Some(named) => Ok(named),
        None => Err(no_certificate(alloc, issuer, serial_number)),
    }
}

/// The error that no certificate has this issuer, given as octets, and this serial number, given as
/// contents octets.
fn no_certificate(alloc: Global, issuer: &[u8], serial_number: &[u8]) -> AuthenticodeError
    ensures { OrMemory errors.Memory (ReportsName issuer.now serial_number.now) result }
{
    let Ok(issuer) = DirectoryName::from_der(alloc, issuer) else {
        return AuthenticodeError::Memory;
    };
    match IntegerAsn1::from_content(alloc, serial_number) {
        Ok(serial_number) => {
            AuthenticodeError::NoCertificatesAssociatedWithIssuerAndSerialNumber {
                issuer,
                serial_number,
            }
        }
        Err(_) => AuthenticodeError::Memory,
    }
}

/// The digest algorithm of the signer.
fn expect_known_digest(signer: &SignerView<'_>) -> Result<HashAlgorithm, AuthenticodeError>
    ensures { MatchResult result
        (NamesDigest (signer_elements_at signer.now).digest_algorithm)
        (HasUnknownDigest (signer_elements_at signer.now)) }
{
    match digest_named(signer.digest_algorithm()) {
        Some(hash) => Ok(hash),
        None => Err(AuthenticodeError::UnsupportedAlgorithmError(UnsupportedAlgorithmError)),
    }
}

/// Checks that the signature over the attributes is one by the key of the certificate, by RSA with
/// this digest (RFC 2315 9.4).
fn expect_signature<S: Scheme>(
    alloc: Global,
    signer: &SignerView<'_>,
    hash: HashAlgorithm,
    certificate: &CertView<'_>,
    scheme: &S,
) -> Result<(), AuthenticodeError>
    ensures { MatchResult result
        (λ _. HasSignatureBy (S.judge scheme.now) (signer_elements_at signer.now) hash
        (view_elements certificate.now))
        (RefusesAuthenticodeBy (IsRefusedUnder (S.judge scheme.now) (signer_elements_at signer.now)
        hash (view_elements certificate.now) ∷ [])) }
{
    let key = key_of(alloc, certificate)?;
    let message = signed_message_of(alloc, signer)?;
    let algorithm = SignatureAlgorithm::RsaPkcs1v15(hash);
    match algorithm.verify_by(
        alloc,
        &key,
        certificate.key(),
        &message,
        signer.signature(),
        scheme,
    ) {
        Ok(()) => Ok(()),
        Err(source) => Err(AuthenticodeError::from(source)),
    }
}

/// The key of a certificate (RFC 5280 4.1.2.7).
fn key_of(alloc: Global, certificate: &CertView<'_>) -> Result<PublicKey, AllocError>
    ensures { IfOk result (λ key. HasKey (view_elements certificate.now) (info_of key)
        × AreDer (inner_key (info_of key).subject_public_key)) }
{
    match SubjectPublicKeyInfo::read_at(alloc, certificate.subject_public_key_info()) {
        Ok(info) => Ok(PublicKey::from(info)),
        Err(_) => Err(AllocError),
    }
}

/// Checks that the first message digest of the signer is the digest of these octets, which isn't
/// SHA-224 (RFC 2315 9.3).
fn expect_message_digest(
    alloc: Global,
    signer: &SignerView<'_>,
    hash: HashAlgorithm,
    octets: &[u8],
) -> Result<(), AuthenticodeError>
    requires { NamesDigest (signer_elements_at signer.now).digest_algorithm hash }
    ensures { (d : IndirectData) → octets.now ≡ digested_octets d → MatchResult result
        (λ _. IsBoundBy d (signer_elements_at signer.now) hash)
        (RefusesAuthenticodeBy (digest_rules d (signer_elements_at signer.now))) }
{
    let Some(actual) = message_digest_of(signer) else {
        return Err(AuthenticodeError::NoMessageDigest);
    };
    if hash == HashAlgorithm::SHA2_224 {
        return Err(AuthenticodeError::UnsupportedHashAlgorithmError(UnsupportedHashAlgorithmError {
            algorithm: hash,
        }));
    }
    let digest = hash.digest(alloc, octets)?;
    if is_same(actual, &digest) {
        return Ok(());
    }
    Err(hash_mismatch(alloc, actual, digest))
}

/// The error that the message digest isn't the expected digest.
fn hash_mismatch(alloc: Global, actual: &[u8], expected: Vec<u8>) -> AuthenticodeError
    ensures { OrMemory errors.Memory (λ e. e ≡ errors.HashMismatch actual.now expected.items)
        result }
{
    match Octets::from_slice(alloc, actual) {
        Ok(actual) => AuthenticodeError::HashMismatch {
            actual,
            expected: Octets::from(expected),
        },
        Err(_) => AuthenticodeError::Memory,
    }
}
