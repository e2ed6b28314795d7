//! Signature files as this crate makes them: writing, reading and checking them.

ghost use Rattle.std.specs.Prelude.{◌≡◌, ◌∷◌, List, Ok, Err, ℕ, MatchResult};
ghost use Rattle.der_core.specs.Encoding.{encoding, IsDer};
ghost use Rattle.wincert_core.specs.Refusal.{contents_in, current, encoded};
ghost use Rattle.wincert_core.specs.declared.error.WinCertificateError.{WinCertificateError};
ghost use Rattle.wincert_core.specs.declared.kinds.CertificateType.{CertificateType};
ghost use Rattle.x509_types.specs.CertificateElements.{CertificateElements};
ghost use Rattle.authenticode_core.specs.ContentRefusal.{of_header};
ghost use Rattle.authenticode_core.specs.Trusted.{IsAnswer, RefusesForm};
ghost use Rattle.authenticode_core.specs.declared.error.CheckError.{CheckError};
ghost use Rattle.authenticode_core.specs.declared.error.CheckError.TheVariants.{Memory};
ghost use Rattle.authenticode_signature.specs.FileRefusals.{GivesFile, GivesSignature, RefusesHeader};
ghost use Rattle.authenticode_signature.specs.MadeFile.{IsBasicAlone, IsCheckedBy, IsMadeSignature, IsSpelledWhole, by_the_first, wrapped};
ghost use Rattle.authenticode_signature.specs.Pkcs7.{written};
ghost use Rattle.authenticode_signature.specs.declared.pkcs7.Pkcs7.{Pkcs7};

use crate::signature::AuthenticodeSignature;
use authenticode_core::{Accepted, CheckError, Policy, check_wincert};
use sig_core::Scheme;
use std::alloc::Global;
use wincert_core::{CertificateType, WinCertificate};

/// The signature file with the signature, wrapped in a WIN_CERTIFICATE with the current revision.
/// The errors are those of `to_der`, `from_certificate` and `encode`.
pub fn encode_signature(
    alloc: Global,
    signature: &AuthenticodeSignature,
    certificate_type: CertificateType,
) -> Result<Vec<u8>, CheckError>
    ensures { GivesFile (written signature.now.0) certificate_type result }
{
    let der = signature.to_der(alloc)?;
    let wrapped = wrap(alloc, &der, certificate_type)?;
    spell(alloc, wrapped)
}

/// The signature in a signature file. The errors are those of `decode` and `from_wincert`.
pub fn decode_signature(alloc: Global, octets: &[u8]) -> Result<AuthenticodeSignature, CheckError>
    ensures answer { GivesSignature octets.now result }
    // A refusal of the header comes even when memory runs out.
    ensures refused { (source : WinCertificateError) → contents_in octets.now ≡ Err source
        → result ≡ Err (of_header source) }
    // A file is read as the signature that it was made of.
    ensures made { (p : Pkcs7) (certificate_type : CertificateType) → IsDer (written p)
        → IsSpelledWhole octets.now (wrapped certificate_type (encoding (written p)))
        → MatchResult result (λ s. s.0 ≡ p) (λ e. e ≡ Memory) }
{
    read_file(alloc, octets)
}

/// Checks a signature file. One that was made here is checked with the certificates that it
/// contains, and accepted under basic validation alone with its own digest, unless memory runs out.
pub fn check_made<S: Scheme>(
    alloc: Global,
    octets: &[u8],
    policy: &Policy<'_>,
    scheme: &S,
) -> Result<Accepted, CheckError>
    ensures answer { IsAnswer (S.judge scheme.now) policy.entry.now octets.now result }
    // A refusal of the header, of what the certificate is, of the form or for a missing digest
    // comes however much memory there is.
    ensures refused { (e : CheckError) → RefusesForm policy.entry.now octets.now e → result ≡ Err e }
    // A file that was made is checked with its certificates, whatever the policy checks.
    ensures over { (first : CertificateElements) (others : List CertificateElements)
        (file_hash : List ℕ)
        → IsMadeSignature (S.judge scheme.now) first others octets.now file_hash
        → IsCheckedBy (S.judge scheme.now) policy.entry.now (first ∷ others) octets.now file_hash result }
    // A file that was made is accepted.
    ensures made { (first : CertificateElements) (others : List CertificateElements)
        (file_hash : List ℕ) → IsBasicAlone policy.entry.now file_hash
        → IsMadeSignature (S.judge scheme.now) first others octets.now file_hash
        → MatchResult result (λ a. a ≡ by_the_first) (λ e. e ≡ Memory) }
{
    check_wincert(alloc, octets, policy, scheme)
}

/// The signature in a file.
fn read_file(alloc: Global, octets: &[u8]) -> Result<AuthenticodeSignature, CheckError>
    ensures answer { GivesSignature octets.now result }
    ensures refused { (source : WinCertificateError) → contents_in octets.now ≡ Err source
        → result ≡ Err (of_header source) }
{
    let wrapped = unwrap(alloc, octets)?;
    let signature = AuthenticodeSignature::from_wincert(alloc, &wrapped)?;
    Ok(signature)
}

/// Wraps octets in a WIN_CERTIFICATE with the current revision.
fn wrap(
    alloc: Global,
    der: &[u8],
    certificate_type: CertificateType,
) -> Result<WinCertificate, CheckError>
    ensures { MatchResult result (λ w. current der.now certificate_type ≡ Ok w)
        (RefusesHeader (current der.now certificate_type)) }
{
    match WinCertificate::from_certificate(alloc, der, certificate_type) {
        Ok(wrapped) => Ok(wrapped),
        Err(source) => Err(CheckError::from(source)),
    }
}

/// The encoding of a WIN_CERTIFICATE.
fn spell(alloc: Global, wrapped: WinCertificate) -> Result<Vec<u8>, CheckError>
    ensures { MatchResult result (λ octets. encoded wrapped ≡ Ok octets.items)
        (RefusesHeader (encoded wrapped)) }
{
    match wrapped.encode(alloc) {
        Ok(octets) => Ok(octets),
        Err(source) => Err(CheckError::from(source)),
    }
}

/// The WIN_CERTIFICATE at the start of octets.
fn unwrap(alloc: Global, octets: &[u8]) -> Result<WinCertificate, CheckError>
    ensures answer { MatchResult result (λ w. contents_in octets.now ≡ Ok w.certificate)
        (RefusesHeader (contents_in octets.now)) }
    ensures refused { (source : WinCertificateError) → contents_in octets.now ≡ Err source
        → result ≡ Err (of_header source) }
{
    match WinCertificate::decode(alloc, octets) {
        Ok(wrapped) => Ok(wrapped),
        Err(source) => Err(CheckError::from(source)),
    }
}
