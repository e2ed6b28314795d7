//! The signer's certificate, among the certificates of a caller.

ghost use Rattle.std.specs.Prelude.{◌≡◌, ◌↔◌, Some, Err, IfOk, IsTrue, MatchOption, MatchResult, slice_get, ℕ};
ghost use Rattle.authenticode_parts.specs.Carried.{elements_of};
ghost use Rattle.cms_types.specs.declared.signer_info.identifier.SignerIdentifier.TheVariants as named;
ghost use Rattle.names_core.specs.Names.{name_of_sets};
ghost use Rattle.authenticode_core.specs.Indices.{HasNoPlace, IsLeastPlace};
ghost use Rattle.authenticode_core.specs.BagSigner.{HasIssuerAndSerial};
ghost use Rattle.authenticode_signature.specs.SigningCertificate.{HasNoSigningCertificate, FirstNames, IsNamedOtherwise, IsSigningCertificate};
ghost use Rattle.authenticode_core.specs.declared.error.AuthenticodeError.{AuthenticodeError};
ghost use Rattle.authenticode_core.specs.declared.error.AuthenticodeError.TheVariants as errors;

use authenticode_core::AuthenticodeError;
use cms_types::{IssuerAndSerialNumber, SignerIdentifier, SignerInfo};
use der_core::Structure;
use name_types::Name;
use names_core::DirectoryName;
use std::alloc::{AllocError, Global};
use x509_core::Cert;

/// The first of the certificates that the first signer identifies (RFC 5652 5.3).
pub(crate) fn signing_certificate_of<'a>(
    alloc: Global,
    signers: &[SignerInfo],
    certificates: &'a [Cert],
) -> Result<&'a Cert, AuthenticodeError>
    ensures found { MatchResult result
        (λ c. IsSigningCertificate signers.now certificates.now c.now)
        (HasNoSigningCertificate signers.now certificates.now) }
    // A signer without issuer and serial number is reported before anything is allocated.
    ensures refused { (e : AuthenticodeError) → IsNamedOtherwise signers.now e → result ≡ Err e }
{
    let named = named_by_first(signers)?;
    let found = first_named(alloc, certificates, named)?;
    match found {
        Some(certificate) => Ok(certificate),
        None => Err(none_named(alloc, named)?),
    }
}

/// The issuer and the serial number of the first signer.
fn named_by_first(signers: &[SignerInfo]) -> Result<&IssuerAndSerialNumber, AuthenticodeError>
    ensures { MatchResult result
        (λ value. FirstNames signers.now (named.IssuerAndSerialNumber value.now))
        (IsNamedOtherwise signers.now) }
{
    let Some(first) = signers.first() else {
        return Err(AuthenticodeError::MultipleSignerInfo { count: 0 });
    };
    match &first.sid {
        SignerIdentifier::IssuerAndSerialNumber(named) => Ok(named),
        SignerIdentifier::SubjectKeyIdentifier(_) => {
            Err(AuthenticodeError::IncorrectSignerIdentifier)
        }
    }
}

/// The first certificate with the issuer and the serial number.
pub(crate) fn first_named<'a>(
    alloc: Global,
    certificates: &'a [Cert],
    named: &IssuerAndSerialNumber,
) -> Result<Option<&'a Cert>, AllocError>
    ensures { IfOk result (λ found. MatchOption found
        (HasNoPlace (elements_of certificates.now) (HasIssuerAndSerial named.now) 0)
        (λ c. (place : ℕ) × (slice_get certificates.now place ≡ Some c.now)
        × IsLeastPlace (elements_of certificates.now) (HasIssuerAndSerial named.now) 0 place
        c.now.elements)) }
{
    for certificate in certificates {
        if is_named(alloc, certificate, named)? {
            return Ok(Some(certificate));
        }
    }
    Ok(None)
}

/// Whether the certificate has the issuer and the serial number. The name is copied only if the
/// number is the same.
fn is_named(
    alloc: Global,
    certificate: &Cert,
    named: &IssuerAndSerialNumber,
) -> Result<bool, AllocError>
    ensures { IfOk result
        (λ is. IsTrue is ↔ HasIssuerAndSerial named.now certificate.now.elements) }
{
    if *certificate.serial_number() == named.serial_number {
        let issuer = Name::from(certificate.issuer_name(alloc)?);
        Ok(issuer == named.issuer)
    } else {
        Ok(false)
    }
}

/// The error that no certificate has the issuer and the serial number.
pub(crate) fn none_named(
    alloc: Global,
    named: &IssuerAndSerialNumber,
) -> Result<AuthenticodeError, AllocError>
    ensures { IfOk result (λ e. e ≡ errors.NoCertificatesAssociatedWithIssuerAndSerialNumber
        (name_of_sets named.now.issuer) named.now.serial_number) }
{
    let issuer = DirectoryName::from(named.issuer.try_clone(alloc)?);
    let serial_number = named.serial_number.try_clone(alloc)?;
    Ok(
        AuthenticodeError::NoCertificatesAssociatedWithIssuerAndSerialNumber {
            issuer,
            serial_number,
        },
    )
}
