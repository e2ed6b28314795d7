//! The certificates of owned signed data.

ghost use Rattle.std.specs.Prelude.{map, IfOk, MatchOption};
ghost use Rattle.cms_types.specs.CertificateChoices.{certificate_choice};
ghost use Rattle.x509_types.specs.CertificateElements.{CertificateElements};
ghost use Rattle.authenticode_parts.specs.Carried.{elements_of};
ghost use Rattle.authenticode_core.specs.CertificateBag.{IsBag, IsMember};

use cms_types::CertificateChoices;
use der_core::Raw;
use std::alloc::{AllocError, Global};
use x509_core::Cert;
use x509_types::CertView;

/// The members that are certificates, in order.
pub(crate) fn certificates_of(
    alloc: Global,
    members: &[CertificateChoices],
) -> Result<Vec<Cert>, AllocError>
    ensures { IfOk result (λ certificates. IsBag (map certificate_choice members.now)
        (elements_of certificates.items)) }
{
    let mut certificates = Vec::new(alloc);
    let mut rest = members;
    while let Some((member, others)) = rest.split_first() {
        if let Some(certificate) = certificate_at(alloc, member.element())? {
            certificates.push(certificate)?;
        }
        rest = others;
    }
    Ok(certificates)
}

/// The certificate in an element, None if it is none. The element is tested before anything is
/// allocated.
fn certificate_at(alloc: Global, element: &Raw) -> Result<Option<Cert>, AllocError>
    ensures { IfOk result (λ found. MatchOption found
        ((c : CertificateElements) → IsMember element.now.element c → ⊥)
        (λ certificate. IsMember element.now.element certificate.elements)) }
{
    let Some(_view) = CertView::read(element.elem()) else {
        return Ok(None);
    };
    match Cert::from_der(alloc, element.as_bytes()) {
        Ok(certificate) => Ok(Some(certificate)),
        Err(_) => Err(AllocError),
    }
}
