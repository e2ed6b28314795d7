//! Certificates in the form of signed data.

ghost use Rattle.std.specs.Prelude.{◌≡◌, IfOk, map};
ghost use Rattle.cms_types.specs.CertificateChoices.{certificate_choice};
ghost use Rattle.x509_types.specs.CertificateElements.{certificate_of};
ghost use Rattle.authenticode_parts.specs.Carried.{elements_of};

use cms_types::{CertificateChoices, CertificateSet};
use der_core::{ListOf, Raw, whole_element};
use std::alloc::{AllocError, Global};
use x509_core::Cert;

/// A certificate as a member of signed data, with its octets as they are.
pub fn member_of(alloc: Global, certificate: &Cert) -> Result<CertificateChoices, AllocError>
    ensures { IfOk result
        (λ member. certificate_choice member ≡ certificate_of certificate.now.elements) }
{
    match whole_element(certificate.as_bytes()) {
        Some(elem) => Ok(CertificateChoices::from(Raw::from_elem(alloc, elem)?)),
        None => unreachable!(),
    }
}

/// The certificates, in order.
pub fn kept_certificates(alloc: Global, certificates: &[Cert]) -> Result<CertificateSet, AllocError>
    ensures { IfOk result (λ members. map certificate_choice members
        ≡ map certificate_of (elements_of certificates.now)) }
{
    let mut members = ListOf::new(alloc);
    let mut rest = certificates;
    while let Some((certificate, others)) = rest.split_first() {
        members.push(member_of(alloc, certificate)?)?;
        rest = others;
    }
    Ok(members)
}
