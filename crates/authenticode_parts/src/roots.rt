//! The certificates in a signature.

ghost use Rattle.std.specs.Prelude.{◌↔◌, IfOk, IsTrue, map};
ghost use Rattle.authenticode_parts.specs.Carried.{HoldsCarried, HoldsWithoutRoots, IsRootCertificate, elements_of};
ghost use Rattle.cms_types.specs.CertificateChoices.{certificate_choice};

use crate::carrying::{kept_certificates, member_of};
use cms_types::CertificateSet;
use der_core::ListOf;
use std::alloc::{AllocError, Global};
use x509_core::{Cert, CertType};

/// Whether this is a root certificate (RFC 5280 3.2).
fn is_root(certificate: &Cert) -> bool
    ensures { IsTrue result ↔ IsRootCertificate certificate.now.elements }
{
    match certificate.ty() {
        CertType::Root => true,
        CertType::Intermediate => false,
        CertType::Leaf => false,
        CertType::Unknown => false,
    }
}

/// The certificates without the roots, in order.
pub fn without_roots(alloc: Global, certificates: &[Cert]) -> Result<CertificateSet, AllocError>
    ensures { IfOk result (λ members. HoldsWithoutRoots (elements_of certificates.now)
        (map certificate_choice members)) }
{
    let mut members = ListOf::new(alloc);
    let mut rest = certificates;
    while let Some((certificate, others)) = rest.split_first() {
        if !is_root(certificate) {
            members.push(member_of(alloc, certificate)?)?;
        }
        rest = others;
    }
    Ok(members)
}

/// A single certificate, or of several those that aren't roots.
pub fn carried_of(alloc: Global, bag: &[Cert]) -> Result<CertificateSet, AllocError>
    ensures { IfOk result
        (λ members. HoldsCarried (elements_of bag.now) (map certificate_choice members)) }
{
    if bag.len() == 1 {
        kept_certificates(alloc, bag)
    } else {
        without_roots(alloc, bag)
    }
}
