//! Certificates as signed data without signers.

ghost use Rattle.std.specs.Prelude.{◌≡◌, None, IfOk, map};
ghost use Rattle.asn1_types.specs.Elements.{object_identifier_of};
ghost use Rattle.asn1_types.specs.declared.oids.TheConstants.{DATA};
ghost use Rattle.cms_content.specs.ContentInfo.{content_info};
ghost use Rattle.cms_content.specs.ContentInfoElements.{content_info_of};
ghost use Rattle.cms_types.specs.SignedData.{signed_data_elements};
ghost use Rattle.x509_types.specs.CertificateElements.{certificate_of};
ghost use Rattle.authenticode_parts.specs.Carried.{elements_of};
ghost use Rattle.authenticode_signature.specs.CertificatesAlone.{certificates_alone};

use asn1_types::ObjectIdentifier;
use asn1_types::oids::DATA;
use authenticode_parts::kept_certificates;
use cms_types::{CmsVersion, EncapsulatedContentInfo, Pkcs7Certificate, SignedData};
use der_core::ListOf;
use std::alloc::{AllocError, Global};
use x509_core::Cert;

/// Signed data without signers, with these certificates as they are.
pub(crate) fn without_signers(
    alloc: Global,
    certificates: &[Cert],
) -> Result<Pkcs7Certificate, AllocError>
    ensures { IfOk result (λ value. signed_data_elements value.signed_data
        ≡ certificates_alone (map certificate_of (elements_of certificates.now))) }
{
    let content_info = no_content(alloc)?;
    let members = kept_certificates(alloc, certificates)?;
    Ok(Pkcs7Certificate {
        signed_data: SignedData {
            version: CmsVersion::V1,
            digest_algorithms: ListOf::new(alloc),
            content_info,
            certificates: Some(members),
            crls: Some(ListOf::new(alloc)),
            signers_infos: ListOf::new(alloc),
        },
    })
}

/// The type of data without a content (RFC 2315 8).
fn no_content(alloc: Global) -> Result<EncapsulatedContentInfo, AllocError>
    ensures { IfOk result
        (λ info. content_info info ≡ content_info_of (object_identifier_of DATA.now) None) }
{
    let content_type = ObjectIdentifier::from_known(alloc, DATA)?;
    Ok(EncapsulatedContentInfo {
        content_type,
        content: None,
    })
}
