//! The signature of a program.

ghost use Rattle.std.specs.Prelude.{◌≡◌, List, Some, None, IfOk, map};
ghost use Rattle.asn1_types.specs.Elements.{object_identifier_of};
ghost use Rattle.asn1_types.specs.declared.oids.TheConstants.{SPC_INDIRECT_DATA};
ghost use Rattle.cms_content.specs.ContentInfoElements.{content_info_of};
ghost use Rattle.cms_content.specs.IndirectData.{indirect_data_content};
ghost use Rattle.cms_types.specs.DigestAlgorithm.{digest_algorithm};
ghost use Rattle.cms_types.specs.SignedAttributesElement.{signed_attributes};
ghost use Rattle.cms_types.specs.SignedData.{signed_data_elements};
ghost use Rattle.x509_types.specs.CertificateElements.{CertificateElements, certificate_of};
ghost use Rattle.authenticode_parts.specs.Carried.{AreCarried, elements_of};
ghost use Rattle.authenticode_parts.specs.MadeSignature.{signature_made};
ghost use Rattle.authenticode_parts.specs.SignedProgram.{issuer_and_serial_of};

use crate::content::content_of;
use crate::frame::{digests_of, framed, named_by, signer_info_of, signers_of};
use crate::roots::carried_of;
use cms_types::{Pkcs7Certificate, SignedAttributes, SpcIndirectDataContent};
use der_core::Octets;
use sig_core::ShaVariant;
use std::alloc::{AllocError, Global};
use x509_core::Cert;

/// The signature of a program by the first of the certificates, from its parts: the indirect data,
/// the attributes, and the signature over them.
pub fn program_signature(
    alloc: Global,
    bag: &[Cert],
    first: &Cert,
    hash: ShaVariant,
    indirect: SpcIndirectDataContent,
    attributes: SignedAttributes,
    signature: Octets,
) -> Result<Pkcs7Certificate, AllocError>
    ensures { IfOk result
        (λ made. (carried : List CertificateElements) × AreCarried (elements_of bag.now) carried
        × (signed_data_elements made.signed_data
        ≡ signature_made (record {
          algorithm = digest_algorithm hash;
          content_info = content_info_of (object_identifier_of SPC_INDIRECT_DATA.now)
              (Some (indirect_data_content indirect));
          certificates = map certificate_of carried;
          named = issuer_and_serial_of first.now.elements;
          attributes = signed_attributes attributes;
          signature = signature;
          unsigned = None;
        }))) }
{
    let sid = named_by(alloc, first)?;
    let signer = signer_info_of(alloc, sid, hash, attributes, signature, None)?;
    let signers = signers_of(alloc, signer)?;
    let digests = digests_of(alloc, hash)?;
    let certificates = carried_of(alloc, bag)?;
    let content = content_of(alloc, indirect)?;
    Ok(framed(alloc, digests, content, certificates, signers))
}
