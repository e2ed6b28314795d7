//! Signed data with one signer, from its parts.

ghost use Rattle.std.specs.Prelude.{◌≡◌, ◌∷◌, [], Some, IfOk};
ghost use Rattle.std.specs.Option.{option_map};
ghost use Rattle.authenticode_parts.specs.SignedProgram.{issuer_and_serial_of};
ghost use Rattle.authenticode_parts.specs.MadeSignature.{rsa_encryption as rsa_element, version_one};
ghost use Rattle.cms_content.specs.ContentInfo.{content_info};
ghost use Rattle.cms_types.specs.CertificateChoices.{certificate_choice};
ghost use Rattle.cms_types.specs.DigestAlgorithm.{digest_algorithm};
ghost use Rattle.cms_types.specs.SignedAttributesElement.{signed_attributes};
ghost use Rattle.cms_types.specs.SignedData.{signed_data_elements};
ghost use Rattle.cms_types.specs.SignerIdentifier.{signer_identifier};
ghost use Rattle.cms_types.specs.SignerInfo.{signer_elements, signer_info};
ghost use Rattle.cms_types.specs.UnsignedAttribute.{unsigned_attribute};
ghost use Rattle.der_core.specs.DerElement.{Constructed, row};
ghost use Rattle.der_core.specs.Each.{list_element};
ghost use Rattle.der_core.specs.Elements.{octet_string, set};
ghost use Rattle.key_types.specs.AlgorithmIdentifier.{algorithm_identifier};

use asn1_types::ObjectIdentifier;
use asn1_types::oids::RSA_ENCRYPTION;
use cms_types::{
    CertificateSet, CmsVersion, EncapsulatedContentInfo, IssuerAndSerialNumber, Pkcs7Certificate,
    SignedAttributes, SignedData, SignerIdentifier, SignerInfo, UnsignedAttributeList, new_sha,
};
use der_core::{ListOf, Octets};
use key_types::AlgorithmIdentifier;
use name_types::Name;
use sig_core::ShaVariant;
use std::alloc::{AllocError, Global};
use x509_core::Cert;

/// The identifier of a certificate: its issuer and its serial number (RFC 5652 10.2.4).
pub(crate) fn named_by(alloc: Global, certificate: &Cert) -> Result<SignerIdentifier, AllocError>
    ensures { IfOk result
        (λ sid. signer_identifier sid ≡ issuer_and_serial_of certificate.now.elements) }
{
    let issuer = Name::from(certificate.issuer_name(alloc)?);
    let serial_number = certificate.serial_number().try_clone(alloc)?;
    Ok(SignerIdentifier::IssuerAndSerialNumber(IssuerAndSerialNumber {
        issuer,
        serial_number,
    }))
}

/// The algorithm of RSA keys (RFC 8017 C).
fn rsa_encryption(alloc: Global) -> Result<AlgorithmIdentifier, AllocError>
    ensures { IfOk result (λ algorithm. algorithm_identifier algorithm ≡ rsa_element) }
{
    let oid = ObjectIdentifier::from_known(alloc, RSA_ENCRYPTION)?;
    let algorithm = AlgorithmIdentifier::with_null(alloc, oid)?;
    Ok(algorithm)
}

/// The signer with these parts.
pub fn signer_info_of(
    alloc: Global,
    sid: SignerIdentifier,
    hash: ShaVariant,
    attributes: SignedAttributes,
    signature: Octets,
    unsigned_attrs: Option<UnsignedAttributeList>,
) -> Result<SignerInfo, AllocError>
    ensures { IfOk result (λ signer. signer_elements signer ≡ record {
      version = version_one;
      sid = signer_identifier sid;
      digest_algorithm = digest_algorithm hash;
      signed_attrs = Some (signed_attributes attributes);
      signature_algorithm = rsa_element;
      signature = octet_string signature;
      unsigned_attrs = option_map (list_element 0xA1 unsigned_attribute) unsigned_attrs;
    }) }
{
    let digest_algorithm = new_sha(alloc, hash)?;
    let signature_algorithm = rsa_encryption(alloc)?;
    Ok(SignerInfo {
        version: CmsVersion::V1,
        sid,
        digest_algorithm,
        signed_attrs: Some(attributes),
        signature_algorithm,
        signature,
        unsigned_attrs,
    })
}

/// The digest algorithm, as the only one in its list.
pub fn digests_of(
    alloc: Global,
    hash: ShaVariant,
) -> Result<ListOf<AlgorithmIdentifier>, AllocError>
    ensures { IfOk result (λ digests. list_element 0x31 algorithm_identifier digests
        ≡ set (digest_algorithm hash ∷ [])) }
{
    let mut digests = ListOf::new(alloc);
    digests.push(new_sha(alloc, hash)?)?;
    Ok(digests)
}

/// The signer, as the only one in its list.
pub fn signers_of(alloc: Global, signer: SignerInfo) -> Result<ListOf<SignerInfo>, AllocError>
    ensures { IfOk result
        (λ signers. list_element 0x31 signer_info signers ≡ set (signer_info signer ∷ [])) }
{
    let mut signers = ListOf::new(alloc);
    signers.push(signer)?;
    Ok(signers)
}

/// The signed data with these parts. It doesn't allocate.
pub fn framed(
    alloc: Global,
    digest_algorithms: ListOf<AlgorithmIdentifier>,
    content: EncapsulatedContentInfo,
    certificates: CertificateSet,
    signers_infos: ListOf<SignerInfo>,
) -> Pkcs7Certificate
    ensures { signed_data_elements result.signed_data ≡ record {
      version = version_one;
      digest_algorithms = list_element 0x31 algorithm_identifier digest_algorithms;
      content_info = content_info content;
      certificates = Some (list_element 0xA0 certificate_choice certificates);
      crls = Some (Constructed 0xA1 (row []));
      signers_infos = list_element 0x31 signer_info signers_infos;
    } }
{
    Pkcs7Certificate {
        signed_data: SignedData {
            version: CmsVersion::V1,
            digest_algorithms,
            content_info: content,
            certificates: Some(certificates),
            crls: Some(ListOf::new(alloc)),
            signers_infos,
        },
    }
}
