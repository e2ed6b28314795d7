//! What is signed instead of a program.

ghost use Rattle.std.specs.Prelude.{◌≡◌, ◌∷◌, [], Some, IfOk, MatchResult};
ghost use Rattle.asn1_types.specs.Elements.{object_identifier_of};
ghost use Rattle.asn1_types.specs.declared.oids.TheConstants.{SPC_INDIRECT_DATA};
ghost use Rattle.cms_content.specs.ContentInfo.{content_info};
ghost use Rattle.cms_content.specs.ContentInfoElements.{content_info_of};
ghost use Rattle.cms_content.specs.IndirectData.{indirect_data_content};
ghost use Rattle.cms_content.specs.SpcAttribute.{spc_attribute};
ghost use Rattle.der_core.specs.Encoding.{IsDer};
ghost use Rattle.der_core.specs.Borrowed.{contents_octets};
ghost use Rattle.der_core.specs.Refusals.{RefusesInner};
ghost use Rattle.sig_core.specs.Digest.{digest_of};
ghost use Rattle.authenticode_parts.specs.MadeContent.{data_element, image_element, image_value as image_octets};

use asn1_types::ObjectIdentifier;
use asn1_types::oids::{SPC_INDIRECT_DATA, SPC_PE_IMAGE_DATA};
use cms_types::{
    ContentValue, DigestInfo, EncapsulatedContentInfo, SpcAttributeTypeAndOptionalValue,
    SpcIndirectDataContent, UNICODE, new_sha,
};
use der_core::tag::{BIT_STRING, SEQUENCE};
use der_core::{DerError, NewKids, Octets, Raw, Structure, explicit, leaf, whole_element};
use sig_core::{HashAlgorithm, ShaVariant};
use std::alloc::{AllocError, Global};

/// The tag of the file in an SpcPeImageData, which is an SpcLink of the form `file`, and of its
/// string of the form `unicode` (Windows Authenticode Portable Executable Signature Format).
const FILE: u8 = 0xA0;

const FILE_LINK: u8 = 0xA2;

/// The indirect data with the digest of a file, which is a PE image.
pub fn indirect_of(
    alloc: Global,
    hash: ShaVariant,
    file_hash: &[u8],
) -> Result<SpcIndirectDataContent, AllocError>
    ensures { IfOk result
        (λ indirect. indirect_data_content indirect ≡ data_element hash file_hash.now) }
{
    let image = image_of(alloc)?;
    let oid = new_sha(alloc, hash)?;
    let digest = Octets::from_slice(alloc, file_hash)?;
    Ok(SpcIndirectDataContent {
        image,
        message_digest: DigestInfo { oid, digest },
    })
}

/// The kind of file: a PE image.
fn image_of(alloc: Global) -> Result<SpcAttributeTypeAndOptionalValue, AllocError>
    ensures { IfOk result (λ image. spc_attribute image ≡ image_element) }
{
    let ty = ObjectIdentifier::from_known(alloc, SPC_PE_IMAGE_DATA)?;
    let value = image_value(alloc)?;
    Ok(SpcAttributeTypeAndOptionalValue {
        ty,
        value: Some(value),
    })
}

/// The SpcPeImageData: no flags, and an empty string for the file.
fn image_value(alloc: Global) -> Result<Raw, AllocError>
    ensures { IfOk result (λ kept. kept.element ≡ image_octets) }
{
    let text = leaf(alloc, UNICODE, &[])?;
    let link = explicit(alloc, FILE_LINK, text)?;
    let mut kids = NewKids::new(alloc);
    kids.push(leaf(alloc, BIT_STRING, &[0])?)?;
    kids.push(explicit(alloc, FILE, link)?)?;
    match Raw::from_tree(alloc, &kids.into_branch(SEQUENCE)) {
        Ok(kept) => Ok(kept),
        Err(_) => Err(AllocError),
    }
}

/// The digest of a content, over its contents octets (RFC 2315 9.3).
pub fn digest_of_content(
    alloc: Global,
    indirect: &SpcIndirectDataContent,
    hash: HashAlgorithm,
) -> Result<Vec<u8>, DerError>
    ensures { MatchResult result
        (λ digest. (digest.items ≡ digest_of hash
        (contents_octets (indirect_data_content indirect.now)))
        × IsDer (indirect_data_content indirect.now))
        (RefusesInner (indirect_data_content indirect.now ∷ [])) }
{
    let octets = indirect.to_der(alloc)?;
    match whole_element(&octets) {
        Some(elem) => Ok(hash.digest(alloc, elem.content)?),
        None => unreachable!(),
    }
}

/// The indirect data with its type.
pub fn content_of(
    alloc: Global,
    indirect: SpcIndirectDataContent,
) -> Result<EncapsulatedContentInfo, AllocError>
    ensures { IfOk result (λ content. content_info content ≡ content_info_of
        (object_identifier_of SPC_INDIRECT_DATA.now) (Some (indirect_data_content indirect))) }
{
    let content_type = ObjectIdentifier::from_known(alloc, SPC_INDIRECT_DATA)?;
    let content = Some(ContentValue::SpcIndirectDataContent(indirect));
    Ok(EncapsulatedContentInfo {
        content_type,
        content,
    })
}
