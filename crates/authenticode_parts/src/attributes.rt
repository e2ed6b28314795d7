//! The signed attributes of a program's signature.

ghost use Rattle.std.specs.Prelude.{◌≡◌, ◌∷◌, ◌++◌, [], List, Err, None, IfOk, IsOk, MatchResult, map};
ghost use Rattle.std.specs.Option.{option_copied};
ghost use Rattle.asn1_types.specs.Elements.{object_identifier_of};
ghost use Rattle.asn1_types.specs.Ia5String.{RefusesCharSet};
ghost use Rattle.asn1_types.specs.declared.oids.TheConstants.{CONTENT_TYPE, MESSAGE_DIGEST, SPC_INDIRECT_DATA, SPC_SP_OPUS_INFO};
ghost use Rattle.cms_types.specs.OpusInfo.{opus_info};
ghost use Rattle.cms_types.specs.SignedAttributesElement.{signed_attributes};
ghost use Rattle.der_core.specs.DerElement.{DerElement};
ghost use Rattle.der_core.specs.Elements.{octet_string};
ghost use Rattle.der_core.specs.Encoding.{IsDer};
ghost use Rattle.der_core.specs.Borrowed.{AreDer};
ghost use Rattle.der_core.specs.Refusals.{RefusesInner};
ghost use Rattle.x509_types.specs.Attribute.{attribute, inner_attributes};
ghost use Rattle.x509_types.specs.AttributeValues.{inner_values};
ghost use Rattle.authenticode_parts.specs.MadeContent.{attribute_by, attributes_message, opus_element, program_attributes};
ghost use Rattle.authenticode_parts.specs.MadeSignature.{attributes_element};
ghost use Rattle.authenticode_parts.specs.SignedProgram.{IsBasicName};

use asn1_types::oids::{CONTENT_TYPE, MESSAGE_DIGEST, SPC_INDIRECT_DATA, SPC_SP_OPUS_INFO};
use asn1_types::{CharSetError, ObjectIdentifier};
use cms_types::{SIGNED_ATTRIBUTES, SignedAttributes, SpcLink, SpcSpOpusInfo, SpcString};
use der_core::tag::SET;
use der_core::{DerError, ListOf, Octets, Raw, Structure, write_list};
use std::alloc::{AllocError, Global};
use x509_types::{Attribute, AttributeList, AttributeValues};

/// The SpcSpOpusInfo of a program: its name, if any, and an empty link to more information.
pub fn opus_of(alloc: Global, name: Option<&str>) -> Result<SpcSpOpusInfo, CharSetError>
    ensures answer { MatchResult result
        (λ info. (opus_info info ≡ opus_element (option_copied name.entry))
        × IsBasicName (option_copied name.entry))
        (RefusesCharSet (IsBasicName (option_copied name.entry))) }
    // A name is refused before anything is allocated, and without a name nothing is allocated.
    ensures refused { (IsBasicName (option_copied name.entry) → ⊥)
        → result ≡ Err CharSetError.CharSet }
    ensures nameless { option_copied name.entry ≡ None → IsOk result }
{
    let program_name = match name {
        Some(text) => Some(SpcString::from_text(alloc, text)?),
        None => None,
    };
    Ok(SpcSpOpusInfo {
        program_name,
        more_info: Some(SpcLink {
            url: Octets::from(Vec::new(alloc)),
        }),
    })
}

/// The content-type attribute: indirect data (RFC 2985 5.3.1).
fn content_type(alloc: Global) -> Result<Attribute, AllocError>
    ensures { IfOk result (λ a. (attribute a ≡ attribute_by CONTENT_TYPE.now
        (object_identifier_of SPC_INDIRECT_DATA.now))
        × (inner_values a.value ≡ [])) }
{
    let ty = ObjectIdentifier::from_known(alloc, CONTENT_TYPE)?;
    let mut types = ListOf::new(alloc);
    types.push(ObjectIdentifier::from_known(alloc, SPC_INDIRECT_DATA)?)?;
    let value = AttributeValues::ContentType(types);
    Ok(Attribute { ty, value })
}

/// The message-digest attribute, with the digest of the content (RFC 2985 5.3.2).
fn message_digest(alloc: Global, digest: &[u8]) -> Result<Attribute, AllocError>
    ensures { IfOk result
        (λ a. (attribute a ≡ attribute_by MESSAGE_DIGEST.now (octet_string digest.now))
        × (inner_values a.value ≡ [])) }
{
    let ty = ObjectIdentifier::from_known(alloc, MESSAGE_DIGEST)?;
    let mut digests = ListOf::new(alloc);
    digests.push(Octets::from_slice(alloc, digest)?)?;
    let value = AttributeValues::MessageDigest(digests);
    Ok(Attribute { ty, value })
}

/// The attribute with the SpcSpOpusInfo.
fn opus_attribute(alloc: Global, info: Raw) -> Result<Attribute, AllocError>
    ensures { IfOk result (λ a. (attribute a ≡ attribute_by SPC_SP_OPUS_INFO.now info.element)
        × (inner_values a.value ≡ [])) }
{
    let ty = ObjectIdentifier::from_known(alloc, SPC_SP_OPUS_INFO)?;
    let mut infos = ListOf::new(alloc);
    infos.push(info)?;
    let value = AttributeValues::Raw(infos);
    Ok(Attribute { ty, value })
}

/// The raw SpcSpOpusInfo.
fn keep_opus(alloc: Global, opus: &SpcSpOpusInfo) -> Result<Raw, DerError>
    ensures { MatchResult result
        (λ kept. (kept.element ≡ opus_info opus.now) × IsDer (opus_info opus.now))
        (RefusesInner (opus_info opus.now ∷ [])) }
{
    let tree = opus.write(alloc)?;
    Raw::from_tree(alloc, &tree)
}

/// The three attributes, in order.
fn listed(alloc: Global, info: Raw, digest: &[u8]) -> Result<AttributeList, AllocError>
    ensures { IfOk result (λ list. (map attribute list ≡ program_attributes info.element digest.now)
        × (inner_attributes list ≡ [])) }
{
    let mut list = ListOf::new(alloc);
    list.push(content_type(alloc)?)?;
    list.push(opus_attribute(alloc, info)?)?;
    list.push(message_digest(alloc, digest)?)?;
    Ok(list)
}

/// The signed attributes of a program's signature.
pub fn attributes_of(
    alloc: Global,
    opus: &SpcSpOpusInfo,
    digest: &[u8],
) -> Result<SignedAttributes, DerError>
    ensures { let attributes = program_attributes (opus_info opus.now) digest.now in
        MatchResult result
        (λ kept. (signed_attributes kept ≡ attributes_element attributes)
        × AreDer (opus_info opus.now ∷ attributes_element attributes ∷ []))
        (RefusesInner (opus_info opus.now ∷ attributes_element attributes ∷ [])) }
{
    let info = keep_opus(alloc, opus)?;
    let list = listed(alloc, info, digest)?;
    keep_attributes(alloc, &list)
}

/// Signed attributes in the form of a signer (RFC 5652 5.3).
pub fn keep_attributes(alloc: Global, list: &AttributeList) -> Result<SignedAttributes, DerError>
    ensures { let element = attributes_element (map attribute list.now) in
        MatchResult result
        (λ kept. (signed_attributes kept ≡ element)
        × AreDer (inner_attributes list.now ++ element ∷ []))
        (RefusesInner (inner_attributes list.now ++ element ∷ [])) }
{
    let tree = write_list(alloc, list, SIGNED_ATTRIBUTES)?;
    let kept = Raw::from_tree(alloc, &tree)?;
    SignedAttributes::read_at(alloc, kept.elem())
}

/// The octets of signed attributes that are signed: those of their SET, in the given order (RFC
/// 2315 9.3). Only the tag is changed.
pub fn message_of(alloc: Global, attributes: &SignedAttributes) -> Result<Vec<u8>, AllocError>
    ensures { (members : List DerElement)
        → signed_attributes attributes.now ≡ attributes_element members
        → IfOk result (λ octets. octets.items ≡ attributes_message members) }
{
    let mut octets = Vec::from_slice(alloc, attributes.element().as_bytes())?;
    octets[0] = SET;
    Ok(octets)
}
