//! Parsing words.

use anyhow::Result;
use authenticode_signature::Pkcs7;
use cms_types::{EncapsulatedContentInfo, UnsignedAttribute, UnsignedAttributeList};
use der_core::{ListOf, Structure};
use key_core::PrivateKey;
use sig_core::{DemoScheme, HashAlgorithm, ShaVariant};
use std::alloc::Global;
use x509_core::Cert;
use x509_types::{Attribute, AttributeList};
use xgolden::{digest_of, octets_of};

/// A private key. A public key that isn't in it is derived by the demonstration scheme.
pub fn key_of(alloc: Global, word: &str) -> Result<PrivateKey> {
    let octets = octets_of(alloc, word)?;
    Ok(PrivateKey::from_pkcs8(alloc, &octets, &DemoScheme::new())?)
}

pub fn signed_data_of(alloc: Global, word: &str) -> Result<Pkcs7> {
    let octets = octets_of(alloc, word)?;
    Ok(Pkcs7::from_der(alloc, &octets)?)
}

/// The certificates of signed data.
pub fn certificates_of(alloc: Global, word: &str) -> Result<Vec<Cert>> {
    let signed = signed_data_of(alloc, word)?;
    Ok(signed.decode_certificates(alloc)?)
}

pub fn content_of(alloc: Global, word: &str) -> Result<EncapsulatedContentInfo> {
    let octets = octets_of(alloc, word)?;
    Ok(EncapsulatedContentInfo::from_der(alloc, &octets)?)
}

/// Attributes, separated by commas, `-` for none of them.
pub fn attributes_of(alloc: Global, words: &str) -> Result<AttributeList> {
    let mut attributes = ListOf::new(alloc);
    if words == "-" {
        return Ok(attributes);
    }
    for word in words.split(',') {
        attributes.push(attribute_of(alloc, word)?)?;
    }
    Ok(attributes)
}

fn attribute_of(alloc: Global, word: &str) -> Result<Attribute> {
    let octets = octets_of(alloc, word)?;
    Ok(Attribute::from_der(alloc, &octets)?)
}

/// Unsigned attributes, separated by commas, `-` for none of them.
pub fn unsigned_of(alloc: Global, words: &str) -> Result<UnsignedAttributeList> {
    let mut attributes = ListOf::new(alloc);
    if words == "-" {
        return Ok(attributes);
    }
    for word in words.split(',') {
        attributes.push(unsigned_attribute_of(alloc, word)?)?;
    }
    Ok(attributes)
}

fn unsigned_attribute_of(alloc: Global, word: &str) -> Result<UnsignedAttribute> {
    let octets = octets_of(alloc, word)?;
    Ok(UnsignedAttribute::from_der(alloc, &octets)?)
}

/// A digest algorithm by its name.
pub fn variant_of(name: &str) -> Result<ShaVariant> {
    Ok(match digest_of(name)? {
        HashAlgorithm::MD5 => ShaVariant::MD5,
        HashAlgorithm::SHA1 => ShaVariant::SHA1,
        HashAlgorithm::SHA2_224 => ShaVariant::SHA2_224,
        HashAlgorithm::SHA2_256 => ShaVariant::SHA2_256,
        HashAlgorithm::SHA2_384 => ShaVariant::SHA2_384,
        HashAlgorithm::SHA2_512 => ShaVariant::SHA2_512,
    })
}
