//! Builder settings, one word for each setter.

use crate::words::{attributes_of, certificates_of, content_of, unsigned_of};
use anyhow::{Context, Result, bail};
use asn1_types::IntegerAsn1;
use authenticode_signature::AuthenticodeSignatureBuilder;
use cms_types::{EncapsulatedContentInfo, IssuerAndSerialNumber, UnsignedAttributeList};
use der_core::Structure;
use key_core::PrivateKey;
use names_core::DirectoryName;
use sig_core::HashAlgorithm;
use std::alloc::Global;
use x509_core::Cert;
use x509_types::AttributeList;
use xgolden::{digest_of, octets_of};

/// The setting of a call. The private key is passed when it is applied.
#[derive(Drop)]
pub enum Setting {
    Certs(Vec<Cert>),
    DigestAlgorithm(HashAlgorithm),
    ContentInfo(EncapsulatedContentInfo),
    SigningKey,
    AuthenticatedAttributes(AttributeList),
    UnsignedAttributes(UnsignedAttributeList),
    IssuerAndSerialNumber(DirectoryName, IntegerAsn1),
}

/// The settings in words `SETTER=VALUE`, the last of them first.
pub fn settings_of(alloc: Global, words: &[&str]) -> Result<Vec<Setting>> {
    let mut settings = Vec::new(alloc);
    for word in words.iter().rev() {
        let (setter, value) = word.split_once('=').context("a value is set")?;
        settings.push(setting_of(alloc, setter, value)?)?;
    }
    Ok(settings)
}

fn setting_of(alloc: Global, setter: &str, value: &str) -> Result<Setting> {
    match setter {
        "certs" => Ok(Setting::Certs(certificates_of(alloc, value)?)),
        "digest_algorithm" => Ok(Setting::DigestAlgorithm(digest_of(value)?)),
        "content_info" => Ok(Setting::ContentInfo(content_of(alloc, value)?)),
        "signing_key" => Ok(Setting::SigningKey),
        _ => other_setting_of(alloc, setter, value),
    }
}

fn other_setting_of(alloc: Global, setter: &str, value: &str) -> Result<Setting> {
    match setter {
        "authenticated_attributes" => {
            Ok(Setting::AuthenticatedAttributes(attributes_of(alloc, value)?))
        }
        "unsigned_attributes" => Ok(Setting::UnsignedAttributes(unsigned_of(alloc, value)?)),
        "issuer_and_serial_number" => named_of(alloc, value),
        _ => bail!("no setter is called so"),
    }
}

/// An issuer and a serial number.
fn named_of(alloc: Global, value: &str) -> Result<Setting> {
    let octets = octets_of(alloc, value)?;
    let named = IssuerAndSerialNumber::from_der(alloc, &octets)?;
    let issuer = DirectoryName::from(named.issuer);
    Ok(Setting::IssuerAndSerialNumber(issuer, named.serial_number))
}

impl Setting {
    /// The builder with a setting. The key is the signer's.
    pub fn set<'a>(
        self,
        builder: AuthenticodeSignatureBuilder<'a>,
        key: &'a PrivateKey,
    ) -> AuthenticodeSignatureBuilder<'a> {
        match self {
            Setting::Certs(certs) => builder.certs(certs),
            Setting::DigestAlgorithm(algorithm) => builder.digest_algorithm(algorithm),
            Setting::ContentInfo(content) => builder.content_info(content),
            Setting::SigningKey => builder.signing_key(key),
            Setting::AuthenticatedAttributes(attributes) => {
                builder.authenticated_attributes(attributes)
            }
            Setting::UnsignedAttributes(attributes) => builder.unsigned_attributes(attributes),
            Setting::IssuerAndSerialNumber(issuer, serial_number) => {
                builder.issuer_and_serial_number(issuer, serial_number)
            }
        }
    }
}
