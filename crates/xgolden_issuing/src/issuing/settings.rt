//! Builder settings, one word for each setter.

use crate::issuing::words::{
    algorithm_of, certificate_of, kept_of, method_of, name_of, names_of, two_of,
};
use anyhow::{Context, Result, bail};
use der_core::{Octets, Structure};
use key_core::{KeyIdGenMethod, PrivateKey, PublicKey, SignatureAlgorithm};
use names_core::{DirectoryName, GeneralNames, UtcDate};
use std::alloc::{AllocError, Global};
use x509_core::Cert;
use x509_issuing::{CertificateBuilder, Csr};
use x509_types::{ExtendedKeyUsage, KeyUsage};
use xgolden::{date_of, flag_of, octets_of};

/// The setting of a call. The issuer's key is passed when it is applied.
#[derive(Drop)]
pub enum Setting {
    Issuer(IssuerSetting),
    Subject(SubjectSetting),
    Field(FieldSetting),
    Plain(PlainSetting),
}

/// The issuer of the certificate.
#[derive(Drop)]
pub enum IssuerSetting {
    SelfSigned(DirectoryName),
    Named(DirectoryName),
    Cert(Cert),
}

/// The subject of the certificate.
#[derive(Drop)]
pub enum SubjectSetting {
    Named(DirectoryName, PublicKey),
    Request(Csr),
}

/// The other fields of the certificate.
#[derive(Drop)]
pub enum FieldSetting {
    AuthorityKeyIdentifier(Octets),
    SerialNumber(Octets),
    KeyUsage(KeyUsage),
    ExtendedKeyUsage(ExtendedKeyUsage),
    SubjectAltName(GeneralNames),
    IssuerAltName(GeneralNames),
}

/// Settings that don't allocate.
#[derive(Clone, Copy)]
pub enum PlainSetting {
    Validity(UtcDate, UtcDate),
    Authority(bool),
    PathLength(u8),
    Algorithm(SignatureAlgorithm),
    Method(KeyIdGenMethod),
    Inherits(bool),
}

/// The settings in words `SETTER=VALUE`, the last of them first.
pub fn settings_of(alloc: Global, words: &[&str]) -> Result<Vec<Setting>> {
    let mut settings = Vec::new(alloc);
    for word in words.iter().rev() {
        let (setter, value) = word.split_once('=').context("a value is set")?;
        settings.push(setting_of(alloc, setter, value)?)?;
    }
    Ok(settings)
}

fn setting_of(alloc: Global, setter: &str, value: &str) -> Result<Setting> {
    match setter {
        "self_signed" | "issuer" => issuer_of(alloc, setter, value),
        "issuer_cert" => issuer_cert_of(alloc, value),
        "subject" => subject_of(alloc, value),
        "subject_from_csr" => request_of(alloc, value),
        "authority_key_identifier" | "serial_number" => octets_setting_of(alloc, setter, value),
        "key_usage" => key_usage_of(alloc, value),
        "extended_key_usage" => purposes_of(alloc, value),
        "subject_alt_name" | "issuer_alt_name" => alt_name_of(alloc, setter, value),
        "subject_alt_directory" => directory_of(alloc, value),
        _ => Ok(Setting::Plain(plain_of(setter, value)?)),
    }
}

fn issuer_of(alloc: Global, setter: &str, value: &str) -> Result<Setting> {
    let name = name_of(alloc, value)?;
    Ok(Setting::Issuer(match setter {
        "self_signed" => IssuerSetting::SelfSigned(name),
        _ => IssuerSetting::Named(name),
    }))
}

fn issuer_cert_of(alloc: Global, value: &str) -> Result<Setting> {
    Ok(Setting::Issuer(IssuerSetting::Cert(certificate_of(alloc, value)?)))
}

fn octets_setting_of(alloc: Global, setter: &str, value: &str) -> Result<Setting> {
    let octets = kept_of(alloc, value)?;
    Ok(Setting::Field(match setter {
        "serial_number" => FieldSetting::SerialNumber(octets),
        _ => FieldSetting::AuthorityKeyIdentifier(octets),
    }))
}

/// Alternative names of the subject or the issuer.
fn alt_name_of(alloc: Global, setter: &str, value: &str) -> Result<Setting> {
    let names = names_of(alloc, value)?;
    Ok(Setting::Field(match setter {
        "subject_alt_name" => FieldSetting::SubjectAltName(names),
        _ => FieldSetting::IssuerAltName(names),
    }))
}

fn plain_of(setter: &str, value: &str) -> Result<PlainSetting> {
    match setter {
        "validity" => validity_of(value),
        "ca" => Ok(PlainSetting::Authority(flag_of(value)?)),
        "pathlen" => Ok(PlainSetting::PathLength(value.parse()?)),
        "signature_hash_type" => Ok(PlainSetting::Algorithm(algorithm_of(value)?)),
        "key_id_gen_method" => Ok(PlainSetting::Method(method_of(value)?)),
        "inherit" => Ok(PlainSetting::Inherits(flag_of(value)?)),
        _ => bail!("no setter is called so"),
    }
}

fn validity_of(value: &str) -> Result<PlainSetting> {
    let (from, to) = two_of(value)?;
    Ok(PlainSetting::Validity(date_of(from)?, date_of(to)?))
}

/// The name and the public key, separated by a comma.
fn subject_of(alloc: Global, value: &str) -> Result<Setting> {
    let (name, key) = two_of(value)?;
    let octets = octets_of(alloc, key)?;
    let name = name_of(alloc, name)?;
    let key = PublicKey::from_der(alloc, &octets)?;
    Ok(Setting::Subject(SubjectSetting::Named(name, key)))
}

fn request_of(alloc: Global, value: &str) -> Result<Setting> {
    let octets = octets_of(alloc, value)?;
    Ok(Setting::Subject(SubjectSetting::Request(Csr::from_der(alloc, &octets)?)))
}

fn key_usage_of(alloc: Global, value: &str) -> Result<Setting> {
    let usage = KeyUsage::new(alloc, value.parse()?)?;
    Ok(Setting::Field(FieldSetting::KeyUsage(usage)))
}

fn purposes_of(alloc: Global, value: &str) -> Result<Setting> {
    let octets = octets_of(alloc, value)?;
    let purposes = ExtendedKeyUsage::from_der(alloc, &octets)?;
    Ok(Setting::Field(FieldSetting::ExtendedKeyUsage(purposes)))
}

/// One directory name.
fn directory_of(alloc: Global, value: &str) -> Result<Setting> {
    let name = name_of(alloc, value)?;
    let names = GeneralNames::new_directory_name(alloc, name)?;
    Ok(Setting::Field(FieldSetting::SubjectAltName(names)))
}

impl Setting {
    /// The builder with a setting. The key is the issuer's.
    pub fn set<'a>(
        self,
        builder: CertificateBuilder<'a>,
        key: &'a PrivateKey,
    ) -> Result<CertificateBuilder<'a>, AllocError> {
        match self {
            Setting::Issuer(issuer) => issuer.set(builder, key),
            Setting::Subject(subject) => Ok(subject.set(builder)),
            Setting::Field(field) => Ok(field.set(builder)),
            Setting::Plain(plain) => Ok(plain.set(builder)),
        }
    }
}

impl IssuerSetting {
    fn set<'a>(
        self,
        builder: CertificateBuilder<'a>,
        key: &'a PrivateKey,
    ) -> Result<CertificateBuilder<'a>, AllocError> {
        match self {
            IssuerSetting::SelfSigned(name) => Ok(builder.self_signed(name, key)),
            IssuerSetting::Named(name) => Ok(builder.issuer(name, key)),
            IssuerSetting::Cert(certificate) => issued_under(builder, &certificate, key),
        }
    }
}

impl SubjectSetting {
    fn set(self, builder: CertificateBuilder<'_>) -> CertificateBuilder<'_> {
        match self {
            SubjectSetting::Named(name, key) => builder.subject(name, key),
            SubjectSetting::Request(csr) => builder.subject_from_csr(csr),
        }
    }
}

impl FieldSetting {
    fn set(self, builder: CertificateBuilder<'_>) -> CertificateBuilder<'_> {
        match self {
            FieldSetting::AuthorityKeyIdentifier(key) => builder.authority_key_identifier(key),
            FieldSetting::SerialNumber(octets) => builder.serial_number(octets),
            FieldSetting::KeyUsage(usage) => builder.key_usage(usage),
            FieldSetting::ExtendedKeyUsage(usage) => builder.extended_key_usage(usage),
            FieldSetting::SubjectAltName(names) => builder.subject_alt_name(names),
            FieldSetting::IssuerAltName(names) => builder.issuer_alt_name(names),
        }
    }
}

impl PlainSetting {
    fn set(self, builder: CertificateBuilder<'_>) -> CertificateBuilder<'_> {
        match self {
            PlainSetting::Validity(from, to) => builder.validity(from, to),
            PlainSetting::Authority(is_ca) => builder.ca(is_ca),
            PlainSetting::PathLength(pathlen) => builder.pathlen(pathlen),
            PlainSetting::Algorithm(algorithm) => builder.signature_hash_type(algorithm),
            PlainSetting::Method(method) => builder.key_id_gen_method(method),
            PlainSetting::Inherits(inherits) => {
                builder.inherit_extensions_from_csr_attributes(inherits)
            }
        }
    }
}

/// The builder with the certificate of an issuer.
pub fn issued_under<'a>(
    mut builder: CertificateBuilder<'a>,
    certificate: &Cert,
    key: &'a PrivateKey,
) -> Result<CertificateBuilder<'a>, AllocError> {
    builder.issuer_cert(certificate, key)?;
    Ok(builder)
}
