//! Building certificates.

use crate::issuing::printing::{print_name, print_refused};
use crate::issuing::settings::{Setting, settings_of};
use crate::issuing::words::key_of;
use anyhow::{Result, bail};
use der_core::DerError;
use key_core::PrivateKey;
use sig_core::Scheme;
use std::alloc::{AllocError, Global};
use x509_core::Cert;
use x509_issuing::CertificateBuilder;
use xgolden::{Line, gives};

/// Prints the octets of the certificate, whether they round-trip, its subject and its issuer; or
/// the name and the text of the refusal.
pub fn print<S: Scheme>(alloc: Global, words: &str, scheme: &S, line: &mut Line) -> Result<()> {
    let words: Vec<&str> = words.split(' ').collect(alloc)?;
    let [word, key, settings @ ..] = words.as_slice() else {
        bail!("a random word and a key are given");
    };
    print_asked(alloc, (word, key), settings, scheme, line)
}

fn print_asked<S: Scheme>(
    alloc: Global,
    (word, key): (&str, &str),
    settings: &[&str],
    scheme: &S,
    line: &mut Line,
) -> Result<()> {
    let word = word.parse()?;
    let settings = settings_of(alloc, settings)?;
    let key = key_of(alloc, key)?;
    print_by(alloc, word, settings, &key, scheme, line);
    Ok(())
}

fn print_by<S: Scheme>(
    alloc: Global,
    word: u32,
    settings: Vec<Setting>,
    key: &PrivateKey,
    scheme: &S,
    line: &mut Line,
) {
    match builder_of(alloc, settings, key) {
        Ok(builder) => print_built(alloc, builder, word, scheme, line),
        Err(error) => line.shown(&error),
    }
}

/// A builder with these settings, applied from the last of the list to the first; the key is the
/// issuer's.
fn builder_of<'a>(
    alloc: Global,
    mut settings: Vec<Setting>,
    key: &'a PrivateKey,
) -> Result<CertificateBuilder<'a>, AllocError> {
    let mut builder = empty(alloc, key);
    for _ in 0..settings.len() {
        builder = with(builder, settings.pop(), key)?;
    }
    Ok(builder)
}

/// An empty builder that may borrow the key.
fn empty<'a>(alloc: Global, _key: &'a PrivateKey) -> CertificateBuilder<'a> {
    CertificateBuilder::new(alloc)
}

/// The builder with the settings, if any.
fn with<'a>(
    builder: CertificateBuilder<'a>,
    setting: Option<Setting>,
    key: &'a PrivateKey,
) -> Result<CertificateBuilder<'a>, AllocError> {
    match setting {
        Some(setting) => setting.set(builder, key),
        None => Ok(builder),
    }
}

fn print_built<S: Scheme>(
    alloc: Global,
    builder: CertificateBuilder<'_>,
    word: u32,
    scheme: &S,
    line: &mut Line,
) {
    match builder.build(alloc, word, scheme) {
        Ok(certificate) => print_certificate(alloc, &certificate, line),
        Err(error) => print_refused(alloc, &error, line),
    }
}

fn print_certificate(alloc: Global, certificate: &Cert, line: &mut Line) {
    line.octets(certificate.as_bytes());
    line.same(comes_back(alloc, certificate));
    print_name(certificate.subject_name(alloc), line);
    print_name(certificate.issuer_name(alloc), line);
}

/// Whether the certificate is read from its octets, and is the one made from its value.
fn comes_back(alloc: Global, certificate: &Cert) -> Result<bool, DerError> {
    Ok(is_read(alloc, certificate) && is_made_anew(alloc, certificate)?)
}

fn is_read(alloc: Global, certificate: &Cert) -> bool {
    gives(Cert::from_der(alloc, certificate.as_bytes()), certificate)
}

fn is_made_anew(alloc: Global, certificate: &Cert) -> Result<bool, AllocError> {
    let value = certificate.try_clone(alloc)?.into_certificate();
    Ok(gives(Cert::from_certificate(alloc, value), certificate))
}
