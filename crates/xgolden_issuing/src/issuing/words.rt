//! Parsing words.

use anyhow::{Context, Result, bail};
use der_core::{Octets, Structure};
use key_core::{KeyIdGenMethod, PrivateKey, SignatureAlgorithm};
use names_core::{DirectoryName, GeneralNames};
use sig_core::DemoScheme;
use std::alloc::Global;
use x509_core::Cert;
use x509_types::{Attribute, AttributeList, Name, RawGeneralNames};
use xgolden::{digest_of, octets_of};

/// A private key. A public key that isn't in it is derived by the demonstration scheme.
pub fn key_of(alloc: Global, word: &str) -> Result<PrivateKey> {
    let octets = octets_of(alloc, word)?;
    Ok(PrivateKey::from_pkcs8(alloc, &octets, &DemoScheme::new())?)
}

pub fn certificate_of(alloc: Global, word: &str) -> Result<Cert> {
    let octets = octets_of(alloc, word)?;
    Ok(Cert::from_der(alloc, &octets)?)
}

pub fn name_of(alloc: Global, word: &str) -> Result<DirectoryName> {
    let octets = octets_of(alloc, word)?;
    Ok(DirectoryName::from(Name::from_der(alloc, &octets)?))
}

pub fn names_of(alloc: Global, word: &str) -> Result<GeneralNames> {
    let octets = octets_of(alloc, word)?;
    Ok(GeneralNames::from(RawGeneralNames::from_der(alloc, &octets)?))
}

pub fn kept_of(alloc: Global, word: &str) -> Result<Octets> {
    let octets = octets_of(alloc, word)?;
    Ok(Octets::from_slice(alloc, &octets)?)
}

/// Attributes, separated by commas.
pub fn attributes_of(alloc: Global, words: &str) -> Result<AttributeList> {
    let mut attributes = AttributeList::new(alloc);
    for word in words.split(',') {
        attributes.push(attribute_of(alloc, word)?)?;
    }
    Ok(attributes)
}

fn attribute_of(alloc: Global, word: &str) -> Result<Attribute> {
    let octets = octets_of(alloc, word)?;
    Ok(Attribute::from_der(alloc, &octets)?)
}

/// Two words, separated by a comma.
pub fn two_of(word: &str) -> Result<(&str, &str)> {
    word.split_once(',')
        .context("two words are given, a comma between")
}

/// An algorithm as `rsa` or `ecdsa`, a colon and its digest, or as `ed25519`.
pub fn algorithm_of(word: &str) -> Result<SignatureAlgorithm> {
    match word.split_once(':') {
        Some(("rsa", hash)) => Ok(SignatureAlgorithm::RsaPkcs1v15(digest_of(hash)?)),
        Some(("ecdsa", hash)) => Ok(SignatureAlgorithm::Ecdsa(digest_of(hash)?)),
        None if word == "ed25519" => Ok(SignatureAlgorithm::Ed25519),
        _ => bail!("no algorithm of signatures is called so"),
    }
}

/// How key identifiers are generated, as `whole` or `leftmost`, a colon and the digest.
pub fn method_of(word: &str) -> Result<KeyIdGenMethod> {
    match word.split_once(':') {
        Some(("whole", hash)) => Ok(KeyIdGenMethod::SPKFullDER(digest_of(hash)?)),
        Some(("leftmost", hash)) => Ok(KeyIdGenMethod::SPKValueHashedLeftmost160(digest_of(hash)?)),
        _ => bail!("no identifier of a key is made so"),
    }
}
