//! Issuing the certificates of the steps, each with the key of the demonstration for its index.

use crate::histories::steps::Step;
use anyhow::{Context, Result};
use demo_core::private_key_of;
use key_core::{PrivateKey, SignatureAlgorithm};
use names_core::DirectoryName;
use sig_core::{DemoScheme, HashAlgorithm};
use std::alloc::Global;
use x509_core::Cert;
use x509_issuing::{CertificateBuilder, Csr};

/// What was issued, and the number in its subject.
#[derive(Drop)]
struct IssuedStep {
    octets: Vec<u8>,
    name: u32,
}

/// The octets of the certificates.
pub fn issue(alloc: Global, steps: &[Step]) -> Result<Vec<Vec<u8>>> {
    let mut all: Vec<IssuedStep> = Vec::new(alloc);
    let mut index = 0u32;
    for step in steps {
        let next = match step.issuer {
            None => root(alloc, index, step)?,
            Some(issuer) => {
                let above = all.get(issuer).context("it is an earlier step")?;
                issued(alloc, index, step, above, u32::try_from(issuer)?)?
            }
        };
        all.push(next)?;
        index = index.checked_add(1).context("there are fewer steps")?;
    }
    let mut certificates = Vec::new(alloc);
    for one in all {
        certificates.push(one.octets)?;
    }
    Ok(certificates)
}

fn builder<'a>(alloc: Global, step: &Step) -> CertificateBuilder<'a> {
    let (first, last) = step.validity;
    let builder = CertificateBuilder::new(alloc)
        .validity(first, last)
        .ca(step.ca);
    match step.path_length {
        Some(length) => builder.pathlen(length),
        None => builder,
    }
}

fn root(alloc: Global, index: u32, step: &Step) -> Result<IssuedStep> {
    let key = private_key_of(alloc, index)?;
    let builder = builder(alloc, step).self_signed(name_of(alloc, index)?, &key);
    let octets = builder.build(alloc, 1, &DemoScheme::new())?.to_der(alloc)?;
    Ok(IssuedStep {
        octets,
        name: index,
    })
}

fn issued(
    alloc: Global,
    index: u32,
    step: &Step,
    above: &IssuedStep,
    number: u32,
) -> Result<IssuedStep> {
    let issuer = Cert::from_der(alloc, above.octets.as_slice())?;
    let issuer_key = private_key_of(alloc, number)?;
    let own = private_key_of(alloc, index)?;
    let name = if step.same_name { above.name } else { index };
    let mut builder = asked(alloc, step, name, &own)?;
    builder.issuer_cert(&issuer, &issuer_key)?;
    let octets = builder.build(alloc, 1, &DemoScheme::new())?.to_der(alloc)?;
    Ok(IssuedStep { octets, name })
}

/// A builder for the name and the key, by themselves or by a request.
fn asked<'a>(
    alloc: Global,
    step: &Step,
    name: u32,
    own: &PrivateKey,
) -> Result<CertificateBuilder<'a>> {
    let name = name_of(alloc, name)?;
    if !step.request {
        return Ok(builder(alloc, step).subject(name, own.to_public_key(alloc)?));
    }
    let algorithm = SignatureAlgorithm::RsaPkcs1v15(HashAlgorithm::SHA2_256);
    let csr = Csr::generate(alloc, name, own, algorithm, &DemoScheme::new())?;
    let csr = Csr::from_der(alloc, &csr.to_der(alloc)?)?;
    Ok(builder(alloc, step).subject_from_csr(csr))
}

fn name_of(alloc: Global, index: u32) -> Result<DirectoryName> {
    let name = format!(in alloc; "N{index}")?;
    Ok(DirectoryName::new_common_name(alloc, name.as_str())?)
}
