//! Requests that are read, verified and generated.

use crate::issuing::printing::{print_error, print_name};
use crate::issuing::words::{algorithm_of, attributes_of, key_of, name_of};
use anyhow::{Result, bail};
use der_core::{DerError, Structure};
use key_core::PrivateKey;
use names_core::DirectoryName;
use sig_core::Scheme;
use std::alloc::{AllocError, Global};
use x509_core::CsrError;
use x509_issuing::{CertificationRequest, Csr};
use xgolden::{Line, equals, gives, gives_octets, octets_of};

/// Prints whether the octets round-trip, the key, the subject and the verdict on the signature; or
/// the text of the refusal.
pub fn print<S: Scheme>(alloc: Global, octets: &str, scheme: &S, line: &mut Line) -> Result<()> {
    let octets = octets_of(alloc, octets)?;
    print_request(alloc, &octets, scheme, line);
    Ok(())
}

fn print_request<S: Scheme>(alloc: Global, octets: &[u8], scheme: &S, line: &mut Line) {
    match Csr::from_der(alloc, octets) {
        Ok(csr) => print_read(alloc, &csr, octets, scheme, line),
        Err(error) => print_error(error, line),
    }
}

fn print_read<S: Scheme>(alloc: Global, csr: &Csr, octets: &[u8], scheme: &S, line: &mut Line) {
    line.same(comes_back(alloc, csr, octets));
    line.made(csr.public_key().to_der(alloc));
    print_name(csr.subject_name(alloc), line);
    print_verdict(alloc, csr, scheme, line);
}

/// Whether a request has these octets, is the one made from the structure, and has the same subject
/// as its copy.
fn comes_back(alloc: Global, csr: &Csr, octets: &[u8]) -> Result<bool, DerError> {
    let has_octets = gives_octets(csr.to_der(alloc), octets);
    let is_made_anew = is_made_anew(alloc, csr, octets);
    Ok(has_octets && is_made_anew && has_subject(alloc, csr)?)
}

fn is_made_anew(alloc: Global, csr: &Csr, octets: &[u8]) -> bool {
    match CertificationRequest::from_der(alloc, octets) {
        Ok(request) => gives(Csr::from_certification_request(alloc, request), csr),
        Err(_) => false,
    }
}

fn has_subject(alloc: Global, csr: &Csr) -> Result<bool, AllocError> {
    let subject = csr.subject_name(alloc)?;
    let (name, key) = csr.try_clone(alloc)?.into_subject_infos();
    Ok(equals(key, csr.public_key()) && name == subject)
}

/// Prints the verdict on the signature.
fn print_verdict<S: Scheme>(alloc: Global, csr: &Csr, scheme: &S, line: &mut Line) {
    match csr.verify(alloc, scheme) {
        Ok(()) => line.word("accepted"),
        Err(error) => print_error(error, line),
    }
}

/// Prints the octets of the request generated with the key, whether they round-trip, and the
/// verdict on its signature; or the text of the refusal. Without attributes it uses the call
/// without them.
pub fn generate<S: Scheme>(alloc: Global, words: &str, scheme: &S, line: &mut Line) -> Result<()> {
    let words: Vec<&str> = words.split(' ').collect(alloc)?;
    let [algorithm, key, subject, attributes @ ..] = words.as_slice() else {
        bail!("an algorithm, a key and a name are given");
    };
    let subject = name_of(alloc, subject)?;
    let key = key_of(alloc, key)?;
    match attributes.first() {
        None => print_plain(alloc, algorithm, &key, subject, scheme, line),
        Some(words) => print_with(alloc, (algorithm, words), &key, subject, scheme, line),
    }
}

fn print_plain<S: Scheme>(
    alloc: Global,
    algorithm: &str,
    key: &PrivateKey,
    subject: DirectoryName,
    scheme: &S,
    line: &mut Line,
) -> Result<()> {
    let algorithm = algorithm_of(algorithm)?;
    let made = Csr::generate(alloc, subject, key, algorithm, scheme);
    print_made(alloc, made, scheme, line);
    Ok(())
}

fn print_with<S: Scheme>(
    alloc: Global,
    (algorithm, words): (&str, &str),
    key: &PrivateKey,
    subject: DirectoryName,
    scheme: &S,
    line: &mut Line,
) -> Result<()> {
    let algorithm = algorithm_of(algorithm)?;
    let attributes = attributes_of(alloc, words)?;
    let made = Csr::generate_with_attributes(alloc, subject, key, algorithm, attributes, scheme);
    print_made(alloc, made, scheme, line);
    Ok(())
}

fn print_made<S: Scheme>(alloc: Global, made: Result<Csr, CsrError>, scheme: &S, line: &mut Line) {
    match made {
        Ok(csr) => print_generated(alloc, &csr, scheme, line),
        Err(error) => print_error(error, line),
    }
}

fn print_generated<S: Scheme>(alloc: Global, csr: &Csr, scheme: &S, line: &mut Line) {
    line.made(csr.to_der(alloc));
    line.same(Ok(is_read(alloc, csr)));
    print_verdict(alloc, csr, scheme, line);
}

/// Whether the request is read from its octets.
fn is_read(alloc: Global, csr: &Csr) -> bool {
    match csr.to_der(alloc) {
        Ok(octets) => gives(Csr::from_der(alloc, &octets), csr),
        Err(_) => false,
    }
}
