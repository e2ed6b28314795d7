//! Printing a stored certificate, and whether one certificate is the parent of another.

use crate::certificate::view::{print_flag, print_length};
use der_core::{DerError, Raw, Structure, is_same};
use names_core::DirectoryName;
use std::alloc::{AllocError, Global};
use x509_core::{Cert, CertError, CertType};
use x509_types::{AlgorithmIdentifier, AuthorityKeyIdentifier, BasicConstraints, Certificate};
use xgolden::{Line, equals, gives_octets};

/// Prints whether the octets round-trip, as stored and written anew, and the accessors' results; or
/// why there is no certificate.
pub fn print(alloc: Global, octets: &[u8], line: &mut Line) {
    match Cert::from_der(alloc, octets) {
        Ok(cert) => print_certificate(alloc, &cert, octets, line),
        Err(error) => line.shown(&error),
    }
}

/// Prints whether one certificate is the parent of another, else why not.
pub fn print_parent(alloc: Global, parent: &[u8], child: &[u8], line: &mut Line) {
    match Cert::from_der(alloc, parent) {
        Ok(parent) => print_parent_of(alloc, &parent, child, line),
        Err(error) => line.shown(&error),
    }
}

fn print_parent_of(alloc: Global, parent: &Cert, child: &[u8], line: &mut Line) {
    match Cert::from_der(alloc, child) {
        Ok(child) => print_link(alloc, parent, &child, line),
        Err(error) => line.shown(&error),
    }
}

fn print_link(alloc: Global, parent: &Cert, child: &Cert, line: &mut Line) {
    match parent.is_parent_of(alloc, child) {
        Ok(()) => line.word("parent"),
        Err(error) => line.shown(&error),
    }
}

/// Prints the encoding of a certificate with another signature algorithm, or why there is none.
pub fn print_written(alloc: Global, octets: &[u8], algorithm: &[u8], line: &mut Line) {
    match signed_by(alloc, octets, algorithm) {
        Ok(certificate) => print_made(alloc, Cert::from_certificate(alloc, certificate), line),
        Err(error) => line.shown(&error),
    }
}

fn signed_by(alloc: Global, octets: &[u8], algorithm: &[u8]) -> Result<Certificate, DerError> {
    let algorithm = AlgorithmIdentifier::from_der(alloc, algorithm)?;
    let certificate = Certificate::from_der(alloc, octets)?;
    Ok(with_algorithm(certificate, algorithm))
}

fn with_algorithm(
    certificate: Certificate,
    signature_algorithm: AlgorithmIdentifier,
) -> Certificate {
    Certificate {
        tbs_certificate: certificate.tbs_certificate,
        signature_algorithm,
        signature_value: certificate.signature_value,
    }
}

fn print_made(alloc: Global, made: Result<Cert, CertError>, line: &mut Line) {
    match made {
        Ok(cert) => line.made(cert.to_der(alloc)),
        Err(error) => line.shown(&error),
    }
}

/// Prints a certificate that was read from these octets.
pub fn print_certificate(alloc: Global, cert: &Cert, octets: &[u8], line: &mut Line) {
    line.same(is_copied(alloc, cert, octets));
    print_anew(alloc, cert, octets, line);
    print_fields(alloc, cert, line);
    line.made(cert.public_key().to_der(alloc));
    print_said(cert, line);
    line.shown(&cert.extensions().len());
}

/// Whether a certificate and its copy are equal, and have these octets and one key.
fn is_copied(alloc: Global, cert: &Cert, octets: &[u8]) -> Result<bool, DerError> {
    let copy = cert.try_clone(alloc)?;
    let is_equal = copy == *cert && has_octets(alloc, &copy, octets);
    Ok(equals(copy.into_public_key(), cert.public_key()) && is_equal)
}

/// Prints whether the value is written as these octets, else why it isn't.
fn print_anew(alloc: Global, cert: &Cert, octets: &[u8], line: &mut Line) {
    match made_anew(alloc, cert) {
        Ok(again) => line.same(Ok(has_octets(alloc, &again, octets))),
        Err(error) => line.shown(&error),
    }
}

/// The certificate made from the value of a certificate.
fn made_anew(alloc: Global, cert: &Cert) -> Result<Cert, CertError> {
    let copy = cert.try_clone(alloc)?;
    Cert::from_certificate(alloc, copy.into_certificate())
}

/// Whether a certificate has these octets.
fn has_octets(alloc: Global, cert: &Cert, octets: &[u8]) -> bool {
    gives_octets(cert.to_der(alloc), octets) && is_same(cert.as_bytes(), octets)
}

/// The type, the dates, the names, the serial number and the algorithm.
fn print_fields(alloc: Global, cert: &Cert, line: &mut Line) {
    line.word(kind(cert.ty()));
    line.shown(&cert.valid_not_before());
    line.shown(&cert.valid_not_after());
    print_name(cert.subject_name(alloc), line);
    print_name(cert.issuer_name(alloc), line);
    line.octets(cert.serial_number().as_signed_bytes_be());
    line.shown(cert.signature_algorithm().oid());
}

fn kind(kind: CertType) -> &'static str {
    match kind {
        CertType::Root => "Root",
        CertType::Intermediate => "Intermediate",
        CertType::Leaf => "Leaf",
        CertType::Unknown => "Unknown",
    }
}

fn print_name(name: Result<DirectoryName, AllocError>, line: &mut Line) {
    match name {
        Ok(name) => line.shown(&name),
        Err(error) => line.shown(&error),
    }
}

/// The first key identifiers and basic constraints, or that there are none.
fn print_said(cert: &Cert, line: &mut Line) {
    match cert.subject_key_identifier() {
        Ok(key) => line.octets(key),
        Err(error) => line.shown(&error),
    }
    print_authority_key(cert, line);
    print_constraints(cert, line);
}

fn print_authority_key(cert: &Cert, line: &mut Line) {
    match cert.authority_key_identifier() {
        Ok(key) => print_key_parts(key, line),
        Err(error) => line.shown(&error),
    }
}

fn print_key_parts(key: &AuthorityKeyIdentifier, line: &mut Line) {
    line.given(key.key_identifier());
    line.given(key.issuer().map(Raw::as_bytes));
    line.given(key.serial_number());
}

fn print_constraints(cert: &Cert, line: &mut Line) {
    match cert.basic_constraints() {
        Ok(constraints) => print_constraints_of(constraints, line),
        Err(error) => line.shown(&error),
    }
}

fn print_constraints_of(constraints: &BasicConstraints, line: &mut Line) {
    print_flag(constraints.ca(), line);
    print_length(constraints.pathlen(), line);
}
