//! The results for octets as an owned value, as a borrowed view, and as a stored certificate.

use crate::certificate::{details, stored, view};
use crate::shown::{print_digest, print_refusal};
use der_core::{Structure, exact_elem};
use std::alloc::{AllocError, Global};
use x509_core::Cert;
use x509_types::{CertView, Certificate};
use xgolden::{Line, comes_back};

/// Prints the results for the value, the view and the stored certificate, separated by bars.
pub fn print(alloc: Global, octets: &[u8], line: &mut Line) {
    print_owned(alloc, octets, line);
    line.word("|");
    print_lent(alloc, octets, line);
    line.word("|");
    print_kept(alloc, octets, line);
}

/// A prefix, octets repeated this often, and a suffix.
pub fn repeated(
    alloc: Global,
    begin: &[u8],
    part: &[u8],
    times: u32,
    end: &[u8],
) -> Result<Vec<u8>, AllocError> {
    let mut octets = Vec::from_slice(alloc, begin)?;
    for _ in 0..times {
        octets.extend_from_slice(part)?;
    }
    octets.extend_from_slice(end)?;
    Ok(octets)
}

/// Prints whether the certificate round-trips, and the digest of its fields; or the refusal.
fn print_owned(alloc: Global, octets: &[u8], line: &mut Line) {
    match Certificate::from_der(alloc, octets) {
        Ok(certificate) => {
            line.same(comes_back(alloc, octets, &certificate));
            print_fields(alloc, &certificate, line);
            drop(certificate);
        }
        Err(error) => print_refusal(error, line),
    }
}

fn print_fields(alloc: Global, certificate: &Certificate, line: &mut Line) {
    let mut fields = Line::new(alloc);
    details::print(alloc, certificate, &mut fields);
    print_digest(fields.into_text(), line);
}

/// Prints the digest of the borrowed fields of the certificate and its extensions; or the refusal.
fn print_lent(alloc: Global, octets: &[u8], line: &mut Line) {
    match exact_elem(octets) {
        Ok(elem) => match CertView::read(elem) {
            Some(view) => print_view(alloc, &view, line),
            None => line.word("Shape"),
        },
        Err(malformed) => line.shown(&malformed),
    }
}

fn print_view(alloc: Global, view: &CertView<'_>, line: &mut Line) {
    let mut fields = Line::new(alloc);
    view::print(view, &mut fields);
    print_digest(fields.into_text(), line);
}

/// Prints the digests of the accessors' results and of the fields of the stored octets; or the
/// refusal.
fn print_kept(alloc: Global, octets: &[u8], line: &mut Line) {
    match Cert::from_der(alloc, octets) {
        Ok(cert) => {
            print_asked(alloc, &cert, octets, line);
            print_view(alloc, &cert.view(), line);
        }
        Err(error) => line.shown(&error),
    }
}

fn print_asked(alloc: Global, cert: &Cert, octets: &[u8], line: &mut Line) {
    let mut fields = Line::new(alloc);
    stored::print_certificate(alloc, cert, octets, &mut fields);
    print_digest(fields.into_text(), line);
}
