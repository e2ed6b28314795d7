//! Printing a certificate as an owned value.

use der_core::{Octets, Structure};
use std::alloc::Global;
use x509_types::{Certificate, TbsCertificate, Version};
use xgolden::{Line, print_time_form};

/// The fields in order, and the encoding.
pub fn print(alloc: Global, certificate: &Certificate, line: &mut Line) {
    print_head(alloc, &certificate.tbs_certificate, line);
    print_tail(alloc, &certificate.tbs_certificate, line);
    print_signature(certificate, line);
    line.made(certificate.to_der(alloc));
}

/// The version, the serial number, the algorithm, the issuer and the validity.
fn print_head(alloc: Global, tbs: &TbsCertificate, line: &mut Line) {
    line.word(version(tbs.version));
    line.octets(tbs.serial_number.as_signed_bytes_be());
    line.shown(tbs.signature.oid());
    line.made(tbs.issuer.to_der(alloc));
    print_time_form(&tbs.validity.not_before, line);
    print_time_form(&tbs.validity.not_after, line);
}

/// The subject, the key and the optional fields after it.
fn print_tail(alloc: Global, tbs: &TbsCertificate, line: &mut Line) {
    line.made(tbs.subject.to_der(alloc));
    line.made(tbs.subject_public_key_info.to_der(alloc));
    print_id(&tbs.issuer_unique_id, line);
    print_id(&tbs.subject_unique_id, line);
    match &tbs.extensions {
        Some(extensions) => line.made(extensions.to_der(alloc)),
        None => line.word("none"),
    }
}

/// The algorithm and the signature.
fn print_signature(certificate: &Certificate, line: &mut Line) {
    line.shown(certificate.signature_algorithm.oid());
    line.shown(&certificate.signature_value.unused());
    line.octets(certificate.signature_value.payload_view());
}

fn version(version: Option<Version>) -> &'static str {
    match version {
        Some(Version::V1) => "00",
        Some(Version::V2) => "01",
        Some(Version::V3) => "02",
        None => "none",
    }
}

fn print_id(id: &Option<Octets>, line: &mut Line) {
    match id {
        Some(octets) => line.octets(octets.as_slice()),
        None => line.word("none"),
    }
}
