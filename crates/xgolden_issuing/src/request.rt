//! Requests as structures.
//!
//! A vector is `structure request OCTETS` or `unlike request OCTETS OCTETS`.

use der_core::Structure;
use std::alloc::Global;
use x509_issuing::CertificationRequest;
use x509_types::AttributeList;
use xgolden::{Args, Line, are_equal, comes_back, print_attribute, print_bits, value_of};

/// Prints the output for a vector.
pub fn print(alloc: Global, args: Args<'_>, line: &mut Line) {
    match (args.words, args.octets) {
        (["structure", "request", _], [_, _, Some(element)]) => print_read(alloc, element, line),
        (["unlike", "request", _, _], [_, _, Some(one), Some(other)]) => {
            line.equal(are_equal::<CertificationRequest>(alloc, one, other))
        }
        _ => line.no_call(),
    }
}

/// Prints whether the request round-trips, and its fields; or that there is none.
fn print_read(alloc: Global, element: &[u8], line: &mut Line) {
    match value_of::<CertificationRequest>(alloc, element) {
        Ok(request) => {
            line.same(comes_back(alloc, element, &request));
            print_fields(alloc, &request, line);
            drop(request);
        }
        Err(error) => line.refused(error),
    }
}

/// The subject, the key, the attributes, the signature algorithm, the signature, and the encoding.
fn print_fields(alloc: Global, request: &CertificationRequest, line: &mut Line) {
    let asked = &request.certification_request_info;
    line.made(asked.subject.to_der(alloc));
    line.made(asked.subject_public_key_info.to_der(alloc));
    print_attributes(alloc, &asked.attributes, line);
    line.shown(request.signature_algorithm.oid());
    print_bits(&request.signature, line);
    line.made(request.to_der(alloc));
}

/// The number of attributes, and each; or that they are absent.
fn print_attributes(alloc: Global, given: &Option<AttributeList>, line: &mut Line) {
    match given {
        Some(attributes) => {
            line.shown(&attributes.len());
            for attribute in attributes.as_slice() {
                print_attribute(alloc, attribute, line);
            }
        }
        None => line.word("none"),
    }
}
