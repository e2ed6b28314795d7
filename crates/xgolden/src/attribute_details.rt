//! Printing an attribute.

use crate::extension_details::print_extension;
use crate::line::Line;
use der_core::{ListOf, Octets, Raw, Structure};
use std::alloc::Global;
use x509_types::{Attribute, AttributeValues, Extensions, OidList};

/// The OID, the kind of the values, their number, each, and the encoding.
pub fn print_attribute(alloc: Global, attribute: &Attribute, line: &mut Line) {
    line.shown(&attribute.ty);
    print_values(alloc, &attribute.value, line);
    line.made(attribute.to_der(alloc));
}

fn print_values(alloc: Global, values: &AttributeValues, line: &mut Line) {
    match values {
        AttributeValues::ContentType(types) => print_types(types, line),
        AttributeValues::MessageDigest(digests) => print_digests(digests, line),
        AttributeValues::Extensions(requests) => print_requests(alloc, requests, line),
        AttributeValues::Raw(kept) => print_kept(kept, line),
    }
}

fn print_types(types: &OidList, line: &mut Line) {
    line.word("ContentType");
    line.shown(&types.len());
    for ty in types.as_slice() {
        line.shown(ty);
    }
}

fn print_digests(digests: &ListOf<Octets>, line: &mut Line) {
    line.word("MessageDigest");
    line.shown(&digests.len());
    for digest in digests.as_slice() {
        line.octets(digest.as_slice());
    }
}

fn print_requests(alloc: Global, requests: &ListOf<Extensions>, line: &mut Line) {
    line.word("Extensions");
    line.shown(&requests.len());
    for request in requests.as_slice() {
        print_extensions(alloc, request, line);
    }
}

/// The number of extensions, and each.
fn print_extensions(alloc: Global, request: &Extensions, line: &mut Line) {
    line.shown(&request.len());
    for extension in request.as_slice() {
        print_extension(alloc, extension, line);
    }
}

fn print_kept(kept: &ListOf<Raw>, line: &mut Line) {
    line.word("Raw");
    line.shown(&kept.len());
    for value in kept.as_slice() {
        line.octets(value.as_bytes());
    }
}
