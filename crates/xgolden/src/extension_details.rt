//! Printing an extension.

use crate::general_details::print_general_names;
use crate::line::Line;
use asn1_types::BitString;
use asn1_types::oids::KP_CODE_SIGNING;
use der_core::{Raw, Structure};
use std::alloc::{AllocError, Global};
use x509_types::{
    AuthorityKeyIdentifier, BasicConstraints, ExtendedKeyUsage, Extension, ExtensionView, KeyUsage,
    RawGeneralNames,
};

/// The OID, whether it is critical, the value, and the encoding.
pub fn print_extension(alloc: Global, extension: &Extension, line: &mut Line) {
    line.shown(extension.extn_id());
    line.shown(&extension.critical());
    print_value(alloc, extension.extn_value(), line);
    line.made(extension.to_der(alloc));
}

fn print_value(alloc: Global, view: &ExtensionView, line: &mut Line) {
    match view {
        ExtensionView::SubjectKeyIdentifier(octets) => {
            print_octets("SubjectKeyIdentifier", octets.as_slice(), line);
        }
        ExtensionView::KeyUsage(usage) => print_key_usage(usage, line),
        ExtensionView::SubjectAltName(names) => print_names("SubjectAltName", names, line),
        ExtensionView::IssuerAltName(names) => print_names("IssuerAltName", names, line),
        ExtensionView::BasicConstraints(constraints) => print_constraints(constraints, line),
        ExtensionView::AuthorityKeyIdentifier(key) => print_authority_key(key, line),
        ExtensionView::ExtendedKeyUsage(usage) => print_extended_key_usage(alloc, usage, line),
        ExtensionView::Raw(octets) => print_octets("Raw", octets.as_slice(), line),
    }
}

fn print_names(kind: &str, names: &RawGeneralNames, line: &mut Line) {
    line.word(kind);
    print_general_names(names, line);
}

fn print_octets(kind: &str, octets: &[u8], line: &mut Line) {
    line.word(kind);
    line.octets(octets);
}

fn print_key_usage(usage: &KeyUsage, line: &mut Line) {
    line.word("KeyUsage");
    print_bits(usage.bits(), line);
    print_flags(usage, line);
}

/// The number of unused bits, and the octets.
pub fn print_bits(bits: &BitString, line: &mut Line) {
    line.shown(&bits.unused());
    line.octets(bits.payload_view());
}

/// A digit for each flag, the first for bit 0.
fn print_flags(usage: &KeyUsage, line: &mut Line) {
    let flags = [
        usage.digital_signature(),
        usage.non_repudiation(),
        usage.key_encipherment(),
        usage.data_encipherment(),
        usage.key_agreement(),
        usage.key_cert_sign(),
        usage.crl_sign(),
        usage.encipher_only(),
        usage.decipher_only(),
    ];
    line.mark(" ");
    for flag in flags {
        line.mark(if flag { "1" } else { "0" });
    }
}

fn print_constraints(constraints: &BasicConstraints, line: &mut Line) {
    line.word("BasicConstraints");
    match constraints.ca() {
        Some(ca) => line.shown(&ca),
        None => line.word("none"),
    }
    match constraints.pathlen() {
        Some(pathlen) => line.shown(&pathlen),
        None => line.word("none"),
    }
}

fn print_authority_key(key: &AuthorityKeyIdentifier, line: &mut Line) {
    line.word("AuthorityKeyIdentifier");
    line.given(key.key_identifier());
    line.given(key.issuer().map(Raw::as_bytes));
    line.given(key.serial_number());
}

fn print_extended_key_usage(alloc: Global, usage: &ExtendedKeyUsage, line: &mut Line) {
    line.word("ExtendedKeyUsage");
    match purposes(alloc, usage) {
        Ok(purposes) => line.word(purposes.as_str()),
        Err(error) => line.shown(&error),
    }
    line.shown(&usage.contains(KP_CODE_SIGNING));
}

/// The extended key usages separated by commas, `-` for none.
fn purposes(alloc: Global, usage: &ExtendedKeyUsage) -> Result<String, AllocError> {
    let mut text = String::new(alloc);
    for purpose in usage.as_slice() {
        if !text.is_empty() {
            text.push(',')?;
        }
        text.push_str(purpose.to_text(alloc)?.as_str())?;
    }
    if text.is_empty() {
        text.push('-')?;
    }
    Ok(text)
}
