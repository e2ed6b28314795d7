//! OIDs, their table, and the attribute types among them.

use asn1_types::oids::{self, KnownOid};
use asn1_types::{ObjectIdentifier, TextError};
use std::alloc::Global;
use x509_types::NameAttr;
use xgolden::{Line, text_of};

/// Prints the output for a call on OIDs.
pub fn print(alloc: Global, call: &str, octets: &[u8], line: &mut Line) {
    match (call, text_of(octets)) {
        ("from_content", _) => print_text(alloc, octets, line),
        ("by_contents", _) => print_known(oids::by_contents(octets), line),
        ("attribute", _) => print_attribute(alloc, octets, line),
        ("from_text", Ok(text)) => print_contents(alloc, text, line),
        ("by_name", Ok(text)) => print_known(oids::by_name(text), line),
        _ => line.no_call(),
    }
}

/// The contents octets of a text.
fn print_contents(alloc: Global, text: &str, line: &mut Line) {
    match ObjectIdentifier::from_text(alloc, text) {
        Ok(identifier) => line.octets(identifier.as_bytes()),
        Err(TextError::BadText) => line.word("BadText"),
        Err(error) => line.shown(&error),
    }
}

/// The text of contents octets.
fn print_text(alloc: Global, contents: &[u8], line: &mut Line) {
    match ObjectIdentifier::from_content(alloc, contents) {
        Ok(identifier) => print_own_text(alloc, &identifier, line),
        Err(error) => line.refused(error),
    }
}

fn print_own_text(alloc: Global, identifier: &ObjectIdentifier, line: &mut Line) {
    match identifier.to_text(alloc) {
        Ok(text) => line.word(text.as_str()),
        Err(error) => line.shown(&error),
    }
}

/// An entry of the table.
fn print_known(found: Option<KnownOid>, line: &mut Line) {
    match found {
        Some(known) => {
            line.word(known.name);
            line.word(known.text);
            line.octets(known.contents);
        }
        None => line.word("none"),
    }
}

/// The attribute type of contents octets.
fn print_attribute(alloc: Global, contents: &[u8], line: &mut Line) {
    let Some(attr) = NameAttr::from_contents(contents) else {
        return line.word("none");
    };
    line.named(&attr);
    match attr.to_oid(alloc) {
        Ok(identifier) => line.shown(&identifier),
        Err(error) => line.shown(&error),
    }
}
