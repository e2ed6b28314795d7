//! General names from their parts.

use asn1_types::{CharSetError, ObjectIdentifier};
use der_core::{DerError, Structure};
use names_core::{DirectoryName, GeneralName};
use std::alloc::{AllocError, Global};
use std::fmt;
use x509_types::{DirectoryString, RawGeneralName};
use xgolden::{Line, Unanswered, equals, print_general_name, text_of};

/// Prints the octets of a name, its details, and whether it comes back from its raw name, or the
/// name of the error.
pub fn print(alloc: Global, call: &str, octets: &[Option<Vec<u8>>], line: &mut Line) {
    match (call, octets) {
        ("rfc822_name" | "dns_name" | "uri" | "directory_name" | "edi_party_name", [Some(text)]) =>
            { print_of_text(alloc, call, text, line) }
        ("edi_party_name", [Some(party), Some(assigner)]) => {
            print_party(alloc, party, assigner, line)
        }
        ("ip_address", [Some(address)]) => {
            print_made(alloc, GeneralName::new_ip_address(alloc, address), line);
        }
        ("registered_id", [Some(oid)]) => print_made(alloc, registered_id(alloc, oid), line),
        _ => line.no_call(),
    }
}

fn print_of_text(alloc: Global, call: &str, octets: &[u8], line: &mut Line) {
    match text_of(octets) {
        Ok(text) => print_named(alloc, call, text, line),
        Err(why) => line.lose(why),
    }
}

fn print_named(alloc: Global, call: &str, text: &str, line: &mut Line) {
    match call {
        "directory_name" => print_made(alloc, directory_name(alloc, text), line),
        "edi_party_name" => print_made(alloc, edi_party_name(alloc, text, None), line),
        _ => print_made(alloc, of_text(alloc, call, text), line),
    }
}

fn print_party(alloc: Global, party: &[u8], assigner: &[u8], line: &mut Line) {
    match (text_of(party), text_of(assigner)) {
        (Ok(party), Ok(assigner)) => {
            print_made(alloc, edi_party_name(alloc, party, Some(assigner)), line)
        }
        _ => line.lose(Unanswered::NoText),
    }
}

fn print_made<E: fmt::Debug + Drop>(alloc: Global, made: Result<GeneralName, E>, line: &mut Line) {
    match made {
        Ok(name) => {
            print_raw(alloc, &name, line);
            drop(name);
        }
        Err(error) => line.named(&error),
    }
}

fn of_text(alloc: Global, call: &str, text: &str) -> Result<GeneralName, CharSetError> {
    match call {
        "rfc822_name" => GeneralName::new_rfc822_name(alloc, text),
        "dns_name" => GeneralName::new_dns_name(alloc, text),
        _ => GeneralName::new_uri(alloc, text),
    }
}

/// The name with one common name.
fn directory_name(alloc: Global, text: &str) -> Result<GeneralName, AllocError> {
    let name = DirectoryName::new_common_name(alloc, text)?;
    Ok(GeneralName::new_directory_name(name))
}

fn edi_party_name(
    alloc: Global,
    party: &str,
    assigner: Option<&str>,
) -> Result<GeneralName, AllocError> {
    let assigner = match assigner {
        Some(assigner) => Some(DirectoryString::from_text(alloc, assigner)?),
        None => None,
    };
    let party = DirectoryString::from_text(alloc, party)?;
    Ok(GeneralName::new_edi_party_name(party, assigner))
}

fn registered_id(alloc: Global, oid: &[u8]) -> Result<GeneralName, DerError> {
    let oid = ObjectIdentifier::from_content(alloc, oid)?;
    Ok(GeneralName::new_registered_id(oid))
}

fn print_raw(alloc: Global, name: &GeneralName, line: &mut Line) {
    match raw_of(alloc, name) {
        Ok(raw) => {
            line.made(raw.to_der(alloc));
            print_general_name(&raw, line);
            drop(raw);
        }
        Err(error) => line.shown(&error),
    }
    line.same(comes_back(alloc, name));
}

/// The raw name of a name.
fn raw_of(alloc: Global, name: &GeneralName) -> Result<RawGeneralName, AllocError> {
    Ok(RawGeneralName::from(name.try_clone(alloc)?))
}

/// Whether a name is the one made from its raw name.
fn comes_back(alloc: Global, name: &GeneralName) -> Result<bool, DerError> {
    Ok(equals(GeneralName::from(raw_of(alloc, name)?), name))
}
