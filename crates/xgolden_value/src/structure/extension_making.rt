//! Extensions from their parts.

use asn1_types::ObjectIdentifier;
use der_core::Structure;
use std::alloc::Global;
use x509_types::{ExtendedKeyUsage, Extension, KeyUsage, OidList, RawGeneralNames};
use xgolden::{Args, Line, NoValue, Unanswered, flag_of, number_of, print_extension};

/// Prints the octets of the extension, and its details, or that there is none.
pub fn print(alloc: Global, call: &str, args: Args<'_>, line: &mut Line) {
    match (call, args.words) {
        ("basic_constraints", [ca, pathlen]) => {
            print_made(alloc, basic_constraints(alloc, ca, pathlen), line);
        }
        ("key_usage", [flags]) => print_made(alloc, key_usage(alloc, flags), line),
        ("critical_key_usage", [flags]) => {
            print_made(alloc, critical_key_usage(alloc, flags), line);
        }
        _ => print_of_octets(alloc, call, args.octets, line),
    }
}

/// The same for an extension from octets.
fn print_of_octets(alloc: Global, call: &str, octets: &[Option<Vec<u8>>], line: &mut Line) {
    match (call, octets) {
        ("non_critical", [Some(octets)]) => print_made(alloc, non_critical(alloc, octets), line),
        ("extended_key_usage", purposes) => {
            print_made(alloc, extended_key_usage(alloc, purposes), line);
        }
        ("subject_alt_name" | "issuer_alt_name", [Some(names)]) => {
            print_made(alloc, alt_name(alloc, call, names), line);
        }
        ("subject_key" | "authority_key", [Some(key)]) => {
            print_made(alloc, key_identifier(alloc, call, key), line);
        }
        ("raw", [Some(oid), Some(octets)]) => print_made(alloc, raw(alloc, oid, octets), line),
        _ => line.no_call(),
    }
}

/// An extension, or why there is none.
type Made = Result<Extension, NoValue>;

fn print_made(alloc: Global, made: Made, line: &mut Line) {
    match made {
        Ok(extension) => {
            print_octets(alloc, &extension, line);
            drop(extension);
        }
        Err(NoValue::Refused(error)) => line.refused(error),
        Err(NoValue::Unanswered(why)) => line.lose(why),
    }
}

/// Prints the octets of an extension, and its details.
fn print_octets(alloc: Global, extension: &Extension, line: &mut Line) {
    line.made(extension.to_der(alloc));
    print_extension(alloc, extension, line);
}

/// Basic constraints with a CA flag and a path length, `none` for none.
fn basic_constraints(alloc: Global, ca: &str, pathlen: &str) -> Made {
    let ca = flag_of(ca)?;
    let pathlen = match pathlen {
        "none" => None,
        number => Some(number_of(number)?),
    };
    Ok(Extension::new_basic_constraints(alloc, ca, pathlen)?)
}

/// A key usage with its flags as a number.
fn key_usage(alloc: Global, flags: &str) -> Made {
    let usage = KeyUsage::new(alloc, number_of(flags)?)?;
    Ok(Extension::new_key_usage(alloc, usage)?)
}

fn critical_key_usage(alloc: Global, flags: &str) -> Made {
    Ok(key_usage(alloc, flags)?.into_critical())
}

fn non_critical(alloc: Global, octets: &[u8]) -> Made {
    Ok(Extension::from_der(alloc, octets)?.into_non_critical())
}

fn extended_key_usage(alloc: Global, purposes: &[Option<Vec<u8>>]) -> Made {
    let mut list = OidList::new(alloc);
    for oid in purposes {
        let oid = oid.as_deref().ok_or(Unanswered::NoOctets)?;
        list.push(ObjectIdentifier::from_content(alloc, oid)?)?;
    }
    Ok(Extension::new_extended_key_usage(alloc, ExtendedKeyUsage::new(list))?)
}

/// Alternative names of the subject, or of the issuer.
fn alt_name(alloc: Global, call: &str, names: &[u8]) -> Made {
    let names = RawGeneralNames::from_der(alloc, names)?;
    Ok(match call {
        "subject_alt_name" => Extension::new_subject_alt_name(alloc, names)?,
        _ => Extension::new_issuer_alt_name(alloc, names)?,
    })
}

/// The subject or the authority key identifier.
fn key_identifier(alloc: Global, call: &str, key: &[u8]) -> Made {
    Ok(match call {
        "subject_key" => Extension::new_subject_key_identifier(alloc, key)?,
        _ => Extension::new_authority_key_identifier(alloc, key)?,
    })
}

fn raw(alloc: Global, oid: &[u8], octets: &[u8]) -> Made {
    let oid = ObjectIdentifier::from_content(alloc, oid)?;
    Ok(Extension::new_raw(alloc, oid, octets)?)
}
