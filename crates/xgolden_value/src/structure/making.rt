//! Values from their parts, and written.

use crate::structure::details::Details;
use asn1_types::{BitString, CharSetError, Ia5String, ObjectIdentifier, oids};
use der_core::{Raw, Structure};
use names_core::DirectoryName;
use std::alloc::Global;
use x509_types::{AlgorithmIdentifier, NameAttr, SubjectKey, SubjectPublicKeyInfo};
use xgolden::{Args, Line, NoValue, Unanswered, octets_of, text_of};

/// Prints the octets of the value, and its details.
pub fn print(alloc: Global, call: &str, args: Args<'_>, line: &mut Line) {
    match (call, args.octets) {
        ("algorithm", [Some(oid)]) => print_made(alloc, algorithm(alloc, oid, None), line),
        ("algorithm", [Some(oid), Some(parameters)]) => {
            print_made(alloc, algorithm(alloc, oid, Some(parameters)), line);
        }
        ("algorithm_null", [Some(oid)]) => print_made(alloc, algorithm_null(alloc, oid), line),
        ("ed25519_key", [Some(bits)]) => print_made(alloc, ed25519_key(alloc, bits), line),
        ("public_key", [_, Some(algorithm), Some(bits)]) => {
            print_public_key(alloc, args.words, (algorithm, bits), line);
        }
        ("common_name", [Some(text)]) => print_made(alloc, common_name(alloc, text), line),
        ("name", _) => print_made(alloc, name(alloc, args.words), line),
        _ => line.no_call(),
    }
}

/// Prints the encoding of a value, and its details; or why there is none.
fn print_made<T: Structure + Details>(alloc: Global, value: Result<T, NoValue>, line: &mut Line) {
    match value {
        Ok(value) => print_value(alloc, &value, line),
        Err(why) => why.print(line),
    }
}

fn print_value<T: Structure + Details>(alloc: Global, value: &T, line: &mut Line) {
    line.made(value.to_der(alloc));
    value.print(alloc, line);
}

fn algorithm(
    alloc: Global,
    oid: &[u8],
    parameters: Option<&[u8]>,
) -> Result<AlgorithmIdentifier, NoValue> {
    let parameters = match parameters {
        Some(octets) => Some(Raw::from_der(alloc, octets)?),
        None => None,
    };
    let oid = ObjectIdentifier::from_content(alloc, oid)?;
    Ok(AlgorithmIdentifier::new(oid, parameters))
}

fn algorithm_null(alloc: Global, oid: &[u8]) -> Result<AlgorithmIdentifier, NoValue> {
    let oid = ObjectIdentifier::from_content(alloc, oid)?;
    Ok(AlgorithmIdentifier::with_null(alloc, oid)?)
}

fn ed25519_key(alloc: Global, bits: &[u8]) -> Result<SubjectPublicKeyInfo, NoValue> {
    let bits = BitString::with_bytes(alloc, bits)?;
    let oid = ObjectIdentifier::from_known(alloc, oids::ED25519)?;
    Ok(SubjectPublicKeyInfo {
        algorithm: AlgorithmIdentifier::new(oid, None),
        subject_public_key: SubjectKey::Ed(bits),
    })
}

/// Prints a key with these bits and an algorithm, `None` if the algorithm isn't one for keys of its
/// kind.
fn print_public_key(
    alloc: Global,
    words: &[&str],
    (algorithm, bits): (&[u8], &[u8]),
    line: &mut Line,
) {
    match public_key(alloc, words, algorithm, bits) {
        Ok(Some(key)) => {
            print_value(alloc, &key, line);
            drop(key);
        }
        Ok(None) => line.word("None"),
        Err(why) => why.print(line),
    }
}

fn public_key(
    alloc: Global,
    words: &[&str],
    algorithm: &[u8],
    bits: &[u8],
) -> Result<Option<SubjectPublicKeyInfo>, NoValue> {
    let bits = BitString::with_bytes(alloc, bits)?;
    let algorithm = AlgorithmIdentifier::from_der(alloc, algorithm)?;
    Ok(SubjectPublicKeyInfo::new(algorithm, key_of_kind(words, bits)?))
}

/// The key with these bits, of the kind in the first word.
fn key_of_kind(words: &[&str], bits: BitString) -> Result<SubjectKey, Unanswered> {
    match words {
        ["Ec", ..] => Ok(SubjectKey::Ec(bits)),
        ["Ed", ..] => Ok(SubjectKey::Ed(bits)),
        ["Mldsa", ..] => Ok(SubjectKey::Mldsa(bits)),
        _ => Err(Unanswered::NoCall),
    }
}

fn common_name(alloc: Global, text: &[u8]) -> Result<DirectoryName, NoValue> {
    let text = text_of(text)?;
    Ok(DirectoryName::new_common_name(alloc, text)?)
}

/// A name with attributes, each the contents octets of its type, `=`, and a text.
fn name(alloc: Global, attributes: &[&str]) -> Result<DirectoryName, NoValue> {
    let mut name = DirectoryName::new(alloc);
    for word in attributes {
        let (ty, text) = word.split_once('=').ok_or(Unanswered::NoCall)?;
        let ty = octets_of(alloc, ty)?;
        let text = octets_of(alloc, text)?;
        add_attribute(alloc, &mut name, &ty, text_of(&text)?)?;
    }
    Ok(name)
}

/// Adds an attribute, an email address if the type isn't in `NameAttr`.
fn add_attribute(
    alloc: Global,
    name: &mut DirectoryName,
    ty: &[u8],
    text: &str,
) -> Result<(), Unanswered> {
    match NameAttr::from_contents(ty) {
        Some(attr) => Ok(name.add_attr(attr, text)?),
        None => Ok(name.add_email(address_of(alloc, text)?)?),
    }
}

fn address_of(alloc: Global, text: &str) -> Result<Ia5String, Unanswered> {
    match Ia5String::from_string(alloc, text) {
        Ok(address) => Ok(address),
        Err(CharSetError::Memory) => Err(Unanswered::Memory),
        Err(CharSetError::CharSet) => Err(Unanswered::NoText),
    }
}
