//! Keys from their parts, read and written.

use crate::structure::details::Details;
use asn1_types::{BitString, ObjectIdentifier};
use der_core::{Octets, Raw, Structure};
use key_core::{
    AlgorithmIdentifier, ECPrivateKey, PrivateKeyInfo, PrivateKeyValue, PrivateKeyVersion,
    PublicKey, RsaPrivateKey, SubjectPublicKeyInfo,
};
use std::alloc::{AllocError, Global};
use std::fmt;
use xgolden::{Args, Line, NoValue, Unanswered, equals};

/// Prints what is made from the parts.
pub fn print(alloc: Global, call: &str, args: Args<'_>, line: &mut Line) {
    match (call, args.octets) {
        ("rsa_components", [Some(modulus), Some(exponent)]) => print_rsa(
            alloc, modulus, exponent, line,
        ),
        ("ec_components", [Some(curve), Some(point)]) => print_ec(alloc, curve, point, line),
        ("ed_components", [Some(oid), Some(octets)]) => print_ed(alloc, oid, octets, line),
        ("from_der", [Some(octets)]) => print_made(alloc, PublicKey::from_der(alloc, octets), line),
        ("from_pkcs1", [Some(octets)]) => print_made(
            alloc,
            PublicKey::from_pkcs1(alloc, octets),
            line,
        ),
        ("to_pkcs1", [Some(octets)]) => print_pkcs1(alloc, octets, line),
        ("private_key", _) => print_private(alloc, args, line),
        _ => line.no_call(),
    }
}

fn print_rsa(alloc: Global, modulus: &[u8], exponent: &[u8], line: &mut Line) {
    print_made(
        alloc,
        PublicKey::from_rsa_components(alloc, modulus, exponent),
        line,
    );
}

fn print_ec(alloc: Global, curve: &[u8], point: &[u8], line: &mut Line) {
    match ObjectIdentifier::from_content(alloc, curve) {
        Ok(curve) => {
            let key = PublicKey::from_ec_encoded_components(alloc, curve, point);
            print_made(alloc, key, line);
        }
        Err(error) => line.shown(&error),
    }
}

fn print_ed(alloc: Global, oid: &[u8], octets: &[u8], line: &mut Line) {
    match ObjectIdentifier::from_content(alloc, oid) {
        Ok(oid) => {
            let key = PublicKey::from_ed_encoded_components(alloc, oid, octets);
            print_made(alloc, key, line);
        }
        Err(error) => line.shown(&error),
    }
}

/// The octets of an RSA key without its algorithm, or the text of the refusal.
fn print_pkcs1(alloc: Global, octets: &[u8], line: &mut Line) {
    match PublicKey::from_der(alloc, octets) {
        Ok(key) => line.made(key.to_pkcs1(alloc)),
        Err(error) => line.shown(&error),
    }
}

/// The octets of a public key and its details, or the text of the refusal.
pub fn print_made<E: fmt::Display + Drop>(
    alloc: Global,
    key: Result<PublicKey, E>,
    line: &mut Line,
) {
    match key {
        Ok(key) => print_key(alloc, &key, line),
        Err(error) => line.shown(&error),
    }
}

/// The octets of a public key, its details and whether it comes back from its SubjectPublicKeyInfo.
fn print_key(alloc: Global, key: &PublicKey, line: &mut Line) {
    line.made(key.to_der(alloc));
    line.named(&key.kind());
    key.as_spki().print(alloc, line);
    match comes_back(alloc, key) {
        Ok(same) => line.shown(&same),
        Err(error) => line.shown(&error),
    }
}

fn comes_back(alloc: Global, key: &PublicKey) -> Result<bool, AllocError> {
    let info = SubjectPublicKeyInfo::from(key.try_clone(alloc)?);
    Ok(equals(PublicKey::from(info), key))
}

/// The octets of a private key with an algorithm, and with attributes and a public key if they are
/// given, and its details; `None` if the parts don't belong together.
fn print_private(alloc: Global, args: Args<'_>, line: &mut Line) {
    match private_key_info(alloc, args) {
        Ok(Some(info)) => {
            line.made(info.to_der(alloc));
            info.print(alloc, line);
            drop(info);
        }
        Ok(None) => line.word("None"),
        Err(why) => why.print(line),
    }
}

fn private_key_info(alloc: Global, args: Args<'_>) -> Result<Option<PrivateKeyInfo>, NoValue> {
    let ([version, _, kind, ..], [_, Some(algorithm), _, Some(key), _, _]) = (
        args.words,
        args.octets,
    ) else {
        return Err(NoValue::Unanswered(Unanswered::NoCall));
    };
    let attributes = match args.given(4)? {
        Some(element) => Some(Raw::from_der(alloc, element)?),
        None => None,
    };
    let public_key = match args.given(5)? {
        Some(bits) => Some(BitString::with_bytes(alloc, bits)?),
        None => None,
    };
    let algorithm = AlgorithmIdentifier::from_der(alloc, algorithm)?;
    let key = private_key(alloc, kind, key)?;
    Ok(PrivateKeyInfo::new(version_of(version)?, algorithm, key, attributes, public_key))
}

/// A private key by its kind, and its element or, for Curve25519 and Curve448, its octets.
fn private_key(alloc: Global, kind: &str, octets: &[u8]) -> Result<PrivateKeyValue, NoValue> {
    match kind {
        "Rsa" => Ok(PrivateKeyValue::Rsa(RsaPrivateKey::from_der(alloc, octets)?)),
        "Ec" => Ok(PrivateKeyValue::Ec(ECPrivateKey::from_der(alloc, octets)?)),
        "Ed" => Ok(PrivateKeyValue::Ed(Octets::from_slice(alloc, octets)?)),
        _ => Err(NoValue::Unanswered(Unanswered::NoCall)),
    }
}

fn version_of(word: &str) -> Result<PrivateKeyVersion, Unanswered> {
    match word {
        "V1" => Ok(PrivateKeyVersion::V1),
        "V2" => Ok(PrivateKeyVersion::V2),
        _ => Err(Unanswered::NoCall),
    }
}
