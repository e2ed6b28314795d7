//! Views of curve keys.

use crate::structure::private_keys::{key_of, print_refusal};
use asn1_types::ObjectIdentifier;
use key_core::{
    EcdsaKeypair, EcdsaPublicKey, EdKeypair, EdPublicKey, KeyError, NamedEcCurve, NamedEdAlgorithm,
    PrivateKey, PublicKey,
};
use std::alloc::{AllocError, Global};
use xgolden::{Args, Line};

/// Prints the view of a key as an EC key, and as a Curve25519 or Curve448 key.
pub fn print(alloc: Global, call: &str, args: Args<'_>, line: &mut Line) {
    match (call, args.octets, args.split()) {
        ("public", [Some(octets)], _) => print_public(alloc, octets, line),
        ("private", _, Some((call, args))) => print_private(alloc, call, args, line),
        _ => line.no_call(),
    }
}

fn print_public(alloc: Global, octets: &[u8], line: &mut Line) {
    match PublicKey::from_der(alloc, octets) {
        Ok(key) => print_public_key(alloc, &key, line),
        Err(error) => line.shown(&error),
    }
}

fn print_public_key(alloc: Global, key: &PublicKey, line: &mut Line) {
    print_ec(alloc, EcdsaPublicKey::try_from(key), line);
    line.mark(";");
    print_ed(alloc, EdPublicKey::try_from(key), line);
}

fn print_private(alloc: Global, call: &str, args: Args<'_>, line: &mut Line) {
    match key_of(alloc, call, args) {
        Ok(key) => print_pair(alloc, &key, line),
        Err(why) => print_refusal(why, line),
    }
}

/// Prints the views of a private key, and its `Debug` text.
fn print_pair(alloc: Global, key: &PrivateKey, line: &mut Line) {
    line.named(key);
    line.mark(";");
    print_ec_pair(alloc, EcdsaKeypair::try_from(key), line);
    line.mark(";");
    print_ed_pair(alloc, EdKeypair::try_from(key), line);
}

/// The curve, the secret and the public key of a pair; or the text of the refusal.
fn print_ec_pair(alloc: Global, pair: Result<EcdsaKeypair<'_>, KeyError>, line: &mut Line) {
    match pair {
        Ok(pair) => {
            print_curve(alloc, pair.curve(), line);
            line.octets(pair.secret());
            print_ec(alloc, EcdsaPublicKey::try_from(&pair), line);
        }
        Err(error) => line.shown(&error),
    }
}

/// The curve and the point; or the text of the refusal.
fn print_ec(alloc: Global, key: Result<EcdsaPublicKey<'_>, KeyError>, line: &mut Line) {
    match key {
        Ok(key) => {
            print_curve(alloc, key.curve(), line);
            line.octets(key.encoded_point());
        }
        Err(error) => line.shown(&error),
    }
}

/// The algorithm, the secret and the public key of a pair; or the text of the refusal.
fn print_ed_pair(alloc: Global, pair: Result<EdKeypair<'_>, KeyError>, line: &mut Line) {
    match pair {
        Ok(pair) => {
            print_algorithm(alloc, pair.algorithm(), line);
            line.octets(pair.secret());
            print_ed(alloc, EdPublicKey::try_from(&pair), line);
        }
        Err(error) => line.shown(&error),
    }
}

/// The algorithm and the octets of the key; or the text of the refusal.
fn print_ed(alloc: Global, key: Result<EdPublicKey<'_>, KeyError>, line: &mut Line) {
    match key {
        Ok(key) => {
            print_algorithm(alloc, key.algorithm(), line);
            line.octets(key.key_bytes());
        }
        Err(error) => line.shown(&error),
    }
}

/// The name of a curve, and its OID.
fn print_curve(alloc: Global, named: NamedEcCurve<'_>, line: &mut Line) {
    line.shown(&named);
    print_oid(named.to_oid(alloc), line);
}

/// The name of an algorithm, and its OID.
fn print_algorithm(alloc: Global, named: NamedEdAlgorithm<'_>, line: &mut Line) {
    line.shown(&named);
    print_oid(named.to_oid(alloc), line);
}

fn print_oid(oid: Result<ObjectIdentifier, AllocError>, line: &mut Line) {
    match oid {
        Ok(oid) => line.shown(&oid),
        Err(error) => line.shown(&error),
    }
}
