//! Curves and Curve25519 algorithms by OID, and points by their coordinates.

use crate::structure::keys::print_made;
use asn1_types::ObjectIdentifier;
use key_core::{EcCurve, EdAlgorithm, PublicKey};
use std::alloc::{AllocError, Global};
use xgolden::Line;

/// Prints a curve, an algorithm or a point.
pub fn print(alloc: Global, call: &str, args: &[Option<Vec<u8>>], line: &mut Line) {
    match (call, args) {
        ("curve", [Some(oid)]) => print_curve(alloc, oid, line),
        ("algorithm", [Some(oid)]) => print_algorithm(alloc, oid, line),
        ("coordinates", [Some(oid), Some(x), Some(y)]) => print_point(alloc, oid, (x, y), line),
        _ => line.no_call(),
    }
}

/// Prints the name of the curve with an OID, and the OID that is written for it.
fn print_curve(alloc: Global, oid: &[u8], line: &mut Line) {
    match EcCurve::named(oid) {
        Some(curve) => {
            line.shown(&curve);
            print_contents(curve.to_oid(alloc), line);
        }
        None => line.word("none"),
    }
}

/// Prints the name of the algorithm with an OID, and the OID that is written for it.
fn print_algorithm(alloc: Global, oid: &[u8], line: &mut Line) {
    match EdAlgorithm::named(oid) {
        Some(algorithm) => {
            line.shown(&algorithm);
            print_contents(algorithm.to_oid(alloc), line);
        }
        None => line.word("none"),
    }
}

fn print_contents(oid: Result<ObjectIdentifier, AllocError>, line: &mut Line) {
    match oid {
        Ok(oid) => line.octets(oid.as_bytes()),
        Err(error) => line.shown(&error),
    }
}

/// Prints the point with these coordinates on the curve with the OID.
fn print_point(alloc: Global, oid: &[u8], (x, y): (&[u8], &[u8]), line: &mut Line) {
    match EcCurve::named(oid) {
        Some(curve) => {
            let key = PublicKey::from_ec_components(alloc, curve, x, y);
            print_made(alloc, key, line);
        }
        None => line.word("no curve"),
    }
}
