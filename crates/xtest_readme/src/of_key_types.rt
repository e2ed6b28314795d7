//! The caller in the README of `key_types`.

use der_core::{DerError, Structure};
use key_types::{SubjectKey, SubjectPublicKeyInfo};
use std::alloc::Global;
use std::test::Fail;

/// How many octets the point of an elliptic curve key has, None for a key of another kind.
fn point_length(alloc: Global, octets: &[u8]) -> Result<Option<usize>, DerError> {
    let info = SubjectPublicKeyInfo::from_der(alloc, octets)?;
    match &info.subject_public_key {
        SubjectKey::Ec(point) => Ok(Some(point.payload_view().len())),
        _ => Ok(None),
    }
}

#[test]
fn a_point(rt: HostRuntime) -> Result<(), Fail> {
    let octets = hex::decode(rt.alloc(), KEY)?;
    assert_eq!(rt; point_length(rt.alloc(), &octets)?, Some(65));
    Ok(())
}

/// A key on the curve P-256 that OpenSSL made. Its point isn't compressed, so it has 65 octets
/// (SEC 1 2.3.3).
#[rattlefmt::skip]
const KEY: &str = "3059301306072a8648ce3d020106082a8648ce3d03010703420004ae6529d65f9dbc7e78a3e5e2aa7608cb73c2a3de45838a6b7a13675da927fc8ff85809a9f5d007066152b1d0e6897ac896dcde961efaffdba65686320250049a";
