//! AlgorithmIdentifiers that are made, and primitive elements that are put together.

use asn1_types::{IntegerAsn1, ObjectIdentifier, oids};
use der_core::{DerError, Raw, Structure, leaf, tag};
use std::alloc::Global;
use std::test::Fail;
use x509_types::AlgorithmIdentifier;

/// The octets of SHA-256 with NULL parameters.
fn sha256(alloc: Global) -> Result<Vec<u8>, DerError> {
    let oid = ObjectIdentifier::from_known(alloc, oids::SHA256)?;
    let algorithm = AlgorithmIdentifier::with_null(alloc, oid)?;
    algorithm.to_der(alloc)
}

/// The integer with these contents octets, by the element around them.
fn integer(alloc: Global, contents: &[u8]) -> Result<IntegerAsn1, DerError> {
    let tree = leaf(alloc, tag::INTEGER, contents)?;
    let kept = Raw::from_tree(alloc, &tree)?;
    IntegerAsn1::read_at(alloc, kept.elem())
}

#[test]
fn makes(rt: HostRuntime) -> Result<(), Fail> {
    let wanted = hex::decode(rt.alloc(), "300d06096086480165030402010500")?;
    assert_eq!(rt; sha256(rt.alloc())?.as_slice(), wanted.as_slice());
    Ok(())
}

#[test]
fn reads_a_leaf(rt: HostRuntime) -> Result<(), Fail> {
    let read = integer(rt.alloc(), &[0, 0x80])?;
    assert_eq!(rt; read.as_unsigned_bytes_be(), [0x80].as_slice());
    assert!(rt; integer(rt.alloc(), &[]).err() == Some(DerError::Shape));
    Ok(())
}
