//! The caller in the README of `extension_types`.

use der_core::{DerError, Structure};
use extension_types::BasicConstraints;
use std::alloc::Global;
use std::test::Fail;

/// Whether basic constraints are those of a CA below which there may be no further CA.
fn is_last_ca(alloc: Global, octets: &[u8]) -> Result<bool, DerError> {
    let constraints = BasicConstraints::from_der(alloc, octets)?;
    Ok(constraints.ca() == Some(true) && constraints.pathlen() == Some(0))
}

#[test]
fn constraints(rt: HostRuntime) -> Result<(), Fail> {
    let last = hex::decode(rt.alloc(), LAST)?;
    assert!(rt; is_last_ca(rt.alloc(), &last)?);
    let any = hex::decode(rt.alloc(), ANY)?;
    assert!(rt; !is_last_ca(rt.alloc(), &any)?);
    Ok(())
}

/// `CA:true,pathlen:0`, as OpenSSL writes it.
const LAST: &str = "30060101ff020100";

/// `CA:true`.
const ANY: &str = "30030101ff";
