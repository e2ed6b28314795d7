//! The caller in the README of `name_types`.

use der_core::{DerError, Structure};
use name_types::RawGeneralName;
use std::alloc::Global;
use std::test::Fail;

/// Whether octets hold the dNSName of this host, octet by octet.
fn names_host(alloc: Global, octets: &[u8], host: &str) -> Result<bool, DerError> {
    let name = RawGeneralName::from_der(alloc, octets)?;
    match &name {
        RawGeneralName::DnsName(text) => Ok(text.as_str() == host),
        _ => Ok(false),
    }
}

#[test]
fn a_host(rt: HostRuntime) -> Result<(), Fail> {
    let name = hex::decode(rt.alloc(), HOST)?;
    let address = hex::decode(rt.alloc(), ADDRESS)?;
    assert!(rt; names_host(rt.alloc(), &name, "www.example.org")?);
    assert!(rt; !names_host(rt.alloc(), &name, "example.org")?);
    assert!(rt; !names_host(rt.alloc(), &address, "192.0.2.1")?);
    Ok(())
}

/// `DNS:www.example.org` in a subjectAltName that OpenSSL wrote.
const HOST: &str = "820f7777772e6578616d706c652e6f7267";

/// `IP:192.0.2.1` after it.
const ADDRESS: &str = "8704c0000201";
