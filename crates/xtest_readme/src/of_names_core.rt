//! The caller in the README of `names_core`.

use der_core::{DerError, Structure};
use name_types::NameAttr;
use names_core::DirectoryName;
use std::alloc::Global;
use std::test::Fail;

/// The encoding of the name of a host and of the company that runs it.
fn host_name(alloc: Global, host: &str, company: &str) -> Result<Vec<u8>, DerError> {
    let mut name = DirectoryName::new_common_name(alloc, host)?;
    name.add_attr(NameAttr::OrganizationName, company)?;
    name.to_der(alloc)
}

#[test]
fn a_name(rt: HostRuntime) -> Result<(), Fail> {
    let octets = host_name(rt.alloc(), "www.example.org", "Example Ltd")?;
    let wanted = hex::decode(rt.alloc(), NAME)?;
    assert_eq!(rt; octets.as_slice(), wanted.as_slice());
    Ok(())
}

/// The subject of a certificate that `openssl req -utf8` made for
/// `/CN=www.example.org/O=Example Ltd`.
#[rattlefmt::skip]
const NAME: &str = "30303118301606035504030c0f7777772e6578616d706c652e6f726731143012060355040a0c0b4578616d706c65204c7464";
