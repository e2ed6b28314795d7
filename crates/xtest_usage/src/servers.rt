//! General names of a server: how they are made, and the name of its host.

use asn1_types::CharSetError;
use names_core::{GeneralName, GeneralNames};
use std::alloc::Global;
use std::test::Fail;

/// The general names of a server: that of its host, and its address.
fn server_names(alloc: Global, host: &str, address: &[u8]) -> Result<GeneralNames, CharSetError> {
    let names = GeneralNames::new(alloc, GeneralName::new_dns_name(alloc, host)?)?;
    Ok(names.with_name(GeneralName::new_ip_address(alloc, address)?)?)
}

/// The name of the host, None where there is none.
fn host_of(names: &GeneralNames) -> Option<&str> {
    Some(names.find_dns_name()?.as_str())
}

#[test]
fn names_a_server(rt: HostRuntime) -> Result<(), Fail> {
    let names = server_names(rt.alloc(), "www.example.org", &[192, 0, 2, 1])?;
    assert!(rt; host_of(&names) == Some("www.example.org"));
    assert!(rt; server_names(rt.alloc(), "é", &[]).is_err());
    Ok(())
}
