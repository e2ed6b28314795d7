//! Growing lists of general names.

use asn1_types::{CharSetError, Ia5String};
use der_core::{DerError, Structure};
use name_types::RawGeneralNames;
use names_core::{DirectoryName, GeneralName, GeneralNames};
use std::alloc::{AllocError, Global};
use std::test::Fail;

/// A host, a URI, another host, a directory name and a mailbox.
fn five_names(alloc: Global) -> Result<GeneralNames, CharSetError> {
    let names = GeneralNames::new(alloc, GeneralName::new_dns_name(alloc, "localhost")?)?;
    let names = names.with_name(GeneralName::new_uri(alloc, "u")?)?;
    let names = names.with_dns_name(Ia5String::from_string(alloc, "b")?)?;
    let mut names = names.with_directory_name(DirectoryName::new_common_name(alloc, "A")?)?;
    names.add_name(GeneralName::new_rfc822_name(alloc, "a")?)?;
    Ok(names)
}

/// These five, as in RFC 5280 A.2.
#[rattlefmt::skip]
const FIVE: &[u8] = &[
    0x30, 0x24,
    0x82, 0x09, b'l', b'o', b'c', b'a', b'l', b'h', b'o', b's', b't',
    0x86, 0x01, b'u',
    0x82, 0x01, b'b',
    0xA4, 0x0E, 0x30, 0x0C, 0x31, 0x0A, 0x30, 0x08, 0x06, 0x03, 0x55, 0x04, 0x03, 0x0C, 0x01, b'A',
    0x81, 0x01, b'a',
];

/// The directory name alone.
#[rattlefmt::skip]
const DIRECTORY: &[u8] = &[
    0x30, 0x10,
    0xA4, 0x0E, 0x30, 0x0C, 0x31, 0x0A, 0x30, 0x08, 0x06, 0x03, 0x55, 0x04, 0x03, 0x0C, 0x01, b'A',
];

/// The host alone.
#[rattlefmt::skip]
const HOST: &[u8] = &[
    0x30, 0x0B,
    0x82, 0x09, b'l', b'o', b'c', b'a', b'l', b'h', b'o', b's', b't',
];

fn octets_of(alloc: Global, names: GeneralNames) -> Result<Vec<u8>, DerError> {
    RawGeneralNames::from(names).to_der(alloc)
}

fn directory(alloc: Global) -> Result<GeneralNames, AllocError> {
    GeneralNames::new_directory_name(alloc, DirectoryName::new_common_name(alloc, "A")?)
}

fn host(alloc: Global) -> Result<GeneralNames, CharSetError> {
    Ok(GeneralNames::new_dns_name(alloc, Ia5String::from_string(alloc, "localhost")?)?)
}

#[test]
fn names_at_the_end(rt: HostRuntime) -> Result<(), Fail> {
    let names = five_names(rt.alloc())?;
    let copy = names.try_clone(rt.alloc())?;
    assert!(rt; names == copy);
    assert!(rt; octets_of(rt.alloc(), names)?.as_slice() == FIVE);
    assert!(rt; copy.into_general_names(rt.alloc())?.len() == 5);
    Ok(())
}

#[test]
fn one_name(rt: HostRuntime) -> Result<(), Fail> {
    assert!(rt; octets_of(rt.alloc(), directory(rt.alloc())?)?.as_slice() == DIRECTORY);
    assert!(rt; octets_of(rt.alloc(), host(rt.alloc())?)?.as_slice() == HOST);
    Ok(())
}
