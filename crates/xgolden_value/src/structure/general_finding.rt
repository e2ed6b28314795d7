//! Lists of general names that are searched, and made from their names again.

use asn1_types::Ia5String;
use der_core::DerError;
use names_core::{DirectoryName, GeneralNames};
use std::alloc::{AllocError, Global};
use x509_types::RawGeneralNames;
use xgolden::{Line, equals, value_of};

/// The number of names in an element, the first host and the first directory name among them, and
/// whether the list made from its names is equal to it.
pub fn print(alloc: Global, kind: &str, element: &[u8], line: &mut Line) {
    if kind != "general_names" {
        return line.no_call();
    }
    match count_of(alloc, element) {
        Ok(count) => line.shown(&count),
        Err(error) => line.shown(&error),
    }
    print_names(alloc, element, line);
}

fn print_names(alloc: Global, element: &[u8], line: &mut Line) {
    match names_of(alloc, element) {
        Ok(names) => print_found(alloc, &names, line),
        Err(error) => line.shown(&error),
    }
}

fn names_of(alloc: Global, element: &[u8]) -> Result<GeneralNames, DerError> {
    Ok(GeneralNames::from(value_of::<RawGeneralNames>(alloc, element)?))
}

fn count_of(alloc: Global, element: &[u8]) -> Result<usize, DerError> {
    let names = names_of(alloc, element)?.into_general_names(alloc)?;
    Ok(names.len())
}

fn print_found(alloc: Global, names: &GeneralNames, line: &mut Line) {
    line.given(names.find_dns_name().map(octets_of_host));
    print_directory(names.find_directory_name(alloc), line);
    line.same(is_made_anew(alloc, names));
}

fn octets_of_host(name: &Ia5String) -> &[u8] {
    name.as_str().as_bytes()
}

fn print_directory(name: Result<Option<DirectoryName>, AllocError>, line: &mut Line) {
    match name {
        Ok(Some(name)) => line.text(&name),
        Ok(None) => line.word("none"),
        Err(error) => line.shown(&error),
    }
}

/// Whether the list made from the names is equal to the one that has them.
fn is_made_anew(alloc: Global, names: &GeneralNames) -> Result<bool, DerError> {
    let listed = GeneralNames::from_list(alloc, names.to_general_names(alloc)?)?;
    Ok(equals(listed, names))
}
