//! Structures that are read from elements, copied and written again.

use crate::structure::details::Details;
use asn1_types::{BitString, Ia5String, IntegerAsn1, ObjectIdentifier};
use der_core::Structure;
use key_core::PrivateKeyInfo;
use key_types::{ECPrivateKey, RsaPrivateKey};
use names_core::DirectoryName;
use std::alloc::Global;
use x509_types::{
    AlgorithmIdentifier, Attribute, AttributeTypeAndValue, AttributeValue, DirectoryString,
    Extension, RawGeneralNames, RelativeDistinguishedName, RsaPublicKey, SubjectPublicKeyInfo,
    Validity,
};
use xgolden::{Line, are_equal, comes_back, value_of};

/// Prints what is read from an element.
pub fn print(alloc: Global, kind: &str, element: &[u8], line: &mut Line) {
    match kind {
        "integer" => read_of::<IntegerAsn1>(alloc, element, line),
        "bits" => read_of::<BitString>(alloc, element, line),
        "identifier" => read_of::<ObjectIdentifier>(alloc, element, line),
        "ia5" => read_of::<Ia5String>(alloc, element, line),
        "directory_string" => read_of::<DirectoryString>(alloc, element, line),
        "value" => read_of::<AttributeValue>(alloc, element, line),
        "attribute" => read_of::<AttributeTypeAndValue>(alloc, element, line),
        "set" => read_of::<RelativeDistinguishedName>(alloc, element, line),
        "name" => read_of::<DirectoryName>(alloc, element, line),
        _ => print_extension(alloc, kind, element, line),
    }
}

/// The same for extensions, attributes and what is in them.
fn print_extension(alloc: Global, kind: &str, element: &[u8], line: &mut Line) {
    match kind {
        "extension" => read_of::<Extension>(alloc, element, line),
        "general_names" => read_of::<RawGeneralNames>(alloc, element, line),
        "validity" => read_of::<Validity>(alloc, element, line),
        "valued_attribute" => read_of::<Attribute>(alloc, element, line),
        _ => print_key(alloc, kind, element, line),
    }
}

/// The same for keys and their algorithms.
fn print_key(alloc: Global, kind: &str, element: &[u8], line: &mut Line) {
    match kind {
        "algorithm" => read_of::<AlgorithmIdentifier>(alloc, element, line),
        "rsa_key" => read_of::<RsaPublicKey>(alloc, element, line),
        "rsa_private_key" => read_of::<RsaPrivateKey>(alloc, element, line),
        "ec_private_key" => read_of::<ECPrivateKey>(alloc, element, line),
        "private_key_info" => read_of::<PrivateKeyInfo>(alloc, element, line),
        "key" => read_of::<SubjectPublicKeyInfo>(alloc, element, line),
        _ => line.no_call(),
    }
}

/// Whether two elements encode equal values.
pub fn print_unlike(alloc: Global, kind: &str, (one, other): (&[u8], &[u8]), line: &mut Line) {
    let equal = match kind {
        "integer" => are_equal::<IntegerAsn1>(alloc, one, other),
        "bits" => are_equal::<BitString>(alloc, one, other),
        "identifier" => are_equal::<ObjectIdentifier>(alloc, one, other),
        "ia5" => are_equal::<Ia5String>(alloc, one, other),
        "algorithm" => are_equal::<AlgorithmIdentifier>(alloc, one, other),
        "rsa_private_key" => are_equal::<RsaPrivateKey>(alloc, one, other),
        "ec_private_key" => are_equal::<ECPrivateKey>(alloc, one, other),
        "private_key_info" => are_equal::<PrivateKeyInfo>(alloc, one, other),
        "key" => are_equal::<SubjectPublicKeyInfo>(alloc, one, other),
        "name" => are_equal::<DirectoryName>(alloc, one, other),
        "extension" => are_equal::<Extension>(alloc, one, other),
        "general_names" => are_equal::<RawGeneralNames>(alloc, one, other),
        "validity" => are_equal::<Validity>(alloc, one, other),
        "valued_attribute" => are_equal::<Attribute>(alloc, one, other),
        _ => return line.no_call(),
    };
    line.equal(equal);
}

/// Whether the value round-trips, and its details; or that there is none.
fn read_of<T: Structure + PartialEq + Details>(alloc: Global, element: &[u8], line: &mut Line) {
    match value_of::<T>(alloc, element) {
        Ok(value) => print_value(alloc, element, &value, line),
        Err(error) => line.refused(error),
    }
}

fn print_value<T: Structure + PartialEq + Details>(
    alloc: Global,
    element: &[u8],
    value: &T,
    line: &mut Line,
) {
    line.same(comes_back(alloc, element, value));
    value.print(alloc, line);
}
