//! Printing a value, beside whether it round-trips.

use asn1_types::{BitString, Ia5String, IntegerAsn1, ObjectIdentifier};
use key_core::{PrivateKeyInfo, PrivateKeyValue};
use key_types::{ECPrivateKey, RsaPrivateKey};
use names_core::DirectoryName;
use std::alloc::Global;
use x509_types::{
    AlgorithmIdentifier, Attribute, AttributeTypeAndValue, AttributeValue, DirectoryString,
    Extension, RawGeneralNames, RelativeDistinguishedName, RsaPublicKey, SubjectKey,
    SubjectPublicKeyInfo, Validity,
};
use xgolden::{
    Line, Unanswered, print_attribute, print_bits, print_extension, print_general_names,
    print_time_form,
};

/// A value whose details are printed.
pub trait Details {
    fn print(&self, alloc: Global, line: &mut Line);
}

impl Details for IntegerAsn1 {
    fn print(&self, _alloc: Global, line: &mut Line) {
        line.octets(self.as_signed_bytes_be());
    }
}

impl Details for BitString {
    fn print(&self, _alloc: Global, line: &mut Line) {
        print_bits(self, line);
    }
}

impl Details for ObjectIdentifier {
    fn print(&self, _alloc: Global, line: &mut Line) {
        line.shown(self);
    }
}

impl Details for Ia5String {
    fn print(&self, _alloc: Global, line: &mut Line) {
        line.octets(self.as_str().as_bytes());
    }
}

impl Details for AlgorithmIdentifier {
    fn print(&self, _alloc: Global, line: &mut Line) {
        line.shown(self.oid());
        match self.parameters() {
            Some(parameters) => line.octets(parameters.as_bytes()),
            None => line.word("none"),
        }
    }
}

impl Details for RsaPrivateKey {
    fn print(&self, _alloc: Global, line: &mut Line) {
        let numbers = [
            &self.n, &self.e, &self.d, &self.p, &self.q, &self.dp, &self.dq, &self.qinv,
        ];
        for number in numbers {
            line.octets(number.as_signed_bytes_be());
        }
    }
}

impl Details for ECPrivateKey {
    fn print(&self, alloc: Global, line: &mut Line) {
        line.octets(self.private_key.as_slice());
        print_option(alloc, &self.parameters, line);
        print_option(alloc, &self.public_key, line);
    }
}

impl Details for PrivateKeyInfo {
    fn print(&self, alloc: Global, line: &mut Line) {
        line.named(&self.version);
        self.private_key_algorithm.print(alloc, line);
        line.named(&self.private_key.kind());
        self.private_key.print(alloc, line);
        match &self.attributes {
            Some(attributes) => line.octets(attributes.as_bytes()),
            None => line.word("none"),
        }
        print_option(alloc, &self.public_key, line);
    }
}

impl Details for PrivateKeyValue {
    fn print(&self, alloc: Global, line: &mut Line) {
        match self {
            PrivateKeyValue::Rsa(key) => key.print(alloc, line),
            PrivateKeyValue::Ec(key) => key.print(alloc, line),
            PrivateKeyValue::Ed(octets) => line.octets(octets.as_slice()),
        }
    }
}

/// The details of an optional value.
fn print_option<T: Details>(alloc: Global, value: &Option<T>, line: &mut Line) {
    match value {
        Some(value) => value.print(alloc, line),
        None => line.word("none"),
    }
}

impl Details for RsaPublicKey {
    fn print(&self, _alloc: Global, line: &mut Line) {
        line.octets(self.modulus.as_unsigned_bytes_be());
        line.octets(self.public_exponent.as_unsigned_bytes_be());
    }
}

impl Details for SubjectPublicKeyInfo {
    fn print(&self, alloc: Global, line: &mut Line) {
        line.named(&self.subject_public_key.kind());
        self.algorithm.print(alloc, line);
        match &self.subject_public_key {
            SubjectKey::Rsa(key) => key.print(alloc, line),
            SubjectKey::Ec(bits) | SubjectKey::Ed(bits) | SubjectKey::Mldsa(bits) => {
                bits.print(alloc, line);
            }
        }
    }
}

impl Details for Extension {
    fn print(&self, alloc: Global, line: &mut Line) {
        print_extension(alloc, self, line);
    }
}

impl Details for Attribute {
    fn print(&self, alloc: Global, line: &mut Line) {
        print_attribute(alloc, self, line);
    }
}

impl Details for RawGeneralNames {
    fn print(&self, _alloc: Global, line: &mut Line) {
        print_general_names(self, line);
    }
}

impl Details for Validity {
    fn print(&self, _alloc: Global, line: &mut Line) {
        print_time_form(&self.not_before, line);
        print_time_form(&self.not_after, line);
    }
}

impl Details for DirectoryString {
    fn print(&self, alloc: Global, line: &mut Line) {
        let (name, octets) = match self {
            DirectoryString::PrintableString(octets) => ("PrintableString", octets),
            DirectoryString::Utf8String(octets) => ("Utf8String", octets),
            DirectoryString::TeletexString(octets) => ("TeletexString", octets),
            DirectoryString::BmpString(octets) => ("BmpString", octets),
        };
        line.word(name);
        line.octets(octets.as_slice());
        match self.to_utf8_lossy(alloc) {
            Ok(text) => line.octets(text.as_bytes()),
            Err(_) => line.lose(Unanswered::Memory),
        }
    }
}

impl Details for AttributeValue {
    fn print(&self, alloc: Global, line: &mut Line) {
        match self {
            AttributeValue::DirectoryString(string) => string.print(alloc, line),
            AttributeValue::Ia5String(string) => {
                line.word("Ia5String");
                line.octets(string.as_str().as_bytes());
                line.text(self);
            }
            AttributeValue::Other(other) => {
                line.word("Other");
                line.octets(other.element().as_bytes());
                line.text(self);
            }
        }
    }
}

impl Details for AttributeTypeAndValue {
    fn print(&self, alloc: Global, line: &mut Line) {
        line.shown(&self.ty);
        self.value.print(alloc, line);
    }
}

impl Details for RelativeDistinguishedName {
    fn print(&self, _alloc: Global, line: &mut Line) {
        line.shown(&self.as_slice().len());
    }
}

impl Details for DirectoryName {
    fn print(&self, alloc: Global, line: &mut Line) {
        line.text(self);
        match self.find_common_name() {
            Some(string) => string.print(alloc, line),
            None => line.word("none"),
        }
    }
}
