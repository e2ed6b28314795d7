//! Printing a value, beside whether it round-trips.

use asn1_types::ObjectIdentifier;
use cms_types::{
    CTLEntry, CTLEntryAttribute, CTLEntryAttributeValues, ContentValue, Ctl, DigestInfo,
    EncapsulatedContentInfo, HeldPurposes, Pkcs7Certificate, SignedData, SignerIdentifier,
    SignerInfo, SpcAttributeTypeAndOptionalValue, SpcIndirectDataContent, SpcLink, SpcSpOpusInfo,
    SpcString, TimestampRequest, UnsignedAttribute,
};
use der_core::{Octets, Raw};
use xgolden::Line;

/// A value whose details are printed.
pub trait Details {
    fn print(&self, line: &mut Line);
}

impl Details for DigestInfo {
    fn print(&self, line: &mut Line) {
        line.shown(self.oid.oid());
        line.given(self.oid.parameters().map(Raw::as_bytes));
        line.octets(self.digest.as_slice());
    }
}

impl Details for SpcAttributeTypeAndOptionalValue {
    fn print(&self, line: &mut Line) {
        line.shown(&self.ty);
        print_option(&self.value, line);
    }
}

impl Details for SpcIndirectDataContent {
    fn print(&self, line: &mut Line) {
        self.image.print(line);
        self.message_digest.print(line);
    }
}

impl Details for SpcString {
    fn print(&self, line: &mut Line) {
        line.octets(self.as_bytes());
    }
}

impl Details for SpcLink {
    fn print(&self, line: &mut Line) {
        line.octets(self.url.as_slice());
    }
}

impl Details for SpcSpOpusInfo {
    fn print(&self, line: &mut Line) {
        print_option(&self.program_name, line);
        print_option(&self.more_info, line);
    }
}

impl Details for EncapsulatedContentInfo {
    fn print(&self, line: &mut Line) {
        line.shown(&self.content_type);
        print_option(&self.content, line);
    }
}

impl Details for ContentValue {
    fn print(&self, line: &mut Line) {
        match self {
            ContentValue::SpcIndirectDataContent(content) => content.print(line),
            ContentValue::CertificateTrustList(list) => list.print(line),
            ContentValue::Data(octets) => {
                line.word("data");
                line.octets(octets.as_slice());
            }
            ContentValue::Other(element) => line.octets(element.as_bytes()),
        }
    }
}

impl Details for TimestampRequest {
    fn print(&self, line: &mut Line) {
        line.shown(&self.countersignature_type);
        self.content.print(line);
    }
}

impl Details for Ctl {
    fn print(&self, line: &mut Line) {
        line.word("list");
        print_all(self.entries(), line);
    }
}

impl Details for CTLEntry {
    fn print(&self, line: &mut Line) {
        line.octets(self.subject_identifier.as_slice());
        print_all(self.attributes.as_slice(), line);
    }
}

impl Details for CTLEntryAttribute {
    fn print(&self, line: &mut Line) {
        match &self.value {
            CTLEntryAttributeValues::CertSubjectNameMd5HashPropId(hashes) => {
                line.word("hashes");
                print_all(hashes.as_slice(), line);
            }
            CTLEntryAttributeValues::CertDisallowedFileTimePropId(times) => {
                line.word("disallowed");
                print_all(times.as_slice(), line);
            }
            CTLEntryAttributeValues::UnknownReservedPropId126(times) => {
                line.word("starts");
                print_all(times.as_slice(), line);
            }
            CTLEntryAttributeValues::UnknownReservedPropId127(purposes) => {
                line.word("purposes");
                print_all(purposes.as_slice(), line);
            }
            CTLEntryAttributeValues::Other(values) => {
                line.shown(&self.oid);
                print_all(values.as_slice(), line);
            }
        }
    }
}

impl Details for HeldPurposes {
    fn print(&self, line: &mut Line) {
        print_all(self.purposes(), line);
    }
}

impl Details for ObjectIdentifier {
    fn print(&self, line: &mut Line) {
        line.shown(self);
    }
}

impl Details for Octets {
    fn print(&self, line: &mut Line) {
        line.octets(self.as_slice());
    }
}

impl Details for Raw {
    fn print(&self, line: &mut Line) {
        line.octets(self.as_bytes());
    }
}

impl Details for SignerIdentifier {
    fn print(&self, line: &mut Line) {
        match self {
            SignerIdentifier::IssuerAndSerialNumber(named) => {
                line.shown(&named.issuer);
                line.octets(named.serial_number.as_signed_bytes_be());
            }
            SignerIdentifier::SubjectKeyIdentifier(octets) => {
                line.word("key");
                line.octets(octets.as_slice());
            }
        }
    }
}

impl Details for UnsignedAttribute {
    fn print(&self, line: &mut Line) {
        match self {
            UnsignedAttribute::CounterSign(values) => {
                line.word("signers");
                line.shown(&values.as_slice().len());
            }
            UnsignedAttribute::MsCounterSign(values) => {
                line.word("tokens");
                line.shown(&values.as_slice().len());
            }
            UnsignedAttribute::Raw(attribute) => {
                line.shown(&attribute.ty);
                line.shown(&attribute.values.len());
            }
        }
    }
}

impl Details for SignerInfo {
    fn print(&self, line: &mut Line) {
        line.shown(&self.version.number());
        self.sid.print(line);
        line.shown(self.digest_algorithm.oid());
        match &self.signed_attrs {
            Some(attributes) => line.shown(&attributes.list().len()),
            None => line.word("none"),
        }
        line.shown(self.signature_algorithm.oid());
        line.octets(self.signature.as_slice());
        match &self.unsigned_attrs {
            Some(attributes) => print_all(attributes.as_slice(), line),
            None => line.word("none"),
        }
    }
}

impl Details for SignedData {
    fn print(&self, line: &mut Line) {
        line.shown(&self.version.number());
        line.shown(&self.digest_algorithms.len());
        self.content_info.print(line);
        match &self.certificates {
            Some(list) => line.shown(&list.len()),
            None => line.word("none"),
        }
        match &self.crls {
            Some(list) => line.shown(&list.len()),
            None => line.word("none"),
        }
        print_all(self.signers_infos.as_slice(), line);
    }
}

impl Details for Pkcs7Certificate {
    fn print(&self, line: &mut Line) {
        self.signed_data.print(line);
    }
}

/// The details of values in order, in brackets.
fn print_all<T: Details>(values: &[T], line: &mut Line) {
    line.word("[");
    for value in values {
        value.print(line);
    }
    line.word("]");
}

/// The details of an optional value.
fn print_option<T: Details>(value: &Option<T>, line: &mut Line) {
    match value {
        Some(value) => value.print(line),
        None => line.word("none"),
    }
}
