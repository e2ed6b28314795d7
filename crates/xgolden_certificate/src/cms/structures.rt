//! Structures that are read from elements, copied and written again.

use crate::cms::details::Details;
use cms_types::{
    CTLEntry, CTLEntryAttribute, Ctl, DigestInfo, EncapsulatedContentInfo, Pkcs7Certificate,
    SignedData, SignerInfo, SpcAttributeTypeAndOptionalValue, SpcIndirectDataContent, SpcLink,
    SpcSpOpusInfo, SpcString, TimestampRequest, UnsignedAttribute,
};
use der_core::{DerError, DerFault, Malformed, Structure};
use std::alloc::Global;
use xgolden::{Line, are_equal, comes_back, value_of};

/// Prints what is read from an element.
pub fn print(alloc: Global, kind: &str, element: &[u8], line: &mut Line) {
    match kind {
        "digest_info" => read_of::<DigestInfo>(alloc, element, line),
        "attribute" => read_of::<SpcAttributeTypeAndOptionalValue>(alloc, element, line),
        "indirect_data" => read_of::<SpcIndirectDataContent>(alloc, element, line),
        "string" => read_of::<SpcString>(alloc, element, line),
        "link" => read_of::<SpcLink>(alloc, element, line),
        "opus_info" => read_of::<SpcSpOpusInfo>(alloc, element, line),
        "content_info" => read_of::<EncapsulatedContentInfo>(alloc, element, line),
        _ => print_signed(alloc, kind, element, line),
    }
}

/// The same for trust lists and for the parts of signed data.
fn print_signed(alloc: Global, kind: &str, element: &[u8], line: &mut Line) {
    match kind {
        "trust_list" => read_of::<Ctl>(alloc, element, line),
        "entry" => back_of::<CTLEntry>(alloc, element, line),
        "entry_attribute" => back_of::<CTLEntryAttribute>(alloc, element, line),
        "timestamp_request" => read_of::<TimestampRequest>(alloc, element, line),
        "unsigned_attribute" => read_of::<UnsignedAttribute>(alloc, element, line),
        "signer_info" => read_of::<SignerInfo>(alloc, element, line),
        "signed_data" => read_of::<SignedData>(alloc, element, line),
        "pkcs7" => read_of::<Pkcs7Certificate>(alloc, element, line),
        _ => line.no_call(),
    }
}

/// Whether two elements encode equal values.
pub fn print_unlike(alloc: Global, kind: &str, (one, other): (&[u8], &[u8]), line: &mut Line) {
    let equal = match kind {
        "digest_info" => are_equal::<DigestInfo>(alloc, one, other),
        "attribute" => are_equal::<SpcAttributeTypeAndOptionalValue>(alloc, one, other),
        "indirect_data" => are_equal::<SpcIndirectDataContent>(alloc, one, other),
        "string" => are_equal::<SpcString>(alloc, one, other),
        "link" => are_equal::<SpcLink>(alloc, one, other),
        "opus_info" => are_equal::<SpcSpOpusInfo>(alloc, one, other),
        "content_info" => are_equal::<EncapsulatedContentInfo>(alloc, one, other),
        "trust_list" => are_equal::<Ctl>(alloc, one, other),
        "timestamp_request" => are_equal::<TimestampRequest>(alloc, one, other),
        "unsigned_attribute" => are_equal::<UnsignedAttribute>(alloc, one, other),
        "signer_info" => are_equal::<SignerInfo>(alloc, one, other),
        "signed_data" => are_equal::<SignedData>(alloc, one, other),
        "pkcs7" => are_equal::<Pkcs7Certificate>(alloc, one, other),
        _ => return line.no_call(),
    };
    line.equal(equal);
}

/// Whether the value round-trips, and its details; or that there is none.
fn read_of<T: Structure + PartialEq + Details>(alloc: Global, element: &[u8], line: &mut Line) {
    match value_of::<T>(alloc, element) {
        Ok(value) => print_value(alloc, element, &value, line),
        Err(error) => print_refused(error, line),
    }
}

fn print_value<T: Structure + PartialEq + Details>(
    alloc: Global,
    element: &[u8],
    value: &T,
    line: &mut Line,
) {
    line.same(comes_back(alloc, element, value));
    value.print(line);
}

/// Whether the value and its copy are written as the octets that were read, and its details; or
/// that there is none.
fn back_of<T: Structure + Details>(alloc: Global, octets: &[u8], line: &mut Line) {
    match T::from_der(alloc, octets) {
        Ok(value) => print_written(alloc, octets, &value, line),
        Err(error) => line.refused(error),
    }
}

fn print_written<T: Structure + Details>(alloc: Global, octets: &[u8], value: &T, line: &mut Line) {
    line.same(is_written(alloc, octets, value));
    value.print(line);
}

/// Whether a value and its copy are written as the octets.
pub fn is_written<T: Structure>(alloc: Global, octets: &[u8], value: &T) -> Result<bool, DerError> {
    let written = value.to_der(alloc)?;
    let copied = value.try_clone(alloc)?.to_der(alloc)?;
    Ok(written.as_slice() == octets && copied.as_slice() == octets)
}

/// Prints a refusal; `TooDeep` as one word.
fn print_refused(error: DerError, line: &mut Line) {
    match error {
        DerError::Malformed(
            Malformed {
                fault: DerFault::TooDeep,
                ..
            },
        ) => line.word("TooDeep"),
        error => line.refused(error),
    }
}
