//! Signers and tokens that are made members of counter-signatures, and read back.

use crate::cms::structures::is_written;
use cms_types::{
    Pkcs7Certificate, SignerInfo, SignerValues, TokenValues, UnsignedAttribute,
    UnsignedAttributeList,
};
use der_core::{DerError, ListOf, Structure};
use std::alloc::{AllocError, Global};
use std::slice;
use xgolden::Line;

/// Prints the results for members.
pub fn print(alloc: Global, kind: &str, octets: &[u8], line: &mut Line) {
    match kind {
        "signer_info" => print_signers(alloc, octets, line),
        "pkcs7" => print_tokens(alloc, octets, line),
        "within" => print_within(alloc, octets, line),
        _ => line.no_call(),
    }
}

/// The number of members made from one signer, and the first and the second of them.
fn print_signers(alloc: Global, octets: &[u8], line: &mut Line) {
    match signers_of(alloc, octets) {
        Ok(values) => {
            line.shown(&values.as_slice().len());
            print_member(alloc, octets, values.get(alloc, 0), line);
            print_member(alloc, octets, values.get(alloc, 1), line);
        }
        Err(error) => line.shown(&error),
    }
}

/// The values with the one signer in the octets.
fn signers_of(alloc: Global, octets: &[u8]) -> Result<SignerValues, DerError> {
    values_of_signer(alloc, SignerInfo::from_der(alloc, octets)?)
}

/// The values with one signer, which is dropped.
fn values_of_signer(alloc: Global, signer: SignerInfo) -> Result<SignerValues, DerError> {
    let values = SignerValues::from_signers(alloc, slice::from_ref(&signer));
    drop(signer);
    values
}

/// The number of members made from one token, and the first and the second of them.
fn print_tokens(alloc: Global, octets: &[u8], line: &mut Line) {
    match tokens_of(alloc, octets) {
        Ok(values) => {
            line.shown(&values.as_slice().len());
            print_member(alloc, octets, values.get(alloc, 0), line);
            print_member(alloc, octets, values.get(alloc, 1), line);
        }
        Err(error) => line.shown(&error),
    }
}

/// The values with the one token in the octets.
fn tokens_of(alloc: Global, octets: &[u8]) -> Result<TokenValues, DerError> {
    values_of_token(alloc, Pkcs7Certificate::from_der(alloc, octets)?)
}

/// The values with one token, which is dropped.
fn values_of_token(alloc: Global, token: Pkcs7Certificate) -> Result<TokenValues, DerError> {
    let values = TokenValues::from_tokens(alloc, slice::from_ref(&token));
    drop(token);
    values
}

/// Whether a member and its copy are written as the octets, or that there is none.
fn print_member<T: Structure>(
    alloc: Global,
    octets: &[u8],
    member: Result<Option<T>, AllocError>,
    line: &mut Line,
) {
    match member {
        Ok(Some(value)) => line.same(is_written(alloc, octets, &value)),
        Ok(None) => line.word("none"),
        Err(error) => line.shown(&error),
    }
}

/// The length of a signer with itself as a counter-signature; or that it is too deep.
fn print_within(alloc: Global, octets: &[u8], line: &mut Line) {
    match within(alloc, octets) {
        Ok(values) => print_first_length(&values, line),
        Err(DerError::TooDeep) => line.word("TooDeep"),
        Err(error) => line.shown(&error),
    }
}

fn within(alloc: Global, octets: &[u8]) -> Result<SignerValues, DerError> {
    let attributes = counter_signed(alloc, octets)?;
    let signer = SignerInfo::from_der(alloc, octets)?;
    values_of_signer(alloc, with_unsigned(signer, attributes))
}

/// The attributes of a signer that is counter-signed by the one in the octets.
fn counter_signed(alloc: Global, octets: &[u8]) -> Result<UnsignedAttributeList, DerError> {
    let mut attributes = ListOf::new(alloc);
    attributes.push(UnsignedAttribute::CounterSign(signers_of(alloc, octets)?))?;
    Ok(attributes)
}

fn with_unsigned(mut signer: SignerInfo, attributes: UnsignedAttributeList) -> SignerInfo {
    signer.unsigned_attrs = Some(attributes);
    signer
}

/// The length of the first member.
fn print_first_length(values: &SignerValues, line: &mut Line) {
    match values.as_slice() {
        [first] => line.shown(&first.as_bytes().len()),
        _ => line.word("other"),
    }
}
