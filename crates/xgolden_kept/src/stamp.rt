//! The line for a timestamped signature.

use crate::line::{print_refused, print_signature_octets};
use anyhow::Result;
use authenticode_signature::{AuthenticodeSignature, TokenTimestamper};
use sig_core::HashAlgorithm;
use std::alloc::Global;

/// Prints the signature in octets, timestamped by a token.
pub fn print_stamped(alloc: Global, octets: &[u8], token: &[u8], line: &mut String) -> Result<()> {
    let mut signature = signature_of(alloc, octets)?;
    let mut timestamper = timestamper_of(alloc, token)?;
    print_stamp(alloc, &mut signature, &mut timestamper, line)
}

fn timestamper_of(alloc: Global, token: &[u8]) -> Result<TokenTimestamper> {
    Ok(TokenTimestamper::from_der(alloc, token)?)
}

fn signature_of(alloc: Global, octets: &[u8]) -> Result<AuthenticodeSignature> {
    Ok(AuthenticodeSignature::from_der(alloc, octets)?)
}

/// Prints the encoding of the timestamped signature, or why it isn't timestamped.
fn print_stamp(
    alloc: Global,
    signature: &mut AuthenticodeSignature,
    timestamper: &mut TokenTimestamper,
    line: &mut String,
) -> Result<()> {
    match signature.timestamp(alloc, timestamper, HashAlgorithm::SHA2_256) {
        Ok(()) => print_signature_octets(alloc, "stamped ", signature, line),
        Err(error) => Ok(print_refused(&error, line)?),
    }
}
