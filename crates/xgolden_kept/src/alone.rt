//! The line for certificates without signers.

use crate::line::print_octets;
use crate::words::certificates_of;
use anyhow::Result;
use authenticode_signature::Pkcs7;
use std::alloc::Global;

/// Prints signed data with the certificates of signed data, and nothing else.
pub fn print_alone(alloc: Global, signed_data: &str, line: &mut String) -> Result<()> {
    let certificates = certificates_of(alloc, signed_data)?;
    let alone = Pkcs7::of_certificates(alloc, &certificates)?;
    let octets = alone.to_der(alloc)?;
    Ok(print_octets(alloc, "alone ", &octets, line)?)
}
