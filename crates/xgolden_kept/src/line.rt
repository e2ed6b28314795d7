//! The line for a signature.

use anyhow::Result;
use authenticode_core::AuthenticodeError;
use authenticode_signature::{AuthenticodeSignature, SignatureCertificatesIterator};
use std::alloc::{AllocError, Global};
use x509_core::Cert;

/// Prints the signature in octets: its certificates, what is signed, and whether it is written as
/// it was read; or that they are no signature.
pub fn print_kept(alloc: Global, octets: &[u8], line: &mut String) -> Result<()> {
    match AuthenticodeSignature::from_der(alloc, octets) {
        Ok(signature) => print_signature(alloc, octets, &signature, line),
        Err(error) => Ok(print_unread(&error, line)?),
    }
}

/// Out of memory ends the run.
fn print_unread(error: &AuthenticodeError, line: &mut String) -> Result<(), AllocError> {
    match error {
        AuthenticodeError::Memory => Err(AllocError),
        _ => line.push_str("no signed data"),
    }
}

fn print_signature(
    alloc: Global,
    octets: &[u8],
    signature: &AuthenticodeSignature,
    line: &mut String,
) -> Result<()> {
    print_certificates(alloc, signature, line)?;
    print_hash(alloc, signature, line)?;
    print_counts(signature, line)?;
    print_written(alloc, octets, signature, line)
}

/// The number of certificates, and the indices of the signer's and its issuers'.
fn print_certificates(
    alloc: Global,
    signature: &AuthenticodeSignature,
    line: &mut String,
) -> Result<(), AllocError> {
    let certificates = signature.0.decode_certificates(alloc)?;
    write!(line, "{}", certificates.len())?;
    print_signer(alloc, signature, &certificates, line)
}

/// The certificates of the signer and its issuers, nothing if there is none.
fn print_signer(
    alloc: Global,
    signature: &AuthenticodeSignature,
    certificates: &[Cert],
    line: &mut String,
) -> Result<(), AllocError> {
    match &signature.signing_certificate(alloc, certificates) {
        Ok(signer) => print_places(signer, certificates, line),
        Err(AuthenticodeError::Memory) => Err(AllocError),
        Err(_) => Ok(()),
    }
}

/// The index of the signer's certificate, and those of the issuer walk, in parentheses if the
/// certificate has the signer's subject.
fn print_places(signer: &Cert, certificates: &[Cert], line: &mut String) -> Result<(), AllocError> {
    let place = place_of(signer, certificates, 0);
    write!(line, " {place}:")?;
    let mut from = 0;
    for next in SignatureCertificatesIterator::new(signer, certificates) {
        let place = place_of(next, certificates, from);
        print_place(place, has_subject_of(next, signer), line)?;
        from = place.saturating_add(1);
    }
    Ok(())
}

fn has_subject_of(certificate: &Cert, signer: &Cert) -> bool {
    certificate.view().subject() == signer.view().subject()
}

fn print_place(place: usize, is_signer: bool, line: &mut String) -> Result<(), AllocError> {
    if is_signer {
        write!(line, " ({place})")
    } else {
        write!(line, " {place}")
    }
}

/// The least index of the certificate, from one on, and the length of the list if it isn't there.
fn place_of(certificate: &Cert, certificates: &[Cert], from: usize) -> usize {
    for (place, one) in certificates.iter().enumerate() {
        if place >= from && *one == *certificate {
            return place;
        }
    }
    certificates.len()
}

/// The digest of the file.
fn print_hash(
    alloc: Global,
    signature: &AuthenticodeSignature,
    line: &mut String,
) -> Result<(), AllocError> {
    match signature.file_hash(alloc)? {
        Some(hash) => print_octets(alloc, " hash=", &hash, line),
        None => line.push_str(" hash=-"),
    }
}

/// A word, then octets in hexadecimal.
pub fn print_octets(
    alloc: Global,
    word: &str,
    octets: &[u8],
    line: &mut String,
) -> Result<(), AllocError> {
    let digits = hex::encode(alloc, octets)?;
    write!(line, "{word}{digits}")
}

/// The number of attributes of each kind of the first signer.
fn print_counts(signature: &AuthenticodeSignature, line: &mut String) -> Result<(), AllocError> {
    let signed = signature.authenticated_attributes();
    let unsigned = signature.unauthenticated_attributes();
    print_count("signed", signed.map(|attributes| attributes.len()), line)?;
    print_count(
        "unsigned",
        unsigned.map(|attributes| attributes.len()),
        line,
    )
}

fn print_count(name: &str, count: Option<usize>, line: &mut String) -> Result<(), AllocError> {
    match count {
        Some(count) => write!(line, " {name}={count}"),
        None => write!(line, " {name}=-"),
    }
}

/// Whether the signature is written as other octets than it was read from.
fn print_written(
    alloc: Global,
    octets: &[u8],
    signature: &AuthenticodeSignature,
    line: &mut String,
) -> Result<()> {
    if written(alloc, signature)?.as_slice() != octets {
        line.push_str(" written otherwise")?;
    }
    Ok(())
}

/// The encoding of a signature.
fn written(alloc: Global, signature: &AuthenticodeSignature) -> Result<Vec<u8>> {
    Ok(signature.to_der(alloc)?)
}

/// A word, then the encoding of a signature.
pub fn print_signature_octets(
    alloc: Global,
    word: &str,
    signature: &AuthenticodeSignature,
    line: &mut String,
) -> Result<()> {
    let octets = written(alloc, signature)?;
    Ok(print_octets(alloc, word, &octets, line)?)
}

/// Why there is no signature. Out of memory ends the run.
pub fn print_refused(error: &AuthenticodeError, line: &mut String) -> Result<(), AllocError> {
    match error {
        AuthenticodeError::Memory => Err(AllocError),
        _ => write!(line, "refused {error}"),
    }
}
