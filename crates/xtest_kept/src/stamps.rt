//! Timestamping signatures with fixed tokens.

use crate::samples::{EMPTY, SIGNATURE, is_spelled, signature, timestamper};
use authenticode_core::{AuthenticodeError, TimestampError};
use authenticode_signature::{AuthenticodeSignature, TokenTimestamper};
use cms_types::UnsignedAttribute;
use sig_core::HashAlgorithm;
use std::alloc::Global;
use std::test::Fail;

/// The result of timestamping.
#[derive(Clone, Copy, Debug, PartialEq, Eq)]
enum Outcome {
    /// One more certificate, and a counter-signature where there was no unsigned attribute.
    Stamped,
    /// Refused as a token without signers, and nothing changed.
    EmptyToken,
    /// Refused as a signature without signers, and nothing changed.
    NoSigner,
    Other,
}

/// The result of timestamping the signature in the octets with a token.
fn outcome_by(alloc: Global, octets: &[u8], token: &[u8]) -> Outcome {
    match signature(alloc, octets) {
        Some(mut signature) => outcome_of(alloc, &mut signature, octets, token),
        None => Outcome::Other,
    }
}

fn outcome_of(
    alloc: Global,
    signature: &mut AuthenticodeSignature,
    octets: &[u8],
    token: &[u8],
) -> Outcome {
    let before = counts(alloc, signature);
    let answer = stamped(alloc, signature, token);
    let is_consistent = match answer {
        Outcome::Stamped => before == (1, 0) && counts(alloc, signature) == (2, 1),
        _ => is_spelled(alloc, signature, octets),
    };
    if is_consistent {
        answer
    } else {
        Outcome::Other
    }
}

/// The number of certificates of a signature, and of its counter-signatures; 9 if there is none.
fn counts(alloc: Global, signature: &AuthenticodeSignature) -> (usize, usize) {
    (certificate_count(alloc, signature), stamp_count(signature))
}

fn certificate_count(alloc: Global, signature: &AuthenticodeSignature) -> usize {
    match signature.0.decode_certificates(alloc) {
        Ok(certificates) => certificates.len(),
        Err(_) => 9,
    }
}

fn stamp_count(signature: &AuthenticodeSignature) -> usize {
    match signature.unauthenticated_attributes() {
        None | Some([]) => 0,
        Some([UnsignedAttribute::CounterSign(values)]) => values.as_slice().len(),
        Some(_) => 9,
    }
}

/// The result of timestamping the signature with a copy of a timestamper with the token.
fn stamped(alloc: Global, signature: &mut AuthenticodeSignature, token: &[u8]) -> Outcome {
    match timestamper(alloc, token) {
        Some(timestamper) => stamped_by_copy(alloc, signature, &timestamper),
        None => Outcome::Other,
    }
}

fn stamped_by_copy(
    alloc: Global,
    signature: &mut AuthenticodeSignature,
    timestamper: &TokenTimestamper,
) -> Outcome {
    match timestamper.try_clone(alloc) {
        Ok(mut copy) => stamped_by(alloc, signature, &mut copy),
        Err(_) => Outcome::Other,
    }
}

fn stamped_by(
    alloc: Global,
    signature: &mut AuthenticodeSignature,
    timestamper: &mut TokenTimestamper,
) -> Outcome {
    match signature.timestamp(alloc, timestamper, HashAlgorithm::SHA2_256) {
        Ok(()) => Outcome::Stamped,
        Err(error) => refusal(&error),
    }
}

fn refusal(error: &AuthenticodeError) -> Outcome {
    match error {
        AuthenticodeError::TimestampError(TimestampError::TimestampTokenEmpty) => {
            Outcome::EmptyToken
        }
        AuthenticodeError::MultipleSignerInfo { count: 0 } => Outcome::NoSigner,
        _ => Outcome::Other,
    }
}

/// A signature, a token, and the result of timestamping the one with the other.
const STAMPS: [(&str, &str, Outcome); 3] = [
    (SIGNATURE, SIGNATURE, Outcome::Stamped),
    (SIGNATURE, EMPTY, Outcome::EmptyToken),
    (EMPTY, SIGNATURE, Outcome::NoSigner),
];

#[test]
fn signatures_are_stamped(rt: HostRuntime) -> Result<(), Fail> {
    for (signature, token, wanted) in &STAMPS {
        let signature = hex::decode(rt.alloc(), signature)?;
        let token = hex::decode(rt.alloc(), token)?;
        assert_eq!(rt; outcome_by(rt.alloc(), &signature, &token), *wanted);
    }
    Ok(())
}
