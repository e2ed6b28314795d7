//! Signature algorithms by OID, signing with private keys, verifying signatures, and key
//! identifiers.

use crate::structure::private_keys::{key_of, print_refusal};
use asn1_types::BitString;
use der_core::Structure;
use key_core::{
    AlgorithmIdentifier, KeyIdGenMethod, PrivateKey, PublicKey, SignatureAlgorithm, SubjectKey,
    SubjectPublicKeyInfo,
};
use sig_core::{DemoScheme, HashAlgorithm, Scheme, VerdictTable};
use std::alloc::Global;
use xgolden::{Args, Line, NoValue, Unanswered};

/// Prints the output about algorithms, keys and signatures.
pub fn print(alloc: Global, call: &str, args: Args<'_>, line: &mut Line) {
    match (call, args.words, args.octets) {
        ("named", _, [Some(octets)]) => print_named(alloc, octets, line),
        ("key_id", [method, hash, ..], [_, _, key @ ..]) => {
            print_key_id(alloc, (method, hash), key, line)
        }
        (_, [algorithm, ..], [_, octets @ ..]) => match algorithm_of(algorithm) {
            Some(algorithm) => print_use(alloc, (call, algorithm), args, octets, line),
            None => line.no_call(),
        },
        _ => line.no_call(),
    }
}

/// Prints the AlgorithmIdentifier of an algorithm, a signature by it, or the verdict on a
/// signature.
fn print_use(
    alloc: Global,
    (call, algorithm): (&str, SignatureAlgorithm),
    args: Args<'_>,
    octets: &[Option<Vec<u8>>],
    line: &mut Line,
) {
    match (call, args.words, octets) {
        ("written", _, []) => print_written(alloc, algorithm, line),
        ("sign", [_, _, call, words @ ..], [Some(message), _, octets @ ..]) => {
            print_sign(
                alloc,
                algorithm,
                message,
                call,
                Args { words, octets },
                line,
            )
        }
        ("verify", _, [Some(key), Some(message), Some(signature)]) => {
            print_verify(alloc, algorithm, key, (message, signature), line)
        }
        _ => line.no_call(),
    }
}

/// The algorithm and its digest by AlgorithmIdentifier, and the one that is written for it; or the
/// text of the refusal.
fn print_named(alloc: Global, octets: &[u8], line: &mut Line) {
    match AlgorithmIdentifier::from_der(alloc, octets) {
        Ok(id) => print_identified(alloc, &id, line),
        Err(error) => line.shown(&error),
    }
}

fn print_identified(alloc: Global, id: &AlgorithmIdentifier, line: &mut Line) {
    match SignatureAlgorithm::from_algorithm_identifier(alloc, id) {
        Ok(algorithm) => {
            line.named(&algorithm);
            line.word(algorithm.hash_algorithm().name());
            print_written(alloc, algorithm, line);
        }
        Err(error) => line.shown(&error),
    }
}

/// The octets of the AlgorithmIdentifier of an algorithm, or the text of the refusal.
fn print_written(alloc: Global, algorithm: SignatureAlgorithm, line: &mut Line) {
    match algorithm.to_algorithm_identifier(alloc) {
        Ok(id) => line.made(id.to_der(alloc)),
        Err(error) => line.shown(&error),
    }
}

/// A key identifier, or the text of the refusal.
fn print_key_id(
    alloc: Global,
    (method, hash): (&str, &str),
    key: &[Option<Vec<u8>>],
    line: &mut Line,
) {
    match (method_of(method, hash), key) {
        (Some(method), [Some(octets)]) => print_id(alloc, method, octets, line),
        (Some(method), [Some(algorithm), Some(bits)]) => {
            print_id_of_bits(alloc, method, (algorithm, bits), line)
        }
        _ => line.no_call(),
    }
}

fn method_of(word: &str, hash: &str) -> Option<KeyIdGenMethod> {
    match word {
        "whole" => hash_of(hash).map(KeyIdGenMethod::SPKFullDER),
        "leftmost" => hash_of(hash).map(KeyIdGenMethod::SPKValueHashedLeftmost160),
        _ => None,
    }
}

fn print_id(alloc: Global, method: KeyIdGenMethod, octets: &[u8], line: &mut Line) {
    match PublicKey::from_der(alloc, octets) {
        Ok(key) => line.made(method.generate_from(alloc, &key)),
        Err(error) => line.shown(&error),
    }
}

/// The same for a Curve25519 or Curve448 key by the octets of its algorithm and its bits, which
/// needn't be one that can be written.
fn print_id_of_bits(
    alloc: Global,
    method: KeyIdGenMethod,
    (algorithm, bits): (&[u8], &[u8]),
    line: &mut Line,
) {
    match key_of_bits(alloc, algorithm, bits) {
        Ok(key) => line.made(method.generate_from(alloc, &key)),
        Err(why) => why.print(line),
    }
}

fn key_of_bits(alloc: Global, algorithm: &[u8], bits: &[u8]) -> Result<PublicKey, NoValue> {
    let algorithm = AlgorithmIdentifier::from_der(alloc, algorithm)?;
    let bits = BitString::with_bytes(alloc, bits)?;
    let info = SubjectPublicKeyInfo::new(algorithm, SubjectKey::Ed(bits));
    Ok(PublicKey::from(info.ok_or(Unanswered::NoCall)?))
}

/// Prints the signature by the key under the demonstration scheme, and under an empty table.
fn print_sign(
    alloc: Global,
    algorithm: SignatureAlgorithm,
    message: &[u8],
    call: &str,
    args: Args<'_>,
    line: &mut Line,
) {
    match key_of(alloc, call, args) {
        Ok(key) => print_signatures(alloc, algorithm, message, &key, line),
        Err(why) => print_refusal(why, line),
    }
}

fn print_signatures(
    alloc: Global,
    algorithm: SignatureAlgorithm,
    message: &[u8],
    key: &PrivateKey,
    line: &mut Line,
) {
    print_signed(alloc, algorithm, message, key, &DemoScheme::new(), line);
    line.mark(";");
    match VerdictTable::parse(alloc, &[]) {
        Ok(table) => print_signed(alloc, algorithm, message, key, &table, line),
        Err(error) => line.shown(&error),
    }
}

/// The signature, and the verdict on it under the public key; or the text of the refusal.
fn print_signed<S: Scheme>(
    alloc: Global,
    algorithm: SignatureAlgorithm,
    message: &[u8],
    key: &PrivateKey,
    scheme: &S,
    line: &mut Line,
) {
    match algorithm.sign(alloc, message, key, scheme) {
        Ok(signature) => {
            line.octets(&signature);
            print_own(alloc, algorithm, key, (message, &signature), scheme, line);
        }
        Err(error) => line.shown(&error),
    }
}

/// The verdict on a signature under the public key of its private key.
fn print_own<S: Scheme>(
    alloc: Global,
    algorithm: SignatureAlgorithm,
    key: &PrivateKey,
    signed: (&[u8], &[u8]),
    scheme: &S,
    line: &mut Line,
) {
    match key.to_public_key(alloc) {
        Ok(key) => print_verdict(alloc, algorithm, &key, signed, scheme, line),
        Err(error) => line.shown(&error),
    }
}

/// The verdicts on a signature under the demonstration scheme, and under an empty table.
fn print_verify(
    alloc: Global,
    algorithm: SignatureAlgorithm,
    key: &[u8],
    signed: (&[u8], &[u8]),
    line: &mut Line,
) {
    match PublicKey::from_der(alloc, key) {
        Ok(key) => print_verdicts(alloc, algorithm, &key, signed, line),
        Err(error) => line.shown(&error),
    }
}

fn print_verdicts(
    alloc: Global,
    algorithm: SignatureAlgorithm,
    key: &PublicKey,
    signed: (&[u8], &[u8]),
    line: &mut Line,
) {
    print_verdict(alloc, algorithm, key, signed, &DemoScheme::new(), line);
    line.mark(";");
    match VerdictTable::parse(alloc, &[]) {
        Ok(table) => print_verdict(alloc, algorithm, key, signed, &table, line),
        Err(error) => line.shown(&error),
    }
}

/// `accepted`, or the text of the refusal.
fn print_verdict<S: Scheme>(
    alloc: Global,
    algorithm: SignatureAlgorithm,
    key: &PublicKey,
    (message, signature): (&[u8], &[u8]),
    scheme: &S,
    line: &mut Line,
) {
    match algorithm.verify(alloc, key, message, signature, scheme) {
        Ok(()) => line.word("accepted"),
        Err(error) => line.shown(&error),
    }
}

/// An algorithm as `rsa` or `ecdsa`, a colon and its digest, or as `ed25519`.
fn algorithm_of(word: &str) -> Option<SignatureAlgorithm> {
    match word.split_once(':') {
        Some(("rsa", hash)) => Some(SignatureAlgorithm::RsaPkcs1v15(hash_of(hash)?)),
        Some(("ecdsa", hash)) => Some(SignatureAlgorithm::Ecdsa(hash_of(hash)?)),
        None if word == "ed25519" => Some(SignatureAlgorithm::Ed25519),
        _ => None,
    }
}

fn hash_of(name: &str) -> Option<HashAlgorithm> {
    for hash in HashAlgorithm::ALL {
        if hash.name() == name {
            return Some(hash);
        }
    }
    None
}
