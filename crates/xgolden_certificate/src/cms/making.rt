//! Values made from texts and names, and written.

use cms_types::{SpcString, new_sha};
use der_core::Structure;
use sig_core::ShaVariant;
use std::alloc::Global;
use xgolden::{Args, Line, text_of};

/// Prints what is made.
pub fn print(alloc: Global, kind: &str, args: Args<'_>, line: &mut Line) {
    match (kind, args.words, args.octets) {
        ("string", _, [Some(octets)]) => match text_of(octets) {
            Ok(text) => print_string(alloc, text, line),
            Err(why) => line.lose(why),
        },
        ("sha", [name], _) => match variant(name) {
            Some(variant) => print_sha(alloc, variant, line),
            None => line.no_call(),
        },
        _ => line.no_call(),
    }
}

/// Prints the octets of a string with this text, or the name of the error.
fn print_string(alloc: Global, text: &str, line: &mut Line) {
    match SpcString::from_text(alloc, text) {
        Ok(string) => line.made(string.to_der(alloc)),
        Err(error) => line.named(&error),
    }
}

/// Prints the octets of the AlgorithmIdentifier of a digest algorithm.
fn print_sha(alloc: Global, variant: ShaVariant, line: &mut Line) {
    match new_sha(alloc, variant) {
        Ok(algorithm) => line.made(algorithm.to_der(alloc)),
        Err(error) => line.shown(&error),
    }
}

fn variant(name: &str) -> Option<ShaVariant> {
    match name {
        "MD5" => Some(ShaVariant::MD5),
        "SHA1" => Some(ShaVariant::SHA1),
        "SHA2_224" => Some(ShaVariant::SHA2_224),
        "SHA2_256" => Some(ShaVariant::SHA2_256),
        "SHA2_384" => Some(ShaVariant::SHA2_384),
        "SHA2_512" => Some(ShaVariant::SHA2_512),
        _ => None,
    }
}
