//! Integers, bit strings and IA5 strings by their contents octets.

use asn1_types::{BitString, CharSetError, Ia5String, IntegerAsn1};
use std::alloc::Global;
use xgolden::{Line, text_of};

/// Prints the output for a call on integers, bit strings and IA5 strings.
pub fn print(alloc: Global, call: &str, octets: &[u8], line: &mut Line) {
    match call {
        "integer" => print_integer(alloc, octets, line),
        "number" => print_number(alloc, octets, line),
        "bits" => print_bits(alloc, octets, line),
        "whole_bits" => print_whole_bits(alloc, octets, line),
        "ia5_content" => print_ia5_content(alloc, octets, line),
        "ia5_text" => match text_of(octets) {
            Ok(text) => print_ia5_text(alloc, text, line),
            Err(why) => line.lose(why),
        },
        _ => line.no_call(),
    }
}

/// The integer with these contents octets.
fn print_integer(alloc: Global, contents: &[u8], line: &mut Line) {
    match IntegerAsn1::from_content(alloc, contents) {
        Ok(integer) => print_octets_of(&integer, line),
        Err(error) => line.refused(error),
    }
}

/// The unsigned integer.
fn print_number(alloc: Global, octets: &[u8], line: &mut Line) {
    match IntegerAsn1::from_bytes_be_unsigned(alloc, octets) {
        Ok(integer) => print_octets_of(&integer, line),
        Err(error) => line.shown(&error),
    }
}

/// The octets of an integer as signed, and as unsigned.
fn print_octets_of(integer: &IntegerAsn1, line: &mut Line) {
    line.octets(integer.as_signed_bytes_be());
    line.octets(integer.as_unsigned_bytes_be());
}

/// The bit string with these contents octets.
fn print_bits(alloc: Global, contents: &[u8], line: &mut Line) {
    match BitString::from_content(alloc, contents) {
        Ok(bits) => print_parts_of(alloc, &bits, line),
        Err(error) => line.refused(error),
    }
}

/// The bit string without unused bits.
fn print_whole_bits(alloc: Global, octets: &[u8], line: &mut Line) {
    match BitString::with_bytes(alloc, octets) {
        Ok(bits) => print_parts_of(alloc, &bits, line),
        Err(error) => line.shown(&error),
    }
}

/// The number of unused bits of a bit string, its octets, and its contents octets.
fn print_parts_of(alloc: Global, bits: &BitString, line: &mut Line) {
    line.shown(&bits.unused());
    line.octets(bits.payload_view());
    match bits.to_content(alloc) {
        Ok(contents) => line.octets(contents.as_slice()),
        Err(error) => line.shown(&error),
    }
}

/// The IA5String with these contents octets.
fn print_ia5_content(alloc: Global, contents: &[u8], line: &mut Line) {
    match Ia5String::from_content(alloc, contents) {
        Ok(string) => line.octets(string.as_str().as_bytes()),
        Err(error) => line.refused(error),
    }
}

/// The IA5String with this text.
fn print_ia5_text(alloc: Global, text: &str, line: &mut Line) {
    match Ia5String::from_string(alloc, text) {
        Ok(string) => line.octets(string.as_str().as_bytes()),
        Err(CharSetError::CharSet) => line.word("CharSet"),
        Err(error) => line.shown(&error),
    }
}
