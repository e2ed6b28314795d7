//! The texts of the strings of names.

ghost use Rattle.name_types.specs.Text.{ascii_or_mark, ascii_text, utf8_text, unit_character, bmp_text, text_of};
ghost use Rattle.std.specs.Prelude.{◌≡◌, ◌+◌, ◌<◌, ◌++◌, length, Some, IfOk, MatchOption, string_bytes};
ghost use Rattle.std.specs.Char.{encode_utf8};
ghost use Rattle.std.specs.Fmt.{WritesOnOk};

use crate::directory_string::DirectoryString;
use std::alloc::{AllocError, Global};
use std::{fmt, str};

impl DirectoryString {
    /// The text of the string in UTF-8. `?` replaces octets above 127 in a PrintableString, a
    /// TeletexString, or a UTF8String that isn't valid UTF-8; in a BMPString it replaces surrogates
    /// and an odd last octet.
    pub fn to_utf8_lossy(&self, alloc: Global) -> Result<String, AllocError>
        ensures { IfOk result (λ text. string_bytes text ≡ text_of self.now) }
    {
        self.to_string(alloc)
    }
}

impl fmt::Display for DirectoryString {
    ghost output = { λ string. Some (text_of string) };

    fn fmt<W: fmt::Write>(&self, f: &mut fmt::Formatter<W>) -> fmt::Result {
        match self {
            DirectoryString::Utf8String(octets) => write_utf8(octets.as_slice(), f),
            DirectoryString::PrintableString(octets) => write_ascii(octets.as_slice(), f),
            DirectoryString::TeletexString(octets) => write_ascii(octets.as_slice(), f),
            DirectoryString::BmpString(octets) => write_bmp(octets.as_slice(), f),
        }
    }
}

fn write_utf8<W: fmt::Write>(octets: &[u8], f: &mut fmt::Formatter<W>) -> fmt::Result
    ensures { WritesOnOk W.write_str_gives f.old result (utf8_text octets.now) f.new }
{
    match str::from_utf8(octets) {
        Ok(text) => f.write_str(text),
        Err(_) => write_ascii(octets, f),
    }
}

fn write_ascii<W: fmt::Write>(octets: &[u8], f: &mut fmt::Formatter<W>) -> fmt::Result
    ensures { WritesOnOk W.write_str_gives f.old result (ascii_text octets.now) f.new }
{
    for octet in octets {
        f.write_char(ascii_or_mark(*octet))?;
    }
    Ok(())
}

fn write_bmp<W: fmt::Write>(octets: &[u8], f: &mut fmt::Formatter<W>) -> fmt::Result
    ensures { WritesOnOk W.write_str_gives f.old result (bmp_text octets.now) f.new }
{
    let mut rest = octets;
    while let Some((character, after)) = split_unit(rest) {
        f.write_char(character)?;
        rest = after;
    }
    if rest.is_empty() {
        return Ok(());
    }
    f.write_char('?')
}

/// The character of the first two octets, and the octets after them.
fn split_unit(octets: &[u8]) -> Option<(char, &[u8])>
    ensures { MatchOption result (length octets.now < 2)
        (λ x. (length octets.now ≡ length x.1.now + 2)
        × (bmp_text octets.now ≡ encode_utf8 x.0 ++ bmp_text x.1.now)) }
{
    match octets {
        [high, low, after @ ..] => {
            let unit = u16::from_be_bytes([*high, *low]);
            Some((unit_character(unit), after))
        }
        _ => None,
    }
}

fn ascii_or_mark(octet: u8) -> char
    ensures { result ≡ ascii_or_mark octet }
{
    if octet.is_ascii() {
        char::from(octet)
    } else {
        '?'
    }
}

fn unit_character(unit: u16) -> char
    ensures { result ≡ unit_character unit }
{
    char::from_u32(u32::from(unit)).unwrap_or('?')
}
