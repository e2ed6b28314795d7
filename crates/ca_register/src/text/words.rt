//! The words of a line.

ghost use Rattle.std.specs.Prelude.{◌≡◌, ◌<◌, ◌↔◌, ◌≤◌, ℕ, Bool, Option, IsTrue, IfSome, Some, decimal, length, slice_index};
ghost use Rattle.asn1_types.specs.declared.generalized_time.GeneralizedTime.{GeneralizedTime};
ghost use Rattle.program_frame.specs.DateWord.{IsMidnight, day_text};
ghost use Rattle.ca_register.specs.Lines.{IsLetterOrDigit, IsName, IsPathLength, ca_word, hex_digit, key_word, path_word};

use names_core::UtcDate;
use program_frame::date_of;

/// The maximal index of an issuer's line.
const MOST_ISSUER: usize = 199;

/// The maximal number that is read.
const MOST_NUMBER: usize = 999;

/// The maximal number of octets in a name.
const MOST_LETTERS: usize = 64;

/// The length of a day in octets.
const DAY_LEN: usize = 10;

/// The index of an issuer's line: at most 199, in decimal without leading zeros.
pub(crate) fn issuer_of(word: &str) -> Option<usize>
    ensures read { IfSome result (λ index. (index ≤ 199) × (word.now ≡ decimal index)) }
    ensures only { (index : ℕ) → index ≤ 199 → word.now ≡ decimal index → result ≡ Some index }
{
    let number = number_of(word)?;
    if number > MOST_ISSUER {
        return None;
    }
    Some(number)
}

/// The number of a key: two upper-case hexadecimal digits.
pub(crate) fn key_of(word: &str) -> Option<u8>
    ensures read { IfSome result (λ key. (key < 256) × (word.now ≡ key_word key)) }
    ensures only { (key : ℕ) → key < 256 → word.now ≡ key_word key → result ≡ Some key }
{
    let [high, low] = word.as_bytes() else {
        return None;
    };
    let high = digit_of(*high)?;
    let low = digit_of(*low)?;
    Some(high * 16 + low)
}

/// The value of an upper-case hexadecimal digit.
fn digit_of(octet: u8) -> Option<u8>
    ensures read { IfSome result (λ digit. (digit < 16) × (octet ≡ hex_digit digit)) }
    ensures only { (digit : ℕ) → digit < 16 → octet ≡ hex_digit digit → result ≡ Some digit }
{
    match octet {
        b'0'..=b'9' => Some(octet - b'0'),
        b'A'..=b'F' => Some(octet - b'A' + 10),
        _ => None,
    }
}

/// Whether the word is a name: 1 to 64 ASCII letters or digits.
pub(crate) fn is_name(word: &str) -> bool
    ensures { IsTrue result ↔ IsName word.now }
{
    if word.is_empty() || word.len() > MOST_LETTERS {
        return false;
    }
    word.as_bytes()
        .iter()
        .all(|octet| is_letter_or_digit(*octet))
}

fn is_letter_or_digit(octet: u8) -> bool
    ensures { IsTrue result ↔ IsLetterOrDigit octet }
{
    match octet {
        b'0'..=b'9' | b'A'..=b'Z' | b'a'..=b'z' => true,
        _ => false,
    }
}

/// Whether the certificate is that of a CA: `y` or `n`.
pub(crate) fn ca_of(word: &str) -> Option<bool>
    ensures read { IfSome result (λ ca. word.now ≡ ca_word ca) }
    ensures only { (ca : Bool) → word.now ≡ ca_word ca → result ≡ Some ca }
{
    match word {
        "y" => Some(true),
        "n" => Some(false),
        _ => None,
    }
}

/// The path length, if any: `-`, or 0 to 255 in decimal without leading zeros.
pub(crate) fn path_length_of(word: &str) -> Option<Option<u8>>
    ensures read { IfSome result (λ length. IsPathLength length
        × (word.now ≡ path_word length)) }
    ensures only { (length : Option ℕ) → IsPathLength length → word.now ≡ path_word length
        → result ≡ Some length }
{
    if word == "-" {
        return Some(None);
    }
    let number = number_of(word)?;
    if number > 255 {
        return None;
    }
    Some(Some(number as u8))
}

/// A number below 1,000, in decimal without leading zeros.
fn number_of(word: &str) -> Option<usize>
    ensures read { IfSome result (λ number. (number < 1000) × (word.now ≡ decimal number)) }
    ensures only { (number : ℕ) → number < 1000 → word.now ≡ decimal number
        → result ≡ Some number }
{
    // `parse` also accepts a sign and leading zeros
    if !begins_as_number(word.as_bytes()) {
        return None;
    }
    let number: usize = word.parse().ok()?;
    if number > MOST_NUMBER {
        return None;
    }
    Some(number)
}

/// Whether the first octet is a digit, and 0 only if it is the only octet.
fn begins_as_number(word: &[u8]) -> bool
    ensures { IsTrue result ↔ ((0 < length word.now) × (48 ≤ slice_index word.now 0)
        × (slice_index word.now 0 ≤ 57)
        × (slice_index word.now 0 ≡ 48 → length word.now ≡ 1)) }
{
    if word.is_empty() {
        return false;
    }
    match word[0] {
        b'0' => word.len() == 1,
        b'1'..=b'9' => true,
        _ => false,
    }
}

/// The first second of a day, `YYYY-MM-DD`.
pub(crate) fn day_of(word: &str) -> Option<UtcDate>
    ensures read { IfSome result (λ date. IsMidnight date × (word.now ≡ day_text date)) }
    ensures only { (date : GeneralizedTime) → IsMidnight date → word.now ≡ day_text date
        → result ≡ Some date }
{
    if word.len() != DAY_LEN {
        return None;
    }
    date_of(word)
}
