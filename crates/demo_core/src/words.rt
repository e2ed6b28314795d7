//! The words of the command line.

ghost use Rattle.std.specs.Prelude.{◌≡◌, ◌<◌, ◌≤◌, ◌↔◌, ℕ, IsTrue, Some, length, map, slice_index, string_bytes, MatchOption};
ghost use Rattle.demo_core.specs.Words.{AsksFor, AsksForNothing, IsCountWord};

/// The maximal number of steps.
const MOST_STEPS: u8 = 200;

/// The number of steps that the words `demo N` request. None exactly if they are no such words.
pub fn count_of(words: &[String]) -> Option<u8>
    ensures asked { MatchOption result
        (AsksForNothing (map string_bytes words.now))
        (AsksFor (map string_bytes words.now)) }
    ensures only { (count : ℕ) → AsksFor (map string_bytes words.now) count
        → result ≡ Some count }
{
    let [command, number] = words else {
        return None;
    };
    match command.as_str() {
        "demo" => number_of(number.as_str()),
        _ => None,
    }
}

/// The number in decimal digits. None exactly if it isn't from 1 to 200, or has leading zeros.
fn number_of(word: &str) -> Option<u8>
    ensures said { MatchOption result
        ((count : ℕ) → IsCountWord word.now count → ⊥)
        (IsCountWord word.now) }
    ensures only { (count : ℕ) → IsCountWord word.now count → result ≡ Some count }
{
    // `parse` also accepts a sign and leading zeros
    if !begins_with_digit(word.as_bytes()) {
        return None;
    }
    let count = word.parse().ok()?;
    if count > MOST_STEPS {
        return None;
    }
    Some(count)
}

/// Whether the first octet is a digit, but not 0.
fn begins_with_digit(word: &[u8]) -> bool
    ensures { IsTrue result ↔ ((0 < length word.now)
        × (49 ≤ slice_index word.now 0) × (slice_index word.now 0 ≤ 57)) }
{
    if word.is_empty() {
        return false;
    }
    b'1' <= word[0] && word[0] <= b'9'
}
