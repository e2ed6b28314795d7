//! The word SECONDS.

ghost use Rattle.std.specs.Prelude.{◌≡◌, ◌<◌, ◌≤◌, ◌↔◌, ℤ, IsTrue, MatchOption, Some, length, slice_index};
ghost use Rattle.program_frame.specs.SecondsWord.{IsSecondsWord};

/// The maximal number of digits.
const MOST_DIGITS: usize = 18;

/// The number in a word of decimal digits. None exactly if the word isn't 1 to 18 of them.
pub(crate) fn seconds_of(word: &str) -> Option<i64>
    ensures said { MatchOption result
        ((seconds : ℤ) → IsSecondsWord word.now seconds → ⊥)
        (IsSecondsWord word.now) }
    ensures only { (seconds : ℤ) → IsSecondsWord word.now seconds → result ≡ Some seconds }
{
    // `parse` also accepts a sign, and more digits
    if !begins_with_digit(word.as_bytes()) {
        return None;
    }
    word.parse().ok()
}

/// Whether there are 1 to 18 octets, and the first is a digit.
fn begins_with_digit(word: &[u8]) -> bool
    ensures { IsTrue result ↔ ((0 < length word.now) × (length word.now ≤ 18)
        × (48 ≤ slice_index word.now 0) × (slice_index word.now 0 ≤ 57)) }
{
    if word.is_empty() || word.len() > MOST_DIGITS {
        return false;
    }
    b'0' <= word[0] && word[0] <= b'9'
}
