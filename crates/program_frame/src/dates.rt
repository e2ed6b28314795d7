//! The word DATE.

ghost use Rattle.std.specs.Prelude.{◌≡◌, ◌≢◌, ◌↔◌, IsTrue, MatchOption, Some, length, slice_index};
ghost use Rattle.asn1_types.specs.Time.{generalized_contents};
ghost use Rattle.asn1_types.specs.declared.generalized_time.GeneralizedTime.{GeneralizedTime};
ghost use Rattle.program_frame.specs.DateWord.{IsDateWord, day_text, moment_text};

use asn1_types::GeneralizedTime;
use names_core::UtcDate;

/// The date in a word, `YYYY-MM-DD` or `YYYY-MM-DDTHH:MM:SS`. None exactly if it names no existing
/// second.
pub fn date_of(word: &str) -> Option<UtcDate>
    ensures said { MatchOption result
        ((t : GeneralizedTime) → IsDateWord word.now t → ⊥)
        (IsDateWord word.now) }
    ensures only { (t : GeneralizedTime) → IsDateWord word.now t → result ≡ Some t }
{
    let contents = date_contents(word.as_bytes())?;
    let time = GeneralizedTime::from_content(&contents)?;
    Some(UtcDate::from(time))
}

/// The contents octets of the date of a word as a GeneralizedTime (RFC 5280 4.1.2.5.2), if the word
/// has the form of a date.
fn date_contents(word: &[u8]) -> Option<[u8; 15]>
    ensures { MatchOption result
        ((t : GeneralizedTime) → IsDateWord word.now t → ⊥)
        (λ contents. (t : GeneralizedTime)
        → (contents ≡ generalized_contents t) ↔ IsDateWord word.now t) }
{
    match day_contents(word) {
        Some(contents) => Some(contents),
        None => moment_contents(word),
    }
}

/// The contents octets of the first second of a day, if the word is one.
fn day_contents(word: &[u8]) -> Option<[u8; 15]>
    ensures { MatchOption result
        ((t : GeneralizedTime) → word.now ≢ day_text t)
        (λ contents. (t : GeneralizedTime)
        → (contents ≡ generalized_contents t) ↔ IsDateWord word.now t) }
{
    if word.len() != 10 || word[4] != b'-' || word[7] != b'-' {
        return None;
    }
    Some([
        word[0], word[1], word[2], word[3], word[5], word[6], word[8], word[9], b'0', b'0', b'0',
        b'0', b'0', b'0', b'Z',
    ])
}

/// The contents octets of a date with a time, if the word is one.
fn moment_contents(word: &[u8]) -> Option<[u8; 15]>
    ensures { MatchOption result
        ((t : GeneralizedTime) → word.now ≢ moment_text t)
        (λ contents. (t : GeneralizedTime)
        → (contents ≡ generalized_contents t) ↔ IsDateWord word.now t) }
{
    if word.len() != 19 || !has_marks(word) {
        return None;
    }
    Some([
        word[0], word[1], word[2], word[3], word[5], word[6], word[8], word[9], word[11], word[12],
        word[14], word[15], word[17], word[18], b'Z',
    ])
}

/// Whether the word has the separators of a date with a time.
fn has_marks(word: &[u8]) -> bool
    requires { length word.now ≡ 19 }
    ensures { IsTrue result ↔ ((slice_index word.now 4 ≡ 45) × (slice_index word.now 7 ≡ 45)
        × (slice_index word.now 10 ≡ 84) × (slice_index word.now 13 ≡ 58)
        × (slice_index word.now 16 ≡ 58)) }
{
    word[4] == b'-' && word[7] == b'-' && word[10] == b'T' && word[13] == b':' && word[16] == b':'
}
