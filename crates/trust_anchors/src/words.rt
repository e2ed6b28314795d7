//! The words of the command line.

ghost use Rattle.std.specs.Prelude.{◌≡◌, ℕ, Some, map, MatchOption, option_map, string_bytes};
ghost use Rattle.trust_anchors.specs.OwnedCommand.{command_held};
ghost use Rattle.program_frame.specs.Commands.{AsksForNothing};
ghost use Rattle.trust_anchors.specs.Commands.{program};
ghost use Rattle.trust_anchors.specs.Words.{AsksFor, IsNumberWord, Command as AskedCommand, purpose_word};
ghost use Rattle.trust_anchors.specs.declared.anchor.Purpose.{Purpose as AskedPurpose};

use crate::anchor::Purpose;
use crate::command::Command;
use program_frame::date_of;

/// The maximal number of certificates in the pool.
const MOST_IN_POOL: usize = 32;

/// Parses the words. None exactly if they are no command.
pub(crate) fn command_of(words: &[String]) -> Option<Command<'_>>
    ensures asked { MatchOption result
        (AsksForNothing program (map string_bytes words.now))
        (λ held. AsksFor (map string_bytes words.now) (command_held held)) }
    ensures only { (asked : AskedCommand) → AsksFor (map string_bytes words.now) asked
        → option_map command_held result ≡ Some asked }
{
    let [table, purpose, date, number, certificates @ ..] = words else {
        return None;
    };
    let purpose = purpose_of(purpose.as_str())?;
    let date = date_of(date.as_str())?;
    let number = number_of(number.as_str())?;
    if certificates.len() <= number || certificates.len() - number - 1 > MOST_IN_POOL {
        return None;
    }
    Some(Command {
        table: table.as_str(),
        purpose,
        date,
        more: number - 1,
        certificates,
    })
}

/// The purpose that the word names.
fn purpose_of(word: &str) -> Option<Purpose>
    ensures asked { MatchOption result
        ((purpose : AskedPurpose) → word.now ≡ purpose_word purpose → ⊥)
        (λ purpose. word.now ≡ purpose_word purpose) }
    ensures only { (purpose : AskedPurpose) → word.now ≡ purpose_word purpose
        → result ≡ Some purpose }
{
    match word {
        "code" => Some(Purpose::Code),
        "time" => Some(Purpose::Time),
        _ => None,
    }
}

/// The number of anchors in the word: one digit, from 1 to 8.
fn number_of(word: &str) -> Option<usize>
    ensures asked { MatchOption result
        ((number : ℕ) → IsNumberWord word.now number → ⊥)
        (IsNumberWord word.now) }
    ensures only { (number : ℕ) → IsNumberWord word.now number → result ≡ Some number }
{
    let [digit] = word.as_bytes() else {
        return None;
    };
    if *digit < b'1' || *digit > b'8' {
        return None;
    }
    Some((*digit - b'0') as usize)
}
