//! The words of the command line.

ghost use Rattle.std.specs.Prelude.{◌≡◌, Some, map, MatchOption, option_map, string_bytes};
ghost use Rattle.program_frame.specs.Commands.{AsksForNothing};
ghost use Rattle.signature_questions.specs.Commands.{program};
ghost use Rattle.signature_questions.specs.OwnedCommand.{command_held};
ghost use Rattle.signature_questions.specs.Words.{AreInLimits, AsksFor, Command as AskedCommand, OfChain};

use crate::command::Command;

/// The option before the files of a chain.
const CHAIN: &str = "--chain";

/// The maximal number of certificates of a chain.
const MOST_CERTIFICATES: usize = 32;

/// Parses the words SIG, or `--chain` and the words CERT. None exactly if they aren't these.
pub(crate) fn command_of(words: &[String]) -> Option<Command<'_>>
    ensures asked { MatchOption result
        (AsksForNothing program (map string_bytes words.now))
        (λ held. AsksFor (map string_bytes words.now) (command_held held)) }
    ensures only { (command : AskedCommand) → AsksFor (map string_bytes words.now) command
        → option_map command_held result ≡ Some command }
{
    let [first, certificates @ ..] = words else {
        return None;
    };
    if first.as_str() == CHAIN {
        return chain_of(certificates);
    }
    if !certificates.is_empty() {
        return None;
    }
    Some(Command::Signature(first.as_str()))
}

/// A chain of these files, if it has 1 to 32.
fn chain_of(certificates: &[String]) -> Option<Command<'_>>
    ensures { MatchOption result
        (AreInLimits (map string_bytes certificates.now) → ⊥)
        (λ held. (command_held held ≡ OfChain (map string_bytes certificates.now))
        × AreInLimits (map string_bytes certificates.now)) }
{
    let [checked, parents @ ..] = certificates else {
        return None;
    };
    if certificates.len() > MOST_CERTIFICATES {
        return None;
    }
    Some(Command::Chain {
        checked: checked.as_str(),
        parents,
    })
}
