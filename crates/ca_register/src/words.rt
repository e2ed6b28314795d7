//! The words of the command line.

ghost use Rattle.std.specs.Prelude.{◌≡◌, MatchOption, Some, map, option_map, string_bytes};
ghost use Rattle.program_frame.specs.Commands.{AsksForNothing};
ghost use Rattle.ca_register.specs.Commands.{program};
ghost use Rattle.ca_register.specs.OwnedCommand.{command_held};
ghost use Rattle.ca_register.specs.Words.{AsksFor, Command as AskedCommand};

use crate::command::Command;
use program_frame::date_of;

/// Parses the words. None exactly if they are no command.
pub(crate) fn command_of(words: &[String]) -> Option<Command<'_>>
    ensures asked { MatchOption result
        (AsksForNothing program (map string_bytes words.now))
        (λ held. AsksFor (map string_bytes words.now) (command_held held)) }
    ensures only { (command : AskedCommand) → AsksFor (map string_bytes words.now) command
        → option_map command_held result ≡ Some command }
{
    let [file, date] = words else {
        return None;
    };
    Some(Command {
        file: file.as_str(),
        date: date_of(date.as_str())?,
    })
}
