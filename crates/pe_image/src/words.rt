//! The words of the command line.

ghost use Rattle.std.specs.Prelude.{◌≡◌, Some, map, MatchOption, option_map, string_bytes};
ghost use Rattle.pe_image.specs.OwnedCommand.{command_held};
ghost use Rattle.program_frame.specs.Commands.{AsksForNothing};
ghost use Rattle.pe_image.specs.Commands.{program};
ghost use Rattle.pe_image.specs.Words.{AsksFor, Command as AskedCommand};

use names_core::UtcDate;
use program_frame::{CheckOptions, date_of, options_of};

/// A check of a program by a verdict table, at a date or over an interval, and whether a trust list
/// has its signer's CA.
#[derive(Clone, Copy, Debug)]
pub(crate) struct Command<'a> {
    pub(crate) file: &'a str,
    pub(crate) table: &'a String,
    pub(crate) date: UtcDate,
    pub(crate) options: CheckOptions<'a>,
}

/// Parses the words FILE TABLE DATE and options. None exactly if they aren't these.
pub(crate) fn command_of(words: &[String]) -> Option<Command<'_>>
    ensures asked { MatchOption result
        (AsksForNothing program (map string_bytes words.now))
        (λ held. AsksFor (map string_bytes words.now) (command_held held)) }
    ensures only { (asked : AskedCommand) → AsksFor (map string_bytes words.now) asked
        → option_map command_held result ≡ Some asked }
{
    let [file, table, date, options @ ..] = words else {
        return None;
    };
    let Some(date) = date_of(date.as_str()) else {
        return None;
    };
    let Some(options) = options_of(options) else {
        return None;
    };
    Some(Command {
        file: file.as_str(),
        table,
        date,
        options,
    })
}
