//! Reading the lines of a register.

ghost use Rattle.std.specs.Prelude.{◌≡◌, ℕ, List, None, Some, IfErr, IfOk, IfSome, MatchResult, map, option_map};
ghost use Rattle.program_frame.specs.Answering.{StopsForText};
ghost use Rattle.program_frame.specs.declared.stop.Stop.TheVariants as stops;
ghost use Rattle.ca_register.specs.Owned.{line_held, line_read};
ghost use Rattle.ca_register.specs.Lines.{HasBadLine, IsLimits, IsLine, IsRegisterText, Line, issued_words, keyed_words, limits_words, line_words};
ghost use Rattle.ca_register.specs.declared.text.line.Limits.{Limits as Limited};

use crate::text::cutting::{cut_line, cut_word, text_of};
use crate::text::line::{Limits, ReadLine, RegisterLine, kept_line};
use crate::text::words::{ca_of, day_of, is_name, issuer_of, key_of, path_length_of};
use program_frame::Stop;
use std::alloc::Global;

/// The maximal number of lines.
const MOST_LINES: usize = 200;

/// Reads the lines of a text. Each ends with a newline, and there are at most 200.
pub fn lines_of(alloc: Global, text: &[u8]) -> Result<Vec<RegisterLine>, Stop>
    ensures read { IfOk result (λ lines. IsRegisterText text.now (map line_held lines.items)) }
    ensures stopped { IfErr result (StopsForText (HasBadLine text.now)) }
    // The lines of a text are read, unless memory runs out.
    ensures only { (lines : List Line) → IsRegisterText text.now lines
        → MatchResult result (λ read. map line_held read.items ≡ lines)
        (λ stop. stop ≡ stops.Memory) }
{
    match text_of(text) {
        Some(text) => lines_in(alloc, text),
        None => Err(Stop::BadTable),
    }
}

/// The same of a text that is ASCII.
fn lines_in(alloc: Global, text: &str) -> Result<Vec<RegisterLine>, Stop>
    ensures read { IfOk result (λ lines. IsRegisterText text.now (map line_held lines.items)) }
    ensures stopped { IfErr result (StopsForText (HasBadLine text.now)) }
    ensures only { (lines : List Line) → IsRegisterText text.now lines
        → MatchResult result (λ read. map line_held read.items ≡ lines)
        (λ stop. stop ≡ stops.Memory) }
{
    let mut lines = Vec::new(alloc);
    let mut rest = text;
    while !rest.is_empty() {
        let Some((words, behind)) = cut_line(rest) else {
            return Err(Stop::BadTable);
        };
        let Some(line) = line_of(words) else {
            return Err(Stop::BadTable);
        };
        if lines.len() >= MOST_LINES {
            return Err(Stop::BadTable);
        }
        lines.push(kept_line(alloc, &line)?)?;
        rest = behind;
    }
    Ok(lines)
}

/// The line with these words: of a root or of a child, by the first word.
fn line_of(words: &str) -> Option<ReadLine<'_>>
    ensures read { IfSome result (λ line. IsLine (line_read line)
        × (words.now ≡ line_words (line_read line))) }
    ensures only { (line : Line) → IsLine line → words.now ≡ line_words line
        → option_map line_read result ≡ Some line }
{
    let (first, rest) = cut_word(words)?;
    match first {
        "root" => root_of(rest),
        "child" => child_of(rest),
        _ => None,
    }
}

/// The line of a root: `NN NAME PATH FROM TO`.
fn root_of(words: &str) -> Option<ReadLine<'_>>
    ensures read { IfSome result (λ line. IsLine (line_read line) × (line.issuer ≡ None)
        × (words.now ≡ keyed_words None (line_read line))) }
    ensures only { (line : Line) → IsLine line → line.issuer ≡ None → words.now ≡ keyed_words None line
        → option_map line_read result ≡ Some line }
{
    let (key, rest) = cut_word(words)?;
    let key = key_of(key)?;
    let (name, rest) = cut_word(rest)?;
    if !is_name(name) {
        return None;
    }
    let limits = limits_of(rest)?;
    Some(ReadLine {
        issuer: None,
        key,
        name,
        ca: true,
        limits,
    })
}

/// The line of a child: `I NN NAME CA PATH FROM TO`.
fn child_of(words: &str) -> Option<ReadLine<'_>>
    ensures read { IfSome result (λ line. IsLine (line_read line) × ((index : ℕ)
        × (line.issuer ≡ Some index) × (words.now ≡ issued_words (Some index) (line_read line)))) }
    ensures only { (line : Line) (index : ℕ) → IsLine line → line.issuer ≡ Some index
        → words.now ≡ issued_words (Some index) line → option_map line_read result ≡ Some line }
{
    let (issuer, rest) = cut_word(words)?;
    let issuer = issuer_of(issuer)?;
    let (key, rest) = cut_word(rest)?;
    let key = key_of(key)?;
    let (name, rest) = cut_word(rest)?;
    if !is_name(name) {
        return None;
    }
    let (ca, rest) = cut_word(rest)?;
    let ca = ca_of(ca)?;
    let limits = limits_of(rest)?;
    Some(ReadLine {
        issuer: Some(issuer),
        key,
        name,
        ca,
        limits,
    })
}

/// The limits with these words: `PATH FROM TO`.
fn limits_of(words: &str) -> Option<Limits>
    ensures read { IfSome result (λ limits. IsLimits limits × (words.now ≡ limits_words limits)) }
    ensures only { (limits : Limited) → IsLimits limits → words.now ≡ limits_words limits
        → result ≡ Some limits }
{
    let (path_length, rest) = cut_word(words)?;
    let path_length = path_length_of(path_length)?;
    let (from, to) = cut_word(rest)?;
    let from = day_of(from)?;
    let to = day_of(to)?;
    Some(Limits {
        path_length,
        from,
        to,
    })
}
