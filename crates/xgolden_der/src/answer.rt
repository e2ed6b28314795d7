//! The results of the readers for some octets.

ghost use Rattle.der_core.specs.Encoding.{IsDer};

use der_core::{Cursor, DerError, Malformed, Tree, read_exact, read_first, write};
use std::alloc::Global;
use std::fmt;

/// The result of a call of the reader.
#[derive(Clone, Copy, Debug)]
pub enum Answer {
    /// An element of this length was read, and writing it gives its octets.
    Read(usize),
    /// An element was read, and writing it gives other octets, which never happens.
    Rewritten,
    /// The octets are refused.
    Refused(Malformed),
}

impl fmt::Display for Answer {
    fn fmt<W: fmt::Write>(&self, f: &mut fmt::Formatter<W>) -> fmt::Result {
        match self {
            Answer::Read(taken) => write!(f, "ok {taken}"),
            Answer::Rewritten => write!(f, "Rewritten"),
            Answer::Refused(Malformed { at, fault }) => write!(f, "{fault:?} {at}"),
        }
    }
}

/// Appends the results of `read_first`, of `read_exact` and of a cursor, as a line.
pub fn push_answers(alloc: Global, lines: &mut String, octets: &[u8]) -> Result<(), DerError> {
    let first = first_answer(alloc, octets)?;
    let exact = exact_answer(alloc, octets)?;
    write!(lines, "{first} {exact}")?;
    push_elements(lines, octets)
}

/// Appends the length of each element that a cursor yields, and how it ends.
fn push_elements(lines: &mut String, octets: &[u8]) -> Result<(), DerError> {
    let mut cursor = Cursor::new(octets);
    loop {
        match cursor.next() {
            Ok(Some(elem)) => write!(lines, " {}", elem.whole.len())?,
            Ok(None) => {
                writeln!(lines, " end")?;
                return Ok(());
            }
            Err(malformed) => {
                writeln!(lines, " {}", Answer::Refused(malformed))?;
                return Ok(());
            }
        }
    }
}

fn first_answer(alloc: Global, octets: &[u8]) -> Result<Answer, DerError> {
    match read_first(alloc, octets) {
        Ok((tree, taken)) => answer_of(alloc, &tree, &octets[..taken]),
        Err(DerError::Malformed(malformed)) => Ok(Answer::Refused(malformed)),
        Err(error) => Err(error),
    }
}

fn exact_answer(alloc: Global, octets: &[u8]) -> Result<Answer, DerError> {
    match read_exact(alloc, octets) {
        Ok(tree) => answer_of(alloc, &tree, octets),
        Err(DerError::Malformed(malformed)) => Ok(Answer::Refused(malformed)),
        Err(error) => Err(error),
    }
}

/// The result for a tree, and the octets that it was read from.
fn answer_of(alloc: Global, tree: &Tree, taken: &[u8]) -> Result<Answer, DerError>
    requires { IsDer tree.now }
{
    if write(alloc, tree)?.as_slice() == taken {
        Ok(Answer::Read(taken.len()))
    } else {
        Ok(Answer::Rewritten)
    }
}
