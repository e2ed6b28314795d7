//! Whole files from a shelf, and whole reports to a sink.

ghost use Rattle.std.specs.Prelude.{◌≡◌, ◌+◌, ◌≤◌, ◌∷◌, ◌++◌, ℕ, List, [], Err, length, map, IfOk, IfErr, OnOk, OnErr, IsOk, IsErr, IsSome, IsErrOf, MatchOption, MatchResult};
ghost use Rattle.der_core.specs.Counts.{GoesOn, HasRisen, FailsOnce};
ghost use Rattle.program_frame.specs.Owned.{contents_held, names_held};
ghost use Rattle.program_frame.specs.Limits.{longest_file, IsWholeFile, IsLongFile, IsMissingFile};
ghost use Rattle.program_frame.specs.Shelf.{file_of};
ghost use Rattle.program_frame.specs.Sink.{Appends, Lowers, HasRoom, IsCutShort, KeepsCapacity};
ghost use Rattle.program_frame.specs.ReadFiles.{AreRead, AreUnread, HandsOut, HandsOutAtMost};

use crate::{Failed, FileError, Shelf, Sink};
use std::alloc::Global;

const LONGEST_FILE: usize = 16_777_216;

const PIECE: usize = 16_384;

/// Reads the whole file with this name: at most 16,777,216 octets, and one more to detect a longer
/// file.
pub fn read_file<F: Shelf>(alloc: Global, shelf: &mut F, name: &str) -> Result<Vec<u8>, FileError>
    ensures whole { IfOk result (λ octets.
        IsWholeFile (F.state shelf.old).files name.now octets.items) }
    ensures given { IfOk result (λ octets.
        HandsOut (length octets.items) (F.state shelf.old) (F.state shelf.new)) }

    ensures too_long { IsErrOf result FileError.TooLong → IsSome (F.state shelf.old).files
        → IsLongFile (F.state shelf.old).files name.now }
    ensures more_given { IsErrOf result FileError.TooLong
        → HandsOut (longest_file + 1) (F.state shelf.old) (F.state shelf.new) }
    // Whatever the result, no more of the file is read.
    ensures at_most { HandsOutAtMost 1 (F.state shelf.old) (F.state shelf.new) }

    ensures missing { IsMissingFile (F.state shelf.old).files name.now
        → result ≡ Err FileError.Fault }
    ensures cause { IsErrOf result FileError.Fault
        → HasRisen (F.state shelf.old).faults (F.state shelf.new).faults }
    ensures no_fault { (F.state shelf.old).is_quiet
        → IsSome (file_of (F.state shelf.old).files name.now)
        → ¬ IsErrOf result FileError.Fault }
    // A failed call is the last one, and is reported.
    ensures once { FailsOnce (result ≡ Err FileError.Fault)
        (F.state shelf.old).faults (F.state shelf.new).faults }

    ensures same { (F.state shelf.new).files ≡ (F.state shelf.old).files }
    ensures quiet { (F.state shelf.old).is_quiet
        → IsSome (file_of (F.state shelf.old).files name.now)
        → (F.state shelf.new).is_quiet }
    ensures counted { GoesOn (F.state shelf.old).faults (F.state shelf.new).faults }
    ensures counted_given { GoesOn (F.state shelf.old).given (F.state shelf.new).given }
{
    shelf.pick(name)?;
    let mut piece = [0; PIECE];
    let mut octets = Vec::new(alloc);
    while octets.len() <= LONGEST_FILE {
        let most = piece.len().min(LONGEST_FILE + 1 - octets.len());
        let count = shelf.read(&mut piece[..most])?;
        if count == 0 {
            return Ok(octets);
        }
        octets.extend_from_slice(&piece[..count])?;
    }
    Err(FileError::TooLong)
}

/// Writes a whole text.
pub fn write_report<O: Sink>(out: &mut O, text: &str) -> Result<(), Failed>
    ensures whole { OnOk result (Appends (O.state out.old).held text.now (O.state out.new).held) }
    ensures lowered { OnOk result
        (Lowers (O.state out.old).room (length text.now) (O.state out.new).room) }
    ensures cut { OnErr result (IsCutShort text.now (O.state out.old) (O.state out.new)) }
    ensures capacity { KeepsCapacity (O.state out.old) (O.state out.new) }
    ensures counted { (O.state out.old).faults ≤ (O.state out.new).faults }
    ensures cause { OnErr result (HasRisen (O.state out.old).faults (O.state out.new).faults) }
    // A failed call is the last one, and is reported.
    ensures once { FailsOnce (IsErr result) (O.state out.old).faults (O.state out.new).faults }
    ensures room { HasRoom (O.state out.old).room (length text.now) → IsOk result }
{
    let octets = text.as_bytes();
    let mut done = 0;
    while done < octets.len() {
        done += out.write(&octets[done..])?;
    }
    Ok(())
}

/// The names of the files to read, in order: the first, then others, and there may be one more.
#[derive(Clone, Copy, Debug)]
pub struct Names<'a> {
    pub first: &'a str,
    pub others: &'a [String],
    pub last: Option<&'a str>,
}

impl<'a> Names<'a> {
    /// Those behind the first, if there are any.
    fn behind(self) -> Option<Names<'a>>
        ensures { MatchOption result
            (names_held self.entry ≡ self.entry.first.now ∷ [])
            (λ behind. names_held self.entry ≡ self.entry.first.now ∷ names_held behind) }
    {
        match self.others {
            [next, others @ ..] => Some(Names {
                first: next.as_str(),
                others,
                last: self.last,
            }),
            [] => Some(Names {
                first: self.last?,
                others: &[],
                last: None,
            }),
        }
    }
}

/// The contents of the files that were read, in order.
#[derive(Debug, Drop)]
pub struct Contents {
    pub first: Vec<u8>,
    pub others: Vec<Vec<u8>>,
}

impl Contents {
    /// The contents of the first file, of the second, and of those behind.
    pub fn parts(&self) -> (&[u8], &[u8], &[Vec<u8>])
        requires { 2 ≤ length (contents_held self.now) }
        ensures { contents_held self.now
            ≡ result.0.now ∷ result.1.now ∷ map (λ octets. octets.items) result.2.now }
    {
        (&self.first, &self.others[0], &self.others[1..])
    }
}

/// Reads whole files, in order.
pub(crate) fn read_files<F: Shelf>(
    alloc: Global,
    shelf: &mut F,
    names: Names<'_>,
) -> Result<Contents, FileError>
    ensures read { MatchResult result
        (λ read. AreRead (F.state shelf.old) (F.state shelf.new) (names_held names.entry)
        (contents_held read))
        (AreUnread (F.state shelf.old) (F.state shelf.new) (names_held names.entry)) }
    ensures at_most { HandsOutAtMost (length (names_held names.entry))
        (F.state shelf.old) (F.state shelf.new) }
    ensures once { FailsOnce (result ≡ Err FileError.Fault)
        (F.state shelf.old).faults (F.state shelf.new).faults }
{
    let first = read_file(alloc, shelf, names.first)?;
    let mut others = Vec::new(alloc);
    if let Some(behind) = names.behind() {
        append_files(alloc, shelf, behind, &mut others)?;
    }
    Ok(Contents { first, others })
}

/// Reads whole files and appends them to those already read.
fn append_files<F: Shelf>(
    alloc: Global,
    shelf: &mut F,
    names: Names<'_>,
    contents: &mut Vec<Vec<u8>>,
) -> Result<(), FileError>
    ensures read { OnOk result ((read : List (List ℕ))
        × (map (λ octets. octets.items) contents.new.items
        ≡ map (λ octets. octets.items) contents.old.items ++ read)
        × AreRead (F.state shelf.old) (F.state shelf.new) (names_held names.entry) read) }
    ensures unread { IfErr result
        (AreUnread (F.state shelf.old) (F.state shelf.new) (names_held names.entry)) }
    ensures at_most { HandsOutAtMost (length (names_held names.entry))
        (F.state shelf.old) (F.state shelf.new) }
    ensures once { FailsOnce (result ≡ Err FileError.Fault)
        (F.state shelf.old).faults (F.state shelf.new).faults }
{
    contents.push(read_file(alloc, shelf, names.first)?)?;
    match names.behind() {
        Some(behind) => append_files(alloc, shelf, behind, contents),
        None => Ok(()),
    }
}
