//! Shelves over readers that return a few octets a call, and sinks over writers that accept a few.

use crate::files::reads;
use picky_check::{Failed, FileError, Opener, ReaderShelf, WriterSink, run, write_report};
use std::alloc::{AllocError, Global};
use std::io;
use std::io::{ErrorKind, Read, Write};

/// Octets that are returned two at a time. At their end, a call is an error if the reader breaks.
#[derive(Drop)]
struct Dripping {
    rest: &'static [u8],
    breaks: bool,
}

impl Read for Dripping {
    fn read(&mut self, buf: &mut [u8]) -> io::Result<usize> {
        if self.rest.is_empty() && self.breaks {
            return Err(io::Error::from(ErrorKind::BrokenPipe));
        }
        let count = self.rest.len().min(buf.len()).min(2);
        buf[..count].copy_from_slice(&self.rest[..count]);
        self.rest = &self.rest[count..];
        Ok(count)
    }
}

/// Files by name.
#[derive(Drop)]
struct Cans;

// A name, the octets, and whether the reader breaks after them.
#[rattlefmt::skip]
const CANS: [(&str, &[u8], bool); 6] = [
    ("seven", b"octets.", false),
    ("empty", b"",        false),
    ("none",  b"",        true),
    ("bad",   b"octets",  true),
    ("a",     b"plain",   false),
    ("a ",    b"spaced",  false),
];

impl Opener for Cans {
    type Reader = Dripping;

    fn open(&self, name: &str) -> io::Result<Dripping> {
        for (known, rest, breaks) in CANS {
            if known == name {
                return Ok(Dripping { rest, breaks });
            }
        }
        Err(io::Error::from(ErrorKind::NotFound))
    }
}

// A name, and the result of reading.
#[rattlefmt::skip]
const READS: [(&str, Result<&[u8], FileError>); 9] = [
    ("seven", Ok(b"octets.")),
    ("empty", Ok(b"")),
    ("a",     Ok(b"plain")),
    ("a ",    Ok(b"spaced")),
    (" a",    Err(FileError::Fault)),
    ("A",     Err(FileError::Fault)),
    ("",      Err(FileError::Fault)),
    ("bad",   Err(FileError::Fault)),
    ("none",  Err(FileError::Fault)),
];

#[test]
fn whole_files_are_read(rt: HostRuntime) {
    for (name, want) in READS {
        let mut shelf = ReaderShelf::over(Cans);
        assert!(rt; reads(rt.alloc(), &mut shelf, name, want), "{name}");
    }
}

/// A writer that accepts three octets a call until its room is used up. Then a call is an error, or
/// accepts nothing.
#[derive(Drop)]
struct Narrow {
    held: Vec<u8>,
    room: usize,
    fails: bool,
}

impl Narrow {
    fn new(alloc: Global, room: usize, fails: bool) -> Narrow {
        Narrow {
            held: Vec::new(alloc),
            room,
            fails,
        }
    }
}

impl Write for Narrow {
    fn write(&mut self, buf: &[u8]) -> io::Result<usize> {
        let count = buf.len().min(self.room).min(3);
        if count == 0 && self.fails {
            return Err(io::Error::from(ErrorKind::StorageFull));
        }
        self.held.extend_from_slice(&buf[..count])?;
        self.room -= count;
        Ok(count)
    }

    fn flush(&mut self) -> io::Result<()> {
        Ok(())
    }
}

// The room of a writer, whether it fails then, the result, and its contents.
#[rattlefmt::skip]
const WRITES: [(usize, bool, Result<(), Failed>, &str); 6] = [
    (9, true,  Ok(()),      "12345678"),
    (8, true,  Ok(()),      "12345678"),
    (8, false, Ok(()),      "12345678"),
    (7, true,  Err(Failed), "1234567"),
    (7, false, Err(Failed), "1234567"),
    (0, false, Err(Failed), ""),
];

#[test]
fn whole_texts_are_written(rt: HostRuntime) {
    for (room, fails, want, held) in WRITES {
        let mut narrow = Narrow::new(rt.alloc(), room, fails);
        let got = write_report(&mut WriterSink::over(&mut narrow), "12345678");
        assert!(rt;
            got == want && narrow.held.as_slice() == held.as_bytes(),
            "{room}"
        );
    }
}

const LINE: &str = "refused WrongLength\n";

// The words, the room of the output, the status, and what is written.
#[rattlefmt::skip]
const RUNS: [(&[&str], usize, u8, &str); 8] = [
    (&["basic", "seven", "empty", "00"], 99, 1, LINE),
    (&["basic", "seven", "empty", "00"], 20, 1, LINE),
    (&["basic", "seven", "empty", "00"], 19, 5, "refused WrongLength"),
    (&["basic", "seven", "a",     "00"], 99, 3, ""),
    (&["basic", "seven", "bad",   "00"], 99, 4, ""),
    (&["basic", "none",  "empty", "00"], 99, 4, ""),
    (&["basic", "b",     "a",     "00"], 99, 4, ""),
    (&["basic", "seven", "empty", "0"],  99, 2, ""),
];

#[test]
fn runs_are_answered(rt: HostRuntime) -> Result<(), AllocError> {
    for (words, room, status, written) in RUNS {
        assert!(rt;
            answers(rt.alloc(), words, room, status, written)?,
            "{words:?}"
        );
    }
    Ok(())
}

fn answers(
    alloc: Global,
    words: &[&str],
    room: usize,
    status: u8,
    written: &str,
) -> Result<bool, AllocError> {
    let words = owned(alloc, words)?;
    let mut shelf = ReaderShelf::over(Cans);
    let mut narrow = Narrow::new(alloc, room, true);
    let got = run(
        alloc,
        &words,
        &mut shelf,
        &mut WriterSink::over(&mut narrow),
    );
    Ok(got == status && narrow.held.as_slice() == written.as_bytes())
}

fn owned(alloc: Global, words: &[&str]) -> Result<Vec<String>, AllocError> {
    let mut strings = Vec::new(alloc);
    for word in words {
        strings.push(String::from_str(alloc, word)?)?;
    }
    Ok(strings)
}
