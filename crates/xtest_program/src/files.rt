//! Whole files from a shelf in memory, and whole reports to a sink in memory.

use picky_check::{Failed, FileError, MemShelf, MemSink, Shelf, read_file, write_report};
use std::alloc::{AllocError, Global};

// Files of a shelf; of two with the same name the later is read.
#[rattlefmt::skip]
const FILES: [(&str, &[u8]); 5] = [
    ("a",  b"octets"),
    ("b",  b"old"),
    ("e",  b""),
    ("a ", b"spaced"),
    ("b",  b"new"),
];

// A name, the call that is set to fail, and the result of reading.
#[rattlefmt::skip]
const READS: [(&str, &str, u64, Result<&[u8], FileError>); 11] = [
    ("a file",                       "a",  9, Ok(b"octets")),
    ("of two, the later",            "b",  9, Ok(b"new")),
    ("an empty file",                "e",  9, Ok(b"")),
    ("a missing name",               "c",  9, Err(FileError::Fault)),
    ("a name in another case",       "A",  9, Err(FileError::Fault)),
    ("a name with a space",          "a ", 9, Ok(b"spaced")),
    ("a name with a space too many", "b ", 9, Err(FileError::Fault)),
    ("the pick fails",               "a",  0, Err(FileError::Fault)),
    ("the first read fails",         "a",  1, Err(FileError::Fault)),
    ("the read of the end fails",    "a",  2, Err(FileError::Fault)),
    ("the call after the last",      "a",  3, Ok(b"octets")),
];

// The length of a file, and whether it is read.
#[rattlefmt::skip]
const SIZES: [(usize, bool); 4] = [
    (16_384,     true),
    (16_385,     true),
    (16_777_216, true),
    (16_777_217, false),
];

const TEXT: &str = "accepted signer=0 path= excuse=none\n";

// Room of a sink, whether the text of 36 octets is written, and the contents after it.
#[rattlefmt::skip]
const WRITES: [(usize, bool, &str); 5] = [
    (0,  false, ""),
    (5,  false, "accep"),
    (35, false, "accepted signer=0 path= excuse=none"),
    (36, true,  TEXT),
    (40, true,  TEXT),
];

#[test]
fn reads_whole_files(rt: HostRuntime) -> Result<(), AllocError> {
    for (why, name, failing, want) in READS {
        let mut shelf = shelf_of_files(rt.alloc(), failing)?;
        assert!(rt; reads(rt.alloc(), &mut shelf, name, want), "{why}");
    }
    Ok(())
}

fn shelf_of_files(alloc: Global, failing: u64) -> Result<MemShelf, AllocError> {
    let mut shelf = MemShelf::new(alloc);
    for (name, octets) in FILES {
        shelf.add(name, octets)?;
    }
    shelf.fail_at(failing)?;
    Ok(shelf)
}

/// Whether reading the file with a name gives this.
pub(crate) fn reads<F: Shelf>(
    alloc: Global,
    shelf: &mut F,
    name: &str,
    want: Result<&[u8], FileError>,
) -> bool {
    match (read_file(alloc, shelf, name), want) {
        (Ok(octets), Ok(want)) => octets.as_slice() == want,
        (Err(error), Err(want)) => error == want,
        _ => false,
    }
}

#[test]
fn stops_behind_the_longest_file(rt: HostRuntime) -> Result<(), AllocError> {
    for (size, is_read) in SIZES {
        let octets = vec![in rt.alloc(); 7u8; size]?;
        let mut shelf = MemShelf::new(rt.alloc());
        shelf.add("f", &octets)?;
        let want = if is_read {
            Ok(octets.as_slice())
        } else {
            Err(FileError::TooLong)
        };
        assert!(rt; reads(rt.alloc(), &mut shelf, "f", want), "{size}");
    }
    Ok(())
}

#[test]
fn keeps_its_place_where_a_call_fails(rt: HostRuntime) -> Result<(), AllocError> {
    let mut shelf = MemShelf::new(rt.alloc());
    shelf.add("a", b"octets")?;
    shelf.fail_at(4)?;
    assert!(rt; gives(&mut shelf, Ok(b"")), "nothing is picked");
    assert!(rt; shelf.pick("a") == Ok(()));
    assert!(rt; gives(&mut shelf, Ok(b"octe")));
    assert!(rt; shelf.pick("missing") == Err(Failed));
    assert!(rt; gives(&mut shelf, Err(Failed)), "set to fail");
    assert!(rt; gives(&mut shelf, Ok(b"ts")));
    Ok(())
}

/// Whether the next call reads these octets, of at most four.
fn gives(shelf: &mut MemShelf, want: Result<&[u8], Failed>) -> bool {
    let mut piece = [0; 4];
    match (shelf.read(&mut piece), want) {
        (Ok(count), Ok(want)) => piece.get(..count) == Some(want),
        (Err(Failed), Err(Failed)) => true,
        _ => false,
    }
}

#[test]
fn writes_whole_reports(rt: HostRuntime) -> Result<(), AllocError> {
    for (room, is_whole, held) in WRITES {
        let mut sink = MemSink::with_room(rt.alloc(), room)?;
        let written = write_report(&mut sink, TEXT);
        assert!(rt;
            written.is_ok() == is_whole && sink.held() == held.as_bytes(),
            "{room}"
        );
    }
    Ok(())
}
