//! A shelf, words, a pool and lines.

use door_frame::{LentFile, LentShelf, append_pool, hand_out, words_of};
use program_frame::{ACCEPTED, FileError, SINK_FAILED, Shelf, read_file};
use std::alloc::Global;
use std::test::Fail;

const LINE: &[u8] = b"accepted\n";

// A text, and its words.
const TEXTS: [(&str, &[&str]); 4] = [
    ("", &[""]),
    ("a", &["a"]),
    ("a b\nc", &["a b", "c"]),
    ("\n\nx\n", &["", "", "x", ""]),
];

// The files of the pool `abcdef` with the lengths 1, 0, 3 and 9.
const POOLED: [(&str, &[u8]); 4] = [("0", b"a"), ("1", b""), ("2", b"bcd"), ("3", b"ef")];

/// Whether a whole file is read, and how.
fn reads<F: Shelf>(
    alloc: Global,
    shelf: &mut F,
    name: &str,
    expected: Result<&[u8], FileError>,
) -> bool {
    match (read_file(alloc, shelf, name), expected) {
        (Ok(octets), Ok(expected)) => octets.as_slice() == expected,
        (Err(error), Err(expected)) => error == expected,
        _ => false,
    }
}

#[test]
fn reads_borrowed_files(rt: HostRuntime) -> Result<(), Fail> {
    let files = [
        LentFile {
            name: "a",
            octets: b"first",
        },
        LentFile {
            name: "a",
            octets: b"second",
        },
        LentFile {
            name: "b",
            octets: b"",
        },
    ];
    let mut shelf = LentShelf::new(&files);
    assert!(rt;
        reads(rt.alloc(), &mut shelf, "a", Ok(b"first")),
        "of two with one name the first"
    );
    assert!(rt;
        reads(rt.alloc(), &mut shelf, "b", Ok(b"")),
        "an empty file"
    );
    assert!(rt;
        reads(rt.alloc(), &mut shelf, "c", Err(FileError::Fault)),
        "no file"
    );
    assert!(rt;
        reads(rt.alloc(), &mut shelf, "a", Ok(b"first")),
        "a file again"
    );
    Ok(())
}

#[test]
fn reads_words(rt: HostRuntime) -> Result<(), Fail> {
    for (text, expected) in TEXTS {
        let words = words_of(rt.alloc(), text)?;
        assert!(rt; words.len() == expected.len(), "how many words");
        for (word, expected) in words.iter().zip(expected) {
            assert!(rt; word.as_str() == *expected, "a word");
        }
    }
    Ok(())
}

#[test]
fn reads_a_pool(rt: HostRuntime) -> Result<(), Fail> {
    let mut files = Vec::new(rt.alloc());
    append_pool(&mut files, b"abcdef", &[1, 0, 3, 9])?;
    let mut shelf = LentShelf::new(&files);
    for (name, octets) in POOLED {
        assert!(rt;
            reads(rt.alloc(), &mut shelf, name, Ok(octets)),
            "a file of the pool"
        );
    }
    assert!(rt;
        reads(rt.alloc(), &mut shelf, "4", Err(FileError::Fault)),
        "no fifth"
    );
    Ok(())
}

#[test]
fn hands_out_lines(rt: HostRuntime) -> Result<(), Fail> {
    let mut buffer = *b"-----------";
    let handed = hand_out(ACCEPTED, LINE, &mut buffer);
    assert!(rt;
        (handed.status, handed.written) == (ACCEPTED, LINE.len()),
        "a whole line"
    );
    assert!(rt;
        &buffer == b"accepted\n--",
        "at the start, and nothing behind it"
    );
    let handed = hand_out(SINK_FAILED, b"rej", &mut buffer);
    assert!(rt;
        (handed.status, handed.written) == (SINK_FAILED, 0),
        "a line that was cut"
    );
    assert!(rt; &buffer == b"accepted\n--", "nothing is written of it");
    Ok(())
}
