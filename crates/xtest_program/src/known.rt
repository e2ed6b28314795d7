//! A verdict table that is known before the files are read.

use picky_check::{BAD_TABLE, Commands, KnownTable, MemShelf, MemSink, REFUSED};
use program_frame::Program;
use std::alloc::{AllocError, Global};
use std::test::Fail;

// A table of version 2 without rows.
const EMPTY: &[u8] = b"picky-verdicts 2\n";

// Texts of the file TABLE, and the status.
const TABLES: [(&[u8], u8); 3] = [(b"", REFUSED), (EMPTY, REFUSED), (b"x\n", BAD_TABLE)];

/// The status and the sink of `basic` over one octet and this table.
fn outcome(
    alloc: Global,
    known: Option<&KnownTable>,
    table: &[u8],
) -> Result<(u8, MemSink), AllocError> {
    let mut shelf = MemShelf::new(alloc);
    shelf.add("SIG", b"x")?;
    shelf.add("TABLE", table)?;
    let mut out = MemSink::with_room(alloc, 100)?;
    let mut words = Vec::new(alloc);
    for word in ["basic", "SIG", "TABLE", "00"] {
        words.push(String::from_str(alloc, word)?)?;
    }
    let status = Commands { known }.run(alloc, &words, &mut shelf, &mut out);
    Ok((status, out))
}

#[test]
fn a_known_table_changes_no_answer(rt: HostRuntime) -> Result<(), Fail> {
    for text in [b"" as &[u8], EMPTY] {
        let Ok(known) = KnownTable::parse(rt.alloc(), text) else {
            return Err(Fail::from("a table"));
        };
        for (table, expected) in TABLES {
            let (status, out) = outcome(rt.alloc(), None, table)?;
            assert!(rt; status == expected, "the status without a known table");
            let (again, with_known) = outcome(rt.alloc(), Some(&known), table)?;
            assert!(rt; again == expected, "the status with one");
            assert!(rt; out.held() == with_known.held(), "the line");
        }
    }
    Ok(())
}

#[test]
fn a_bad_line_is_not_known(rt: HostRuntime) -> Result<(), Fail> {
    assert!(rt; KnownTable::parse(rt.alloc(), b"x\n").is_err(), "no table");
    Ok(())
}
