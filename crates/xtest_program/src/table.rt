//! A handle of a verdict table.

use door_frame::TableHandle;
use program_frame::KnownTable;
use sig_core::TableError;
use std::alloc::Global;
use std::test::Fail;

// A table of version 2 without rows.
const EMPTY: &[u8] = b"picky-verdicts 2\n";

// Texts that aren't tables, and their first bad line.
const BAD: [(&[u8], u64); 3] = [
    (b"x\n", 1),
    (b"picky-verdicts 3\n", 1),
    (b"picky-verdicts 2\nx\n", 2),
];

/// Whether this is a table with this text.
fn has_text(table: &Option<Box<KnownTable>>, text: &[u8]) -> bool {
    match table {
        Some(table) => table.text() == text,
        None => false,
    }
}

/// Whether a handle keeps a table with this text. It keeps it on.
fn keeps(alloc: Global, handle: &mut TableHandle, text: &[u8]) -> bool {
    let table = handle.take(alloc);
    let has = has_text(&table, text);
    handle.put(alloc, table);
    has
}

#[test]
fn a_new_handle_has_no_table(rt: HostRuntime) -> Result<(), Fail> {
    let mut handle = TableHandle::new();
    let taken = handle.take(rt.alloc()).is_none();
    handle.free(rt.alloc());
    let left = handle.into_table(rt.alloc()).is_none();
    assert!(rt; taken, "nothing to take");
    assert!(rt; left, "nothing after it was freed");
    Ok(())
}

#[test]
fn a_handle_keeps_the_table_of_a_text(rt: HostRuntime) -> Result<(), Fail> {
    let mut handle = TableHandle::new();
    let parsed = handle.parse(rt.alloc(), EMPTY);
    let kept = keeps(rt.alloc(), &mut handle, EMPTY);
    let again = keeps(rt.alloc(), &mut handle, EMPTY);
    let other = handle.parse(rt.alloc(), b"");
    let last: &[u8] = if other.is_ok() { b"" } else { EMPTY };
    let replaced = keeps(rt.alloc(), &mut handle, last);
    let table = handle.into_table(rt.alloc());
    parsed?;
    assert!(rt; kept, "the text");
    assert!(rt; again, "the text in the next call");
    assert!(rt; replaced, "another text, or the same if memory ran out");
    assert!(rt; has_text(&table, last), "the last text");
    other?;
    Ok(())
}

#[test]
fn a_bad_line_leaves_the_handle(rt: HostRuntime) -> Result<(), Fail> {
    for (text, expected) in BAD {
        let mut handle = TableHandle::new();
        let refused = handle.parse(rt.alloc(), text);
        let none = handle.take(rt.alloc()).is_none();
        let parsed = handle.parse(rt.alloc(), EMPTY);
        let again = handle.parse(rt.alloc(), text);
        let kept = keeps(rt.alloc(), &mut handle, EMPTY);
        handle.free(rt.alloc());
        let table = handle.into_table(rt.alloc());
        parsed?;
        assert!(rt;
            refused == Err(TableError::BadLine { number: expected }),
            "the line"
        );
        assert!(rt; none, "no table");
        assert!(rt; again == refused, "the same line");
        assert!(rt; kept, "the table before it");
        assert!(rt; table.is_none(), "it was freed");
    }
    Ok(())
}

#[test]
fn a_table_is_taken_and_put(rt: HostRuntime) -> Result<(), Fail> {
    let mut from = TableHandle::new();
    let mut to = TableHandle::new();
    let parsed = from.parse(rt.alloc(), EMPTY);
    let table = from.take(rt.alloc());
    let taken = has_text(&table, EMPTY);
    to.put(rt.alloc(), table);
    let put = keeps(rt.alloc(), &mut to, EMPTY);
    to.put(rt.alloc(), None);
    let left = from.into_table(rt.alloc()).is_none();
    let freed = to.into_table(rt.alloc()).is_none();
    parsed?;
    assert!(rt; taken, "the table that was taken");
    assert!(rt; put, "the other handle keeps it");
    assert!(rt; left, "it was taken out");
    assert!(rt; freed, "none was put in its place");
    Ok(())
}
