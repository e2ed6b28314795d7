//! Borrowed elements, read one after another.

use der_core::{Cursor, DerFault, Malformed};

/// Whether a cursor yields an element with a tag and contents.
fn gives(cursor: &mut Cursor<'_>, tag: u8, content: &[u8]) -> bool {
    match cursor.next() {
        Ok(Some(elem)) => elem.tag == tag && elem.content == content,
        _ => false,
    }
}

/// Whether a cursor is at an offset and a level.
fn is_at(cursor: &Cursor<'_>, level: u8, place: usize) -> bool {
    cursor.level() == level && cursor.place() == place
}

/// The elements within the next one, if it is constructed.
fn next_kids<'a>(cursor: &mut Cursor<'a>) -> Option<Cursor<'a>> {
    match cursor.next() {
        Ok(Some(elem)) => elem.kids(),
        _ => None,
    }
}

#[test]
fn elements_and_a_refusal(rt: HostRuntime) {
    let mut cursor = Cursor::new(&[2, 1, 5, 4, 0, 0x30, 0x80]);
    assert!(rt; gives(&mut cursor, 2, &[5]) && is_at(&cursor, 1, 3));
    assert!(rt; gives(&mut cursor, 4, &[]) && is_at(&cursor, 1, 5));
    let indefinite = Malformed {
        at: 5,
        fault: DerFault::Indefinite,
    };
    for _ in 0..2 {
        assert!(rt; cursor.next().err() == Some(indefinite));
        assert!(rt; is_at(&cursor, 1, 5) && cursor.rest() == [0x30, 0x80].as_slice());
    }
}

#[test]
fn inner_elements(rt: HostRuntime) {
    let mut outer = Cursor::new(&[5, 0, 0x30, 5, 0x31, 0, 2, 1, 7]);
    assert!(rt; next_kids(&mut outer).is_none(), "a NULL has no kids");
    assert!(rt; is_at(&outer, 1, 2));
    let mut kids = next_kids(&mut outer).expect(&rt, "a SEQUENCE has kids");
    assert!(rt; gives(&mut kids, 0x31, &[]) && is_at(&kids, 2, 2));
    assert!(rt; gives(&mut kids, 2, &[7]) && is_at(&kids, 2, 5));
    assert!(rt; matches!(kids.next(), Ok(None)));
    assert!(rt; matches!(outer.next(), Ok(None)) && is_at(&outer, 1, 9));
}
