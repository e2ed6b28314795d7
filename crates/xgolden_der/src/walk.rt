//! All elements in some octets, in order, each before those inside it.

use der_core::{Cursor, MAX_NESTING, Malformed};

/// The number of elements in octets, nested ones included.
pub fn count_elements(octets: &[u8]) -> Result<u64, Malformed> {
    count_within(Cursor::new(octets), MAX_NESTING)
}

/// The number of elements that a cursor yields, with those nested up to this many levels.
fn count_within(mut cursor: Cursor<'_>, levels: u8) -> Result<u64, Malformed> {
    let Some(inner) = levels.checked_sub(1) else {
        return Ok(0);
    };
    let mut count = 0u64;
    while let Some(elem) = cursor.next()? {
        count = count.saturating_add(1);
        if let Some(kids) = elem.kids() {
            count = count.saturating_add(count_within(kids, inner)?);
        }
    }
    Ok(count)
}
