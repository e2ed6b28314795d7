//! Files in one pool of octets, read through a shelf.

use door_frame::{LentShelf, append_pool};
use program_frame::{Stop, read_file};
use std::alloc::Global;
use std::test::Fail;

/// How long a file of a pool is. Files are named by their numbers.
fn length_in_pool(
    alloc: Global,
    pool: &[u8],
    lengths: &[usize],
    number: &str,
) -> Result<usize, Stop> {
    let mut files = Vec::new(alloc);
    append_pool(&mut files, pool, lengths)?;
    let octets = read_file(alloc, &mut LentShelf::new(&files), number)?;
    Ok(octets.len())
}

#[test]
fn reads_files_of_a_pool(rt: HostRuntime) -> Result<(), Fail> {
    let lengths = [3, 0, 9];
    for (number, length) in [("0", 3), ("1", 0), ("2", 2)] {
        let read = length_in_pool(rt.alloc(), b"abcde", &lengths, number);
        assert_eq!(rt; read.ok(), Some(length));
    }
    let missing = length_in_pool(rt.alloc(), b"abcde", &lengths, "3");
    assert!(rt; missing.err().is_some_and(|stop| stop.status() == 4));
    Ok(())
}
