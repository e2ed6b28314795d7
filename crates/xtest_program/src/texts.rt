//! The texts of errors.

use picky_check::{Failed, FileError};
use std::alloc::{AllocError, Global};
use std::fmt::Display;

#[rattlefmt::skip]
const ERRORS: [(FileError, &str); 3] = [
    (FileError::Fault, "the file can't be read"),
    (FileError::TooLong, "the file has more than 16777216 octets"),
    (FileError::Memory, "out of memory"),
];

#[test]
fn texts(rt: HostRuntime) -> Result<(), AllocError> {
    for (error, text) in ERRORS {
        assert!(rt; prints(rt.alloc(), &error, text)?, "{text}");
    }
    assert!(rt; prints(rt.alloc(), &Failed, "the outside failed")?);
    Ok(())
}

fn prints(alloc: Global, value: &impl Display, text: &str) -> Result<bool, AllocError> {
    Ok(value.to_string(alloc)?.as_str() == text)
}
