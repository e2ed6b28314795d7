//! The texts of errors.

use der_core::DerFault::*;
use der_core::{DerError, DerFault, Malformed};
use std::alloc::{AllocError, Global};
use std::fmt::Display;

#[rattlefmt::skip]
const FAULTS: [(DerFault, &str); 9] = [
    (Truncated, "the octets end within the element"),
    (ReservedTag, "the reserved tag 0"),
    (HighTag, "a tag number above 30"),
    (Indefinite, "an indefinite length"),
    (NotShortest, "a length that is not in its shortest form"),
    (WideLength, "a length of more than four octets"),
    (TooDeep, "an element nested deeper than 64 levels"),
    (Overrun, "an element that runs past the end of the one around it"),
    (Trailing, "octets after the element"),
];

#[rattlefmt::skip]
const ERRORS: [(DerError, &str); 5] = [
    (DerError::Malformed(Malformed { at: 42, fault: HighTag }), "malformed DER: a tag number above 30 at octet 42"),
    (DerError::Shape, "the element has another structure than the one that is read"),
    (DerError::TooDeep, "the tree is nested deeper than 64 levels and cannot be written"),
    (DerError::TooLong, "some contents of the tree pass 4294967295 octets and cannot be written"),
    (DerError::Memory, "out of memory"),
];

#[test]
fn texts(rt: HostRuntime) -> Result<(), AllocError> {
    for (fault, text) in FAULTS {
        assert!(rt; prints(rt.alloc(), &fault, text)?, "{text}");
    }
    for (error, text) in ERRORS {
        assert!(rt; prints(rt.alloc(), &error, text)?, "{text}");
    }
    Ok(())
}

fn prints(alloc: Global, value: &impl Display, text: &str) -> Result<bool, AllocError> {
    Ok(value.to_string(alloc)?.as_str() == text)
}
