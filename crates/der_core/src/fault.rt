//! What is wrong with octets that aren't an element, and where.

ghost use Rattle.std.specs.Prelude.{Some};
ghost use Rattle.der_core.specs.ErrorText.{fault_text, malformed_text};

use std::fmt;
use thiserror::Error;

/// The first test that fails: a test of an element, or that no octets follow it.
#[derive(Clone, Copy, Debug, PartialEq, Eq, Error)]
pub enum DerFault {
    /// The octets end inside the outermost element.
    Truncated,
    /// The identifier octet is 00 (X.690 8.1.5).
    ReservedTag,
    /// The tag number is 31 or above (X.690 8.1.2.4).
    HighTag,
    /// The length has the indefinite form (X.690 8.1.3.6).
    Indefinite,
    /// The length isn't in its shortest form (X.690 10.1).
    NotShortest,
    /// The length has more than four subsequent octets (X.690 8.1.3.5).
    WideLength,
    /// The element is nested in 64 others.
    TooDeep,
    /// An inner element runs past the end of the contents that it is in.
    Overrun,
    /// Octets follow the element.
    Trailing,
}

/// The first fault from left to right, and the offset of the element that has it; for trailing
/// octets, the offset of the first of them.
#[derive(Clone, Copy, Debug, PartialEq, Eq, Error)]
pub struct Malformed {
    pub at: usize,
    pub fault: DerFault,
}

impl fmt::Display for DerFault {
    ghost output = { λ fault. Some (fault_text fault) };

    fn fmt<W: fmt::Write>(&self, f: &mut fmt::Formatter<W>) -> fmt::Result {
        match self {
            DerFault::Truncated => write!(f, "the octets end within the element"),
            DerFault::ReservedTag => write!(f, "the reserved tag 0"),
            DerFault::HighTag => write!(f, "a tag number above 30"),
            DerFault::Indefinite => write!(f, "an indefinite length"),
            DerFault::NotShortest => write!(f, "a length that is not in its shortest form"),
            DerFault::WideLength => write!(f, "a length of more than four octets"),
            DerFault::TooDeep => write!(f, "an element nested deeper than 64 levels"),
            DerFault::Overrun => write!(
                f,
                "an element that runs past the end of the one around it"
            ),
            DerFault::Trailing => write!(f, "octets after the element"),
        }
    }
}

impl fmt::Display for Malformed {
    ghost output = { λ malformed. Some (malformed_text malformed) };

    fn fmt<W: fmt::Write>(&self, f: &mut fmt::Formatter<W>) -> fmt::Result {
        let Malformed { at, fault } = self;
        write!(f, "{fault} at octet {at}")
    }
}
