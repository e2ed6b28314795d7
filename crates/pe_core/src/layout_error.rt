//! Why an image isn't whole, or its certificate table no list of entries.

ghost use Rattle.std.specs.Prelude.{Some, codes};
ghost use Rattle.pe_core.specs.LayoutErrorText.{layout_error_text, bad_table_text};

use std::fmt;
use thiserror::Error;

/// Why an image isn't whole.
#[derive(Clone, Copy, Debug, PartialEq, Eq, Error)]
pub enum LayoutError {
    /// The section table ends behind the headers, by SizeOfHeaders, or these behind the beginning
    /// of the certificate table.
    HeadersOutside,
    /// The data of this section, the first of which is 0, begins in the headers or ends behind the
    /// beginning of the certificate table.
    SectionOutside { section: u16 },
}

impl fmt::Display for LayoutError {
    ghost output = { λ error. Some (layout_error_text error) };

    fn fmt<W: fmt::Write>(&self, f: &mut fmt::Formatter<W>) -> fmt::Result {
        match self {
            LayoutError::HeadersOutside => write!(
                f,
                "the program's section table isn't in its headers, or these reach into its signature"
            ),
            LayoutError::SectionOutside { section } => write!(
                f,
                "section {section} of the program isn't between its headers and its signature"
            ),
        }
    }
}

/// A certificate table that is no list of entries: an entry has fewer than eight octets or more
/// than the table has left, the octets up to the next entry aren't all zero, or those behind the
/// last aren't or are more than seven.
#[derive(Clone, Copy, Debug, PartialEq, Eq, Error)]
pub struct BadTable;

impl fmt::Display for BadTable {
    ghost output = { λ error. Some bad_table_text };

    fn fmt<W: fmt::Write>(&self, f: &mut fmt::Formatter<W>) -> fmt::Result {
        write!(f, "the certificate table is no list of entries")
    }
}
