//! What the words of the command line request.

use names_core::UtcDate;

/// How many certificates of a register are accepted at a date.
#[derive(Clone, Copy, Debug)]
pub(crate) struct Command<'a> {
    /// The text of the register.
    pub(crate) file: &'a str,
    pub(crate) date: UtcDate,
}
