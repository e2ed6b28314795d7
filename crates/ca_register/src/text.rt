//! The text of a register: a line for each certificate that a CA is to issue.

mod cutting;
mod line;
mod reading;
mod words;

pub use line::{Limits, RegisterLine};
pub use reading::lines_of;
