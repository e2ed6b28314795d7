//! Checks of signatures for callers in C: words and files as octets that the caller keeps; a status,
//! and a line in the caller's buffer.
#![tactic(auto)]

mod ask;
mod chain;
mod check;
mod program;
mod table;
