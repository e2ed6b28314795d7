//! A CA with a register: it issues roots, children and answers to requests, records an entry of
//! each, and knows from its entries alone when a certificate is accepted.
#![tactic(auto)]

mod ancestors;
mod answering;
mod command;
mod counting;
mod depth;
mod entry;
mod error;
mod filling;
mod issuing;
mod keys;
mod program;
mod register;
mod report;
mod text;
mod usable;
mod verifying;
mod words;

pub use entry::{Entry, Grant};
pub use error::IssueError;
pub use program::run;
pub use program_frame::{
    ACCEPTED, BAD_TABLE, DirShelf, Failed, MemShelf, MemSink, OUT_OF_MEMORY, OutSink, REFUSED,
    SHELF_FAILED, SINK_FAILED, Shelf, Sink, TOO_LONG, USAGE, status_without_words,
};
pub use register::Register;
pub use text::{Limits, RegisterLine, lines_of};
