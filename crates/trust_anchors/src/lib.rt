//! Trust anchors (RFC 5280 6.1.1 (d)), and the shortest path from a certificate to one of them
//! through certificates in any order; the program that searches it among files.
#![tactic(auto)]

mod anchor;
mod answering;
mod command;
mod error;
mod laws;
mod link;
mod path;
mod program;
mod reading;
mod report;
mod search;
mod steps;
mod store;
mod words;

pub use anchor::Purpose;
pub use error::AnchorError;
pub use laws::{anchored_paths_are_accepted, first_paths_are_one, links_decide_paths};
pub use path::AnchoredPath;
pub use program::run;
pub use program_frame::{
    ACCEPTED, BAD_TABLE, DirShelf, Failed, MemShelf, MemSink, OUT_OF_MEMORY, OutSink, REFUSED,
    SHELF_FAILED, SINK_FAILED, Shelf, Sink, TOO_LONG, USAGE, status_without_words,
};
pub use report::anchored_line;
pub use steps::Steps;
pub use store::AnchorStore;
pub use x509_core::Places;
