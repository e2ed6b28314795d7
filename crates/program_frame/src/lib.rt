//! What programs over files share: files from a shelf and a report to a sink, commands and their
//! runs, the exit statuses, and words of a command line.
#![tactic(auto)]

mod command;
mod dates;
mod disk;
mod error;
mod files;
mod known_table;
mod memory;
mod options;
mod program;
mod report;
mod seconds;
mod shelf;
mod sink;
mod stop;
mod stored;
mod stream;
mod table_command;

pub use command::{Command, run};
pub use dates::date_of;
pub use disk::{DirShelf, OutSink, Paths};
pub use error::FileError;
pub use files::{Contents, Names, read_file, write_report};
pub use known_table::{FoundTable, KnownTable, find_table};
pub use memory::{MemShelf, MemSink};
pub use options::{CheckOption, CheckOptions, ListOption, options_of};
pub use program::Program;
pub use report::{Report, deliver};
pub use shelf::{Failed, Shelf};
pub use sink::Sink;
pub use stop::{
    ACCEPTED, BAD_TABLE, OUT_OF_MEMORY, REFUSED, SHELF_FAILED, SINK_FAILED, Stop, TOO_LONG, USAGE,
    status_without_words,
};
pub use stream::{Opener, ReaderShelf, WriterSink};
pub use table_command::{TableCommand, run_by_table};
