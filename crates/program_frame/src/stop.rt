//! Why a run ends without a report, and the exit statuses.

ghost use Rattle.std.specs.Prelude.{◌≡◌};
ghost use Rattle.std.specs.IoError.{error_kind};
ghost use Rattle.program_frame.specs.Stops.{stop_for_file, stop_for_table, status_for};
ghost use Rattle.program_frame.specs.Statuses as statuses;
ghost use Rattle.program_frame.specs.declared.stop.Stop.TheVariants.{Memory};

use crate::FileError;
use sig_core::TableError;
use std::alloc::{AllocError, AllocFailed};
use std::io::{Error, ErrorKind};

/// What was asked for is accepted.
pub const ACCEPTED: u8 = 0;
/// It is refused.
pub const REFUSED: u8 = 1;
/// The words are no command.
pub const USAGE: u8 = 2;
/// A text among the files has a bad line.
pub const BAD_TABLE: u8 = 3;
/// A file can't be read.
pub const SHELF_FAILED: u8 = 4;
/// The report can't be written.
pub const SINK_FAILED: u8 = 5;
/// A file has more than 16,777,216 octets.
pub const TOO_LONG: u8 = 6;
/// Out of memory.
pub const OUT_OF_MEMORY: u8 = 7;

/// Why there is nothing to report.
#[derive(Clone, Copy, Debug)]
pub enum Stop {
    /// The words are no command.
    Usage,
    /// A text among the files has a bad line.
    BadTable,
    /// The shelf failed, or has no file of a name.
    Shelf,
    /// A file has more than 16,777,216 octets.
    TooLong,
    /// Out of memory.
    Memory,
}

impl Stop {
    /// The exit status.
    pub fn status(self) -> u8
        ensures { result ≡ status_for self }
    {
        match self {
            Stop::Usage => USAGE,
            Stop::BadTable => BAD_TABLE,
            Stop::Shelf => SHELF_FAILED,
            Stop::TooLong => TOO_LONG,
            Stop::Memory => OUT_OF_MEMORY,
        }
    }
}

impl From<FileError> for Stop {
    ghost from_gives = { λ e stop. stop ≡ stop_for_file e };

    fn from(error: FileError) -> Stop {
        match error {
            FileError::Fault => Stop::Shelf,
            FileError::TooLong => Stop::TooLong,
            FileError::Memory => Stop::Memory,
        }
    }
}

impl From<TableError> for Stop {
    ghost from_gives = { λ e stop. stop ≡ stop_for_table e };

    fn from(error: TableError) -> Stop {
        match error {
            TableError::BadLine { .. } => Stop::BadTable,
            TableError::Memory => Stop::Memory,
        }
    }
}

impl From<AllocError> for Stop {
    ghost from_gives = { λ _ stop. stop ≡ Memory };

    fn from(_: AllocError) -> Stop {
        Stop::Memory
    }
}

impl<T: Drop> From<AllocFailed<T>> for Stop {
    ghost from_gives = { λ _ stop. stop ≡ Memory };

    fn from(_: AllocFailed<T>) -> Stop {
        Stop::Memory
    }
}

/// The exit status if the words of the command line aren't available, by the reason: out of memory,
/// or a word that isn't UTF-8, which is a usage error.
pub fn status_without_words(reason: &Error) -> u8
    ensures memory { error_kind reason.now ≡ ErrorKind.OutOfMemory
        → result ≡ statuses.out_of_memory }
    ensures usage { (error_kind reason.now ≡ ErrorKind.OutOfMemory → ⊥)
        → result ≡ statuses.usage }
{
    if reason.kind() == ErrorKind::OutOfMemory {
        OUT_OF_MEMORY
    } else {
        USAGE
    }
}
