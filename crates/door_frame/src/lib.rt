//! What a call from C is made of: a shelf over octets that the caller keeps, the words of a command
//! line as one text, the line that a run wrote, handed out into the caller's buffer, and a verdict
//! table that the caller keeps between calls.
#![tactic(auto)]

mod borrowed_shelf;
mod calling;
mod files;
mod handing;
mod pool;
mod table_handle;
mod words;

pub use borrowed_shelf::LentShelf;
pub use calling::call;
pub use files::{LentFile, borrowed};
pub use handing::{HandedOut, hand_out};
pub use pool::{append_pool, pooled};
pub use table_handle::TableHandle;
pub use words::words_of;
