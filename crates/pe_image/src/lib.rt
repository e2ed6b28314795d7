//! Whether a signed program of Windows is what its signer signed, and who vouches for the signer
//! (Windows Authenticode Portable Executable Signature Format): the signature at the end of the
//! file is checked for the digest of the file itself. `run` is a command line program for it, over
//! files and an output from the caller.
#![tactic(auto)]

mod answering;
mod check;
mod content;
mod error;
mod hashing;
mod laws;
mod policy;
mod program;
mod report;
mod words;

pub use check::check_pe;
pub use error::PeCheckError;
pub use hashing::image_hash;
pub use laws::tables_decide_programs;
pub use pe_core::{PeError, PeImage};
pub use program::{Commands, run};
