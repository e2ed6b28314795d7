//! Printing names and errors.

use names_core::DirectoryName;
use std::alloc::{AllocError, Global};
use x509_core::{CertError, CsrError};
use xgolden::Line;

/// The text of a name, or why there is none.
pub fn print_name(name: Result<DirectoryName, AllocError>, line: &mut Line) {
    match name {
        Ok(name) => line.shown(&name),
        Err(error) => line.shown(&error),
    }
}

/// The name and the text of an error.
pub fn print_refused(alloc: Global, error: &CertError, line: &mut Line) {
    match error.name(alloc) {
        Ok(name) => {
            line.word(name.as_str());
            line.mark(":");
            line.shown(error);
        }
        Err(refused) => line.shown(&refused),
    }
}

/// Prints the text of an error, which is dropped only here.
pub fn print_error(error: CsrError, line: &mut Line) {
    line.shown(&error);
}
