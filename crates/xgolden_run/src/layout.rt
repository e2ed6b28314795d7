//! Whether programs of Windows are whole, and the entries of their certificate tables.
//!
//! A vector is a program in hexadecimal, `-` for an empty one. The line says why the file is no image
//! with a certificate table. Else it has `whole`, or why the image isn't, and for each entry of the
//! table its length, its revision, its type and the octets behind its header, or why the table is no
//! list of entries.

use pe_core::{Entries, PeImage};
use std::alloc::Global;
use xgolden::{Args, Line};

/// Prints the output for a vector.
pub fn print(_alloc: Global, args: Args<'_>, line: &mut Line) {
    let [Some(file)] = args.octets else {
        return line.no_call();
    };
    match PeImage::parse(file) {
        Ok(image) => print_image(&image, line),
        Err(error) => line.shown(&error),
    }
}

fn print_image(image: &PeImage<'_>, line: &mut Line) {
    match image.expect_whole() {
        Ok(()) => line.word("whole"),
        Err(error) => line.shown(&error),
    }
    match image.entries() {
        Ok(entries) => print_entries(entries, line),
        Err(error) => line.shown(&error),
    }
}

fn print_entries(mut entries: Entries<'_>, line: &mut Line) {
    while let Some(entry) = entries.next() {
        line.shown(&entry.whole().len());
        line.shown(&entry.revision());
        line.shown(&entry.certificate_type());
        line.octets(entry.certificate());
    }
}
