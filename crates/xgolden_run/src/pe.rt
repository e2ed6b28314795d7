//! The parts of programs of Windows, and their digests.
//!
//! A vector is the name of a digest algorithm and a program in hexadecimal, `-` for an empty one. The
//! line has the lengths of head, middle, rest and table and the digest, or why the file is no image
//! with a certificate table.

use pe_core::PeImage;
use sig_core::HashAlgorithm;
use std::alloc::Global;
use xgolden::{Args, Line, digest_of};

/// Prints the output for a vector.
pub fn print(alloc: Global, args: Args<'_>, line: &mut Line) {
    let ([name, _], [_, Some(file)]) = (args.words, args.octets) else {
        return line.no_call();
    };
    let Ok(algorithm) = digest_of(name) else {
        return line.no_call();
    };
    match PeImage::parse(file) {
        Ok(image) => print_image(alloc, &image, algorithm, line),
        Err(error) => line.shown(&error),
    }
}

fn print_image(alloc: Global, image: &PeImage<'_>, algorithm: HashAlgorithm, line: &mut Line) {
    for part in [image.head(), image.middle(), image.rest(), image.table()] {
        line.shown(&part.len());
    }
    line.made(image.digest(alloc, algorithm));
}
