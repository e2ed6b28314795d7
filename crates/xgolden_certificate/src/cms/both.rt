//! The results for octets as owned and as borrowed signed data.

use crate::cms::details::Details;
use crate::cms::structures::is_written;
use crate::cms::view;
use crate::shown::{print_digest, print_refusal};
use cms_types::{Pkcs7Certificate, SignedView};
use der_core::{Cursor, Structure};
use std::alloc::Global;
use xgolden::{Line, Unanswered};

/// Prints the result for the owned value, a bar, and that for the borrowed one.
pub fn print(alloc: Global, kind: &str, octets: &[u8], line: &mut Line) {
    if kind != "pkcs7" {
        return line.no_call();
    }
    print_kept::<Pkcs7Certificate>(alloc, octets, line);
    line.word("|");
    print_lent(alloc, octets, line);
}

/// Prints whether the value round-trips, and the digest of its fields; or the refusal.
fn print_kept<T: Structure + Details>(alloc: Global, octets: &[u8], line: &mut Line) {
    match T::from_der(alloc, octets) {
        Ok(value) => print_value(alloc, octets, &value, line),
        Err(error) => print_refusal(error, line),
    }
}

fn print_value<T: Structure + Details>(alloc: Global, octets: &[u8], value: &T, line: &mut Line) {
    line.same(is_written(alloc, octets, value));
    print_digest(details_of(alloc, value), line);
}

fn details_of<T: Details>(alloc: Global, value: &T) -> Result<String, Unanswered> {
    let mut fields = Line::new(alloc);
    value.print(&mut fields);
    fields.into_text()
}

/// Prints the digest of the borrowed fields of the signed data; or the refusal.
fn print_lent(alloc: Global, octets: &[u8], line: &mut Line) {
    match Cursor::new(octets).next() {
        Ok(Some(elem)) => match SignedView::read(elem) {
            Some(view) => print_digest(fields_of(alloc, view), line),
            None => line.word("Shape"),
        },
        Ok(None) => line.word("none"),
        Err(malformed) => line.shown(&malformed),
    }
}

fn fields_of(alloc: Global, view: SignedView<'_>) -> Result<String, Unanswered> {
    let mut fields = Line::new(alloc);
    view::print(view, &mut fields);
    fields.into_text()
}
