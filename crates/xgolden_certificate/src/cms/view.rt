//! Printing borrowed signed data.

use crate::shown::octets_of;
use cms_types::{SignedView, SignerView};
use der_core::{Cursor, Elem};
use xgolden::Line;

/// The fields in order, except for the revocation lists, each as octets.
pub fn print(view: SignedView<'_>, line: &mut Line) {
    line.shown(&view.version());
    print_all(view.digest_algorithms(), line);
    line.octets(view.content_type());
    line.given(octets_of(view.content()));
    print_all(view.members(), line);
    print_signers(view.signers(), line);
}

/// The octets of elements, in brackets.
fn print_all(mut elements: Cursor<'_>, line: &mut Line) {
    line.word("[");
    // An element takes octets, so there are no more elements than octets.
    for _ in 0..elements.rest().len() {
        let Ok(Some(elem)) = elements.next() else {
            break;
        };
        line.octets(elem.whole);
    }
    line.word("]");
}

/// The fields of signers, in brackets.
fn print_signers(mut elements: Cursor<'_>, line: &mut Line) {
    line.word("[");
    for _ in 0..elements.rest().len() {
        let Ok(Some(elem)) = elements.next() else {
            break;
        };
        print_signer(elem, line);
    }
    line.word("]");
}

/// The fields of a signer.
fn print_signer(elem: Elem<'_>, line: &mut Line) {
    match SignerView::read(elem) {
        Some(view) => print_fields(view, line),
        None => line.word("Shape"),
    }
}

fn print_fields(view: SignerView<'_>, line: &mut Line) {
    line.shown(&view.version());
    print_named(view, line);
    line.octets(view.digest_algorithm());
    line.given(octets_of(view.signed_attributes()));
    line.octets(view.signature_algorithm());
    line.octets(view.signature());
    line.given(octets_of(view.unsigned_attributes()));
}

/// The issuer and the serial number that identify the signer's certificate.
fn print_named(view: SignerView<'_>, line: &mut Line) {
    match view.issuer_and_serial() {
        Some((issuer, serial_number)) => {
            line.octets(issuer);
            line.octets(serial_number);
        }
        None => line.word("none"),
    }
}
