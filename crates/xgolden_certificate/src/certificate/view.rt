//! Printing a borrowed certificate.

use crate::shown::octets_of;
use asn1_types::oids::{KP_CODE_SIGNING, KP_TIME_STAMPING};
use der_core::{Cursor, Malformed};
use x509_types::CertView;
use xgolden::{Line, print_time_form};

/// The first certificate in the octets, None if the first element isn't one.
pub fn first_in(octets: &[u8]) -> Result<Option<CertView<'_>>, Malformed> {
    match Cursor::new(octets).next()? {
        Some(elem) => Ok(CertView::read(elem)),
        None => Ok(None),
    }
}

/// The fields in order, each as octets, then what is signed and the fields of extensions.
pub fn print(view: &CertView<'_>, line: &mut Line) {
    print_head(view, line);
    print_key(view, line);
    print_tail(view, line);
    print_said(view, line);
    print_purposes(view, line);
}

/// The fields up to the subject.
fn print_head(view: &CertView<'_>, line: &mut Line) {
    line.given(octets_of(view.version()));
    line.octets(view.serial());
    line.octets(view.inner_algorithm());
    line.octets(view.issuer());
    line.octets(view.validity().whole);
    print_time_form(&view.not_before(), line);
    print_time_form(&view.not_after(), line);
    line.octets(view.subject());
}

/// The key, its algorithm and its octets.
fn print_key(view: &CertView<'_>, line: &mut Line) {
    line.octets(view.subject_public_key_info().whole);
    line.octets(view.key_algorithm());
    line.octets(view.key());
}

/// The fields after the key, the algorithm, the signature, and what is signed.
fn print_tail(view: &CertView<'_>, line: &mut Line) {
    line.given(view.issuer_unique_id());
    line.given(view.subject_unique_id());
    line.given(octets_of(view.extensions()));
    line.octets(view.algorithm());
    line.octets(view.signature());
    line.octets(view.tbs());
}

/// The fields of the first basic constraints and the first key identifiers.
fn print_said(view: &CertView<'_>, line: &mut Line) {
    print_flag(view.ca(), line);
    print_length(view.path_length(), line);
    line.given(view.subject_key_identifier());
    line.given(view.authority_key_identifier());
}

/// A flag, `none` if absent.
pub fn print_flag(flag: Option<bool>, line: &mut Line) {
    match flag {
        Some(flag) => line.shown(&flag),
        None => line.word("none"),
    }
}

/// A path length, `none` if absent.
pub fn print_length(length: Option<u8>, line: &mut Line) {
    match length {
        Some(length) => line.shown(&length),
        None => line.word("none"),
    }
}

/// Whether there is an extended key usage, and whether some of them name code signing, and time
/// stamping.
fn print_purposes(view: &CertView<'_>, line: &mut Line) {
    line.shown(&view.has_purposes());
    line.shown(&view.names(KP_CODE_SIGNING));
    line.shown(&view.names(KP_TIME_STAMPING));
}
