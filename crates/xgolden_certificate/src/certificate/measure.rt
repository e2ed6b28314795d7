//! Timing the reading of certificates, for `bench/certificates/certificates.py`.

use crate::certificate::view::first_in;
use crate::shown::octets_of;
use anyhow::Result;
use asn1_types::oids::{KP_CODE_SIGNING, KP_TIME_STAMPING};
use der_core::Cursor;
use std::alloc::Global;
use std::io::Write;
use std::time::CpuClock;
use x509_core::Cert;
use x509_types::{CertView, Time};
use xgolden::print_time;

/// Reads each certificate of a file this often: as a borrowed view with each field, and as a
/// certificate stored with its octets.
pub fn print_times(
    alloc: Global,
    clock: &impl CpuClock,
    file: &[u8],
    times: u32,
    out: &mut impl Write,
) -> Result<()> {
    let certificates = certificates_of(alloc, file)?;
    let works = certificates.as_slice();
    print_time(
        alloc,
        clock,
        times,
        "view",
        works,
        |octets| lent(octets),
        out,
    )?;
    print_time(
        alloc,
        clock,
        times,
        "owned",
        works,
        |octets| kept(alloc, octets),
        out,
    )?;
    Ok(())
}

/// The elements of the file, one after another.
fn certificates_of<'a>(alloc: Global, file: &'a [u8]) -> Result<Vec<&'a [u8]>> {
    let mut certificates = Vec::new(alloc);
    let mut cursor = Cursor::new(file);
    for _ in 0..file.len() {
        let Some(elem) = cursor.next()? else {
            break;
        };
        certificates.push(elem.whole)?;
    }
    Ok(certificates)
}

fn kept(alloc: Global, octets: &[u8]) -> Option<usize> {
    let cert = Cert::from_der(alloc, octets).ok()?;
    let length = cert.as_bytes().len();
    drop(cert);
    Some(length)
}

fn lent(octets: &[u8]) -> Option<usize> {
    match first_in(octets) {
        Ok(Some(view)) => Some(fields(view).wrapping_add(said(view))),
        _ => None,
    }
}

/// The total length of the fields in octets.
fn fields(view: CertView<'_>) -> usize {
    let fields = [
        view.tbs(),
        octets_of(view.version()).unwrap_or(&[]),
        view.serial(),
        view.inner_algorithm(),
        view.issuer(),
        view.validity().whole,
        view.subject(),
        view.subject_public_key_info().whole,
        view.key_algorithm(),
        view.key(),
        view.issuer_unique_id().unwrap_or(&[]),
        view.subject_unique_id().unwrap_or(&[]),
        octets_of(view.extensions()).unwrap_or(&[]),
        view.algorithm(),
        view.signature(),
    ];
    let mut sum = 0usize;
    for field in fields {
        sum = sum.wrapping_add(field.len());
    }
    sum
}

/// A sum over the years and the extensions' fields.
fn said(view: CertView<'_>) -> usize {
    let numbers = [
        year(&view.not_before()),
        year(&view.not_after()),
        usize::from(view.ca() == Some(true)),
        usize::from(view.path_length().unwrap_or(0)),
        view.subject_key_identifier().unwrap_or(&[]).len(),
        view.authority_key_identifier().unwrap_or(&[]).len(),
        usize::from(view.has_purposes()),
        usize::from(view.names(KP_CODE_SIGNING)),
        usize::from(view.names(KP_TIME_STAMPING)),
    ];
    let mut sum = 0usize;
    for number in numbers {
        sum = sum.wrapping_add(number);
    }
    sum
}

fn year(time: &Time) -> usize {
    match time {
        Time::Utc(moment) => usize::from(moment.year()),
        Time::Generalized(moment) => usize::from(moment.year()),
    }
}
