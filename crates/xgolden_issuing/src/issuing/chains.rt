//! Validating certificates with their parents.

use crate::issuing::printing::print_refused;
use crate::issuing::words::{certificate_of, two_of};
use anyhow::{Context, Result, bail};
use names_core::UtcDate;
use sig_core::Scheme;
use std::alloc::Global;
use std::slice::Iter;
use x509_core::{Cert, CertValidator};
use xgolden::{Line, date_of, octets_of};

type Validator<'a> = CertValidator<'a, 'a, Iter<'a, Cert>>;

/// A setter, without its value.
#[derive(Clone, Copy)]
enum Setter {
    ExactDate,
    IntervalDate,
    Chain,
    Root(bool),
    NotBefore(bool),
    NotAfter(bool),
    ChainCheck(bool),
}

/// The dates and the parents for setters.
#[derive(Clone, Copy)]
struct Given<'a> {
    lower: &'a UtcDate,
    upper: &'a UtcDate,
    parents: &'a [Cert],
}

/// Prints `accepted`, or the name and the text of the refusal. The first certificate is the
/// validated one.
pub fn print<S: Scheme>(alloc: Global, words: &str, scheme: &S, line: &mut Line) -> Result<()> {
    let words: Vec<&str> = words.split(' ').collect(alloc)?;
    let [certificates, dates, setters @ ..] = words.as_slice() else {
        bail!("certificates and dates are given");
    };
    print_asked(alloc, (certificates, dates), setters, scheme, line)
}

fn print_asked<S: Scheme>(
    alloc: Global,
    (certificates, dates): (&str, &str),
    setters: &[&str],
    scheme: &S,
    line: &mut Line,
) -> Result<()> {
    let certificates = certificates_of(alloc, certificates)?;
    let setters = setters_of(alloc, setters)?;
    let (lower, upper) = dates_of(dates)?;
    let [checked, parents @ ..] = certificates.as_slice() else {
        bail!("no certificate is asked about");
    };
    let given = Given {
        lower: &lower,
        upper: &upper,
        parents,
    };
    print_verdict(alloc, set(checked, given, setters.as_slice()), scheme, line);
    Ok(())
}

/// Certificates, separated by commas.
pub fn certificates_of(alloc: Global, words: &str) -> Result<Vec<Cert>> {
    let mut certificates = Vec::new(alloc);
    for word in words.split(',') {
        certificates.push(certificate_of(alloc, word)?)?;
    }
    Ok(certificates)
}

fn dates_of(words: &str) -> Result<(UtcDate, UtcDate)> {
    let (lower, upper) = two_of(words)?;
    Ok((date_of(lower)?, date_of(upper)?))
}

fn setters_of(alloc: Global, words: &[&str]) -> Result<Vec<Setter>> {
    let mut setters = Vec::new(alloc);
    for word in words {
        setters.push(setter_of(word)?)?;
    }
    Ok(setters)
}

fn setter_of(word: &str) -> Result<Setter> {
    match word {
        "exact_date" => Ok(Setter::ExactDate),
        "interval_date" => Ok(Setter::IntervalDate),
        "chain" => Ok(Setter::Chain),
        "root" => Ok(Setter::Root(true)),
        "any_end" => Ok(Setter::Root(false)),
        "require_not_before_check" => Ok(Setter::NotBefore(true)),
        "ignore_not_before_check" => Ok(Setter::NotBefore(false)),
        "require_not_after_check" => Ok(Setter::NotAfter(true)),
        "ignore_not_after_check" => Ok(Setter::NotAfter(false)),
        "require_chain_check" => Ok(Setter::ChainCheck(true)),
        "ignore_chain_check" => Ok(Setter::ChainCheck(false)),
        _ => bail!("no setter is called so"),
    }
}

fn set<'a>(checked: &'a Cert, given: Given<'a>, setters: &[Setter]) -> Validator<'a> {
    let mut validator: Validator<'a> = checked.verifier();
    for setter in setters {
        validator = with(validator, given, *setter);
    }
    validator
}

fn with<'a>(validator: Validator<'a>, given: Given<'a>, setter: Setter) -> Validator<'a> {
    match setter {
        Setter::ExactDate => validator.exact_date(given.lower),
        Setter::IntervalDate => validator.interval_date(given.lower, given.upper),
        Setter::Chain => validator.chain(given.parents.iter()),
        Setter::Root(asked) => validator.chain_should_contains_root_certificate(asked),
        Setter::NotBefore(true) => validator.require_not_before_check(),
        Setter::NotBefore(false) => validator.ignore_not_before_check(),
        Setter::NotAfter(true) => validator.require_not_after_check(),
        Setter::NotAfter(false) => validator.ignore_not_after_check(),
        Setter::ChainCheck(true) => validator.require_chain_check(),
        Setter::ChainCheck(false) => validator.ignore_chain_check(),
    }
}

fn print_verdict<S: Scheme>(alloc: Global, validator: Validator<'_>, scheme: &S, line: &mut Line) {
    match validator.verify(alloc, scheme) {
        Ok(()) => line.word("accepted"),
        Err(error) => print_refused(alloc, &error, line),
    }
}

/// Prints whether one certificate is the parent of another by names and key identifiers, else the
/// name and the text of the refusal; those of octets that are no certificate, too.
pub fn print_parent(alloc: Global, words: &str, line: &mut Line) -> Result<()> {
    let (parent, children) = words.split_once(' ').context("two certificates are given")?;
    let octets = octets_of(alloc, parent)?;
    let children = certificates_of(alloc, children)?;
    for child in &children {
        print_parent_in(alloc, &octets, child, line);
    }
    Ok(())
}

fn print_parent_in(alloc: Global, octets: &[u8], child: &Cert, line: &mut Line) {
    match Cert::from_der(alloc, octets) {
        Ok(parent) => print_link(alloc, &parent, child, line),
        Err(error) => print_refused(alloc, &error, line),
    }
}

fn print_link(alloc: Global, parent: &Cert, child: &Cert, line: &mut Line) {
    match parent.is_parent_of(alloc, child) {
        Ok(()) => line.word("parent"),
        Err(error) => print_refused(alloc, &error, line),
    }
}
