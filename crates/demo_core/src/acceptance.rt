//! Validating each certificate over all its ancestors.

ghost use Rattle.std.specs.Prelude.{◌≡◌, ◌↔◌, ◌<◌, ◌≤◌, ◌+◌, IsTrue, false, length, None, Some, IfOk, MatchResult};
ghost use Rattle.std.specs.List.{slice_get};
ghost use Rattle.sig_core.specs.DemoScheme.{demo_verdict};
ghost use Rattle.x509_core.specs.Chain.{IsAccepted, chain_rules};
ghost use Rattle.x509_core.specs.Checks.{checks_at, first_checks};
ghost use Rattle.x509_core.specs.Issued.{HasCert};
ghost use Rattle.x509_core.specs.Rules.{RefusesCertBy};
ghost use Rattle.x509_core.specs.declared.error.CertError.TheVariants as errors;
ghost use Rattle.x509_core.specs.declared.window.DateCheck.TheVariants as dates;
ghost use Rattle.der_core.specs.Counting.{IsCount};
ghost use Rattle.demo_core.specs.Acceptance.{AreParents, IsRootAt, IsValidCount, IsValidity};
ghost use Rattle.demo_core.specs.Issuing.{AreStepCerts};
ghost use Rattle.demo_core.specs.declared.history.Step.{Step};

use crate::history::Step;
use names_core::UtcDate;
use sig_core::DemoScheme;
use std::alloc::{AllocError, Global};
use x509_core::{Cert, CertError};

/// How many steps are roots.
pub(crate) fn root_count(steps: &[Step]) -> usize
    requires few { length steps.now ≤ 255 }
    ensures { IsCount (IsRootAt steps.now) (length steps.now) result }
{
    let mut roots = 0usize;
    for k in 0..steps.len() {
        roots = counted(roots, is_root(steps, k));
    }
    roots
}

/// How many certificates are accepted at the date, each over all its ancestors. Only out of memory
/// is an error.
pub(crate) fn accepted_count(
    alloc: Global,
    steps: &[Step],
    certificates: &[Cert],
    date: &UtcDate,
) -> Result<usize, CertError>
    requires few { length steps.now ≤ 255 }
    requires made { AreStepCerts steps.now (length steps.now) certificates.now }
    ensures { MatchResult result
        (IsValidCount steps.now certificates.now date.now (length steps.now))
        (λ e. e ≡ errors.Memory) }
{
    let mut accepted = 0usize;
    for k in 0..steps.len() {
        let is_one = is_accepted(alloc, steps, certificates, k, date)?;
        accepted = counted(accepted, is_one);
    }
    Ok(accepted)
}

/// The number with one more, if it is one of those that are counted.
fn counted(number: usize, is_one: bool) -> usize
    requires few { number < 255 }
    ensures one { IsTrue is_one → result ≡ number + 1 }
    ensures none { is_one ≡ false → result ≡ number }
{
    if is_one { number + 1 } else { number }
}

/// Whether the step of this index is a root.
fn is_root(steps: &[Step], index: usize) -> bool
    requires within { index < length steps.now }
    ensures { IsTrue result ↔ IsRootAt steps.now index }
{
    match issuer_at(steps, index) {
        None => true,
        Some(_) => false,
    }
}

/// Whether the certificate of the step of this index is accepted over all its ancestors.
fn is_accepted(
    alloc: Global,
    steps: &[Step],
    certificates: &[Cert],
    index: usize,
    date: &UtcDate,
) -> Result<bool, CertError>
    requires made { AreStepCerts steps.now (length steps.now) certificates.now }
    requires within { index < length steps.now }
    ensures { MatchResult result (IsValidity steps.now certificates.now index date.now)
        (λ e. e ≡ errors.Memory) }
{
    let parents = ancestors_of(alloc, steps, certificates, index)?;
    match certificates.get(index) {
        Some(cert) => is_accepted_over(alloc, cert, &parents, date),
        None => unreachable!(),
    }
}

/// Whether the certificate is accepted over these parents.
fn is_accepted_over(
    alloc: Global,
    checked: &Cert,
    parents: &[Cert],
    date: &UtcDate,
) -> Result<bool, CertError>
    ensures { MatchResult result
        (λ accepted. IsTrue accepted
        ↔ IsAccepted demo_verdict (checks_at (dates.Exact date.now) first_checks) checked.now
        (Some parents.now))
        (λ e. e ≡ errors.Memory) }
{
    match accept(alloc, checked, parents, date) {
        Ok(()) => Ok(true),
        Err(error) => match &error {
            CertError::Memory => Err(CertError::Memory),
            _ => Ok(false),
        },
    }
}

/// Validates the certificate over its parents, the nearest first, with all checks.
fn accept(alloc: Global, checked: &Cert, parents: &[Cert], date: &UtcDate) -> Result<(), CertError>
    ensures { MatchResult result
        (λ _. IsAccepted demo_verdict (checks_at (dates.Exact date.now) first_checks) checked.now
        (Some parents.now))
        (RefusesCertBy (chain_rules demo_verdict (checks_at (dates.Exact date.now) first_checks)
        checked.now (Some parents.now))) }
{
    checked
        .verifier()
        .exact_date(date)
        .chain(parents.iter())
        .verify(alloc, &DemoScheme::new())
}

/// The certificates of all ancestors of the step of this index, the nearest first.
fn ancestors_of(
    alloc: Global,
    steps: &[Step],
    certificates: &[Cert],
    index: usize,
) -> Result<Vec<Cert>, AllocError>
    requires made { AreStepCerts steps.now (length steps.now) certificates.now }
    requires within { index < length steps.now }
    ensures { IfOk result (λ parents. AreParents steps.now certificates.now index parents.items) }
{
    let mut parents = Vec::new(alloc);
    let mut at = index;
    while let Some(issuer) = issuer_at(steps, at) {
        parents.push(copy_at(alloc, certificates, issuer)?)?;
        at = issuer;
    }
    Ok(parents)
}

/// The issuer of the step of this index.
fn issuer_at(steps: &[Step], index: usize) -> Option<usize>
    requires within { index < length steps.now }
    ensures { (step : Step) → slice_get steps.now index ≡ Some step → result ≡ step.issuer }
{
    steps[index].issuer
}

/// A copy of the certificate of this index.
fn copy_at(alloc: Global, certificates: &[Cert], index: usize) -> Result<Cert, AllocError>
    requires within { index < length certificates.now }
    ensures { IfOk result (HasCert certificates.now index) }
{
    certificates[index].try_clone(alloc)
}
