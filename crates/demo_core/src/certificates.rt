//! The certificates of steps, in turn.

ghost use Rattle.std.specs.Prelude.{◌≡◌, ◌<◌, ◌≤◌, ◌+◌, ◌++◌, ℕ, [], ◌∷◌, length, Some, IfOk, MatchResult};
ghost use Rattle.std.specs.List.{slice_get};
ghost use Rattle.sig_core.specs.DemoScheme.{demo_verdict};
ghost use Rattle.x509_core.specs.History.{IssuingStep};
ghost use Rattle.x509_core.specs.Issued.{HasCert, IsNext};
ghost use Rattle.x509_core.specs.OwnedCertificate.{KeptCertificate};
ghost use Rattle.x509_core.specs.declared.error.CertError.TheVariants as errors;
ghost use Rattle.demo_core.specs.History.{AreInOrder, IsStepAt};
ghost use Rattle.demo_core.specs.Issuing.{AreStepCerts, IsOfSubject, IsRecordOf, IsStepCert};

use crate::history::Step;
use crate::issuing::{issued, root};
use std::alloc::Global;
use x509_core::{Cert, CertError};

/// The certificates of the steps, in their order. Each is issued by that of its issuer, and is
/// written and read again. Only out of memory is an error.
pub(crate) fn certificates_of(alloc: Global, steps: &[Step]) -> Result<Vec<Cert>, CertError>
    requires few { length steps.now ≤ 255 }
    requires order { AreInOrder steps.now }
    ensures { MatchResult result
        (λ made. AreStepCerts steps.now (length steps.now) made.items)
        (λ e. e ≡ errors.Memory) }
{
    let mut certificates = Vec::new(alloc);
    for k in 0..steps.len() {
        let cert = next(alloc, steps, k, &certificates)?;
        certificates.push(cert)?;
    }
    Ok(certificates)
}

/// The certificate of the step of this index, after those of the steps before it.
fn next(alloc: Global, steps: &[Step], k: usize, before: &[Cert]) -> Result<Cert, CertError>
    requires few { k < 255 }
    requires within { k < length steps.now }
    requires order { AreInOrder steps.now }
    requires before { AreStepCerts steps.now k before.now }
    ensures { MatchResult result
        (λ cert. AreStepCerts steps.now (k + 1) (before.now ++ cert ∷ []))
        (λ e. e ≡ errors.Memory) }
{
    match steps.get(k) {
        Some(step) => {
            let cert = made(alloc, *step, k, before)?;
            read_again(alloc, &cert)
        }
        None => unreachable!(),
    }
}

/// The certificate of the step of this index, by that of its issuer.
fn made(alloc: Global, step: Step, k: usize, before: &[Cert]) -> Result<Cert, CertError>
    requires few { k < 255 }
    requires at { IsStepAt k step }
    requires issuer { (issuer : ℕ) → step.issuer ≡ Some issuer
        → (parent : KeptCertificate) × HasCert before.now issuer parent
        × IsOfSubject issuer parent }
    ensures answer { MatchResult result (IsStepCert k step) (λ e. e ≡ errors.Memory) }
    ensures next { IfOk result (λ cert. (recorded : IssuingStep)
        → IsRecordOf step recorded → IsNext demo_verdict before.now recorded cert) }
{
    match step.issuer {
        None => root(alloc, k as u32, step),
        Some(issuer) => match before.get(issuer) {
            Some(parent) => issued(alloc, k as u32, step, issuer as u32, parent),
            None => unreachable!(),
        },
    }
}

/// The certificate, written and read again. Only out of memory is an error.
fn read_again(alloc: Global, cert: &Cert) -> Result<Cert, CertError>
    ensures { MatchResult result (λ read. read ≡ cert.now) (λ e. e ≡ errors.Memory) }
{
    let octets = cert.to_der(alloc)?;
    Cert::from_der(alloc, &octets)
}
