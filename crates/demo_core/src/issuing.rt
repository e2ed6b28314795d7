//! Issuing the certificate of a step.

ghost use Rattle.std.specs.Prelude.{◌≡◌, ◌<◌, List, [], ◌∷◌, Some, None, IfOk, MatchResult};
ghost use Rattle.asn1_types.specs.Calendar.{IsUtcYear};
ghost use Rattle.asn1_types.specs.Time.{generalized_fields};
ghost use Rattle.key_core.specs.PrivatePkcs1.{IsPrivatePkcs1};
ghost use Rattle.sig_core.specs.DemoScheme.{demo_verdict};
ghost use Rattle.x509_core.specs.History.{IssuingStep};
ghost use Rattle.x509_core.specs.Issued.{HasCert, IsNext};
ghost use Rattle.x509_core.specs.OwnedCertificate.{KeptCertificate};
ghost use Rattle.x509_core.specs.declared.error.CertError.TheVariants as errors;
ghost use Rattle.demo_core.specs.Builders.{IsBegun, IsStepName};
ghost use Rattle.demo_core.specs.History.{IsStepAt};
ghost use Rattle.demo_core.specs.Issuing.{IsOfSubject, IsRecordOf, IsStepCert, IsStepKey};
ghost use Rattle.demo_core.specs.Secrets.{step_secret};

use crate::history::Step;
use crate::secret::private_key_of;
use key_core::{PrivateKey, PublicKey};
use names_core::{DirectoryName, UtcDate};
use sig_core::DemoScheme;
use std::alloc::{AllocError, Global};
use x509_core::{Cert, CertError};
use x509_issuing::CertificateBuilder;

/// The certificate of the step of this index, which is a root. Only out of memory is an error.
pub(crate) fn root(alloc: Global, index: u32, step: Step) -> Result<Cert, CertError>
    requires small { index < 255 }
    requires at { IsStepAt index step }
    requires unissued { step.issuer ≡ None }
    ensures answer { MatchResult result (IsStepCert index step) (λ e. e ≡ errors.Memory) }
    ensures next { IfOk result
        (λ cert. (certificates : List KeptCertificate) (recorded : IssuingStep)
        → IsRecordOf step recorded → IsNext demo_verdict certificates recorded cert) }
{
    let key = key_of(alloc, index)?;
    let name = name_of(alloc, index)?;
    let builder = begun(alloc, step).self_signed(name, &key);
    builder.build(alloc, index + 1, &DemoScheme::new())
}

/// The certificate of the step of this index, whose issuer has this index and this certificate.
/// Only out of memory is an error.
pub(crate) fn issued(
    alloc: Global,
    index: u32,
    step: Step,
    issuer: u32,
    parent: &Cert,
) -> Result<Cert, CertError>
    requires small { index < 255 }
    requires at { IsStepAt index step }
    requires by { step.issuer ≡ Some issuer }
    requires parent { IsOfSubject issuer parent.now }
    ensures answer { MatchResult result (IsStepCert index step) (λ e. e ≡ errors.Memory) }
    ensures next { IfOk result
        (λ cert. (certificates : List KeptCertificate) (recorded : IssuingStep)
        → HasCert certificates issuer parent.now → IsRecordOf step recorded
        → IsNext demo_verdict certificates recorded cert) }
{
    let key = key_of(alloc, issuer)?;
    let own = own_key_of(alloc, index)?;
    let name = name_of(alloc, index)?;
    let mut builder = begun(alloc, step).subject(name, own);
    builder.issuer_cert(parent, &key)?;
    builder.build(alloc, index + 1, &DemoScheme::new())
}

/// The builder with the validity, the CA flag and the path length of the step.
fn begun<'a>(alloc: Global, step: Step) -> CertificateBuilder<'a>
    requires first { IsUtcYear step.years.first }
    requires last { IsUtcYear step.years.last }
    ensures { IsBegun step result }
{
    let first = new_year(step.years.first);
    let last = new_year(step.years.last);
    let builder = CertificateBuilder::new(alloc)
        .validity(first, last)
        .ca(step.ca);
    match step.path_length {
        Some(length) => builder.pathlen(length),
        None => builder,
    }
}

/// The first second of the year.
pub(crate) fn new_year(year: u16) -> UtcDate
    requires { IsUtcYear year }
    ensures { generalized_fields result ≡ year ∷ 1 ∷ 1 ∷ 0 ∷ 0 ∷ 0 ∷ [] }
{
    match UtcDate::ymd(year, 1, 1) {
        Some(date) => date,
        None => unreachable!(),
    }
}

/// The name of the step: the common name N and the index.
fn name_of(alloc: Global, index: u32) -> Result<DirectoryName, AllocError>
    ensures { IfOk result (IsStepName index) }
{
    let name = format!(in alloc; "N{index}")?;
    DirectoryName::new_common_name(alloc, name.as_str())
}

/// The private key of the step. Only out of memory is an error.
fn key_of(alloc: Global, index: u32) -> Result<PrivateKey, CertError>
    ensures { MatchResult result (IsPrivatePkcs1 (step_secret index)) (λ e. e ≡ errors.Memory) }
{
    match private_key_of(alloc, index) {
        Ok(key) => Ok(key),
        Err(_) => Err(CertError::Memory),
    }
}

/// The public key of the step. Only out of memory is an error.
fn own_key_of(alloc: Global, index: u32) -> Result<PublicKey, CertError>
    ensures { MatchResult result (IsStepKey index) (λ e. e ≡ errors.Memory) }
{
    let key = key_of(alloc, index)?;
    match key.to_public_key(alloc) {
        Ok(own) => Ok(own),
        Err(_) => Err(CertError::Memory),
    }
}
