//! Verifying certificates of a register over all their ancestors.

ghost use Rattle.std.specs.Prelude.{◌≡◌, ◌≢◌, ◌<◌, ℕ, List, Some, length, MatchResult};
ghost use Rattle.asn1_types.specs.declared.generalized_time.GeneralizedTime.{GeneralizedTime};
ghost use Rattle.x509_core.specs.Chain.{IsAccepted, chain_rules};
ghost use Rattle.x509_core.specs.Checks.{checks_at, first_checks};
ghost use Rattle.x509_core.specs.History.{AreAncestors};
ghost use Rattle.x509_core.specs.Issued.{AreCertsAt, HasCert};
ghost use Rattle.x509_core.specs.OwnedCertificate.{KeptCertificate};
ghost use Rattle.x509_core.specs.Rules.{RefusesCertBy};
ghost use Rattle.x509_core.specs.declared.error.CertError.TheVariants as errors;
ghost use Rattle.x509_core.specs.declared.window.DateCheck.TheVariants as dates;
ghost use Rattle.ca_register.specs.Above.{above_left};
ghost use Rattle.ca_register.specs.Entries.{history_of};
ghost use Rattle.ca_register.specs.Usable.{IsBetween, IsUsable};

use crate::ancestors::Ancestors;
use crate::entry::entry_at;
use crate::register::Register;
use names_core::UtcDate;
use sig_core::Scheme;
use std::alloc::Global;
use x509_core::{Cert, CertError};

impl<S: Scheme + Drop> Register<S> {
    /// Validates the certificate at an index over those of all its ancestors, the nearest first, at
    /// a date, with all checks (`CertValidator::verify`). It is accepted exactly at the dates
    /// between those of `usable`, unless memory runs out.
    pub fn verify(&self, alloc: Global, place: usize, date: &UtcDate) -> Result<(), CertError>
        requires within { place < length self.now.entries.items }
        ensures answer { (checked : KeptCertificate) (ancestors : List ℕ)
            (parents : List KeptCertificate) → HasCert self.now.certificates.items place checked
            → AreAncestors (history_of self.now.entries.items) place ancestors
            → AreCertsAt self.now.certificates.items ancestors parents
            → MatchResult result
            (λ _. IsAccepted (S.judge self.now.scheme) (checks_at (dates.Exact date.now)
            first_checks) checked (Some parents))
            (RefusesCertBy (chain_rules (S.judge self.now.scheme) (checks_at (dates.Exact date.now)
            first_checks) checked (Some parents))) }
        // Acceptance is decided by the entries alone.
        ensures usable { (from to : GeneralizedTime)
            → IsUsable self.now.entries.items place from to
            → MatchResult result (λ _. IsBetween from to date.now)
            (λ e. e ≢ errors.Memory → IsBetween from to date.now → ⊥) }
    {
        let ancestors = Ancestors {
            entries: &self.entries,
            certificates: &self.certificates,
            issuer: entry_at(&self.entries, place).issuer,
            most: self.entries.len(),
        };
        verify_over(
            alloc,
            &self.certificates[place],
            ancestors,
            date,
            &self.scheme,
        )
    }
}

/// Validates the certificate over these parents, the nearest first, with all checks.
fn verify_over<S: Scheme>(
    alloc: Global,
    checked: &Cert,
    parents: Ancestors<'_>,
    date: &UtcDate,
    scheme: &S,
) -> Result<(), CertError>
    ensures { MatchResult result
        (λ _. IsAccepted (S.judge scheme.now) (checks_at (dates.Exact date.now) first_checks)
        checked.now (Some (above_left parents.entry)))
        (RefusesCertBy (chain_rules (S.judge scheme.now) (checks_at (dates.Exact date.now)
        first_checks) checked.now (Some (above_left parents.entry)))) }
{
    checked
        .verifier()
        .exact_date(date)
        .chain(parents)
        .verify(alloc, scheme)
}
