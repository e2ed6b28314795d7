//! Validating a certificate with its parents.

ghost use Rattle.std.specs.Prelude.{◌≡◌, ◌≢◌, ◌↔◌, ℕ, List, Option, Some, None, true, false, IsTrue, IfSome, IfErr, map, MatchResult};
ghost use Rattle.std.specs.Borrow.{Bor};
ghost use Rattle.std.specs.Iterator.{IsFinite, Drains, Yields};
ghost use Rattle.der_core.specs.Rules.{OrMemory};
ghost use Rattle.x509_core.specs.CertType.{IsOfType};
ghost use Rattle.x509_core.specs.Chain.{YieldsParents, IsAccepted, WasAccepted, WasRefused, AsksForMemory, GivesParent, IsLinkedChain, IsFirstUnlinked, AsksForDate, IsDated, LacksDate, chain_rules, last_of, lent, nearest};
ghost use Rattle.x509_core.specs.Checks.{checks_at, first_checks, with_not_before, with_not_after, with_chain, with_root};
ghost use Rattle.x509_core.specs.OwnedCertificate.{KeptCertificate};
ghost use Rattle.x509_core.specs.Link.{IsLink, IsCountFor, link_rules};
ghost use Rattle.x509_core.specs.Rules.{RefusesCertBy};
ghost use Rattle.x509_core.specs.declared.cert_type.CertType.TheVariants as types;
ghost use Rattle.x509_core.specs.declared.error.Arg.TheVariants as arguments;
ghost use Rattle.x509_core.specs.declared.error.CaChainError.TheVariants as chain;
ghost use Rattle.x509_core.specs.declared.error.CertError.TheVariants as errors;
ghost use Rattle.x509_core.specs.declared.window.DateCheck.TheVariants as dates;

use crate::cert::Cert;
use crate::cert_type::CertType;
use crate::error::{Arg, CaChainError, CertError};
use crate::viewed::ViewedCert;
use crate::window::{DateCheck, Window};
use names_core::UtcDate;
use sig_core::Scheme;
use std::alloc::Global;
use std::marker::PhantomData;

/// What is checked of a certificate and its parents.
#[derive(Clone, Copy, Debug, PartialEq, Eq)]
pub struct ChainChecks {
    /// What is checked of the validity of each certificate.
    pub window: Window,
    /// Whether the parents are checked.
    pub chain: bool,
    /// Whether the last certificate must be a root.
    pub root: bool,
}

/// Validates a certificate with its parents (RFC 5280 6.1). No trust anchor is checked. Of the
/// setters of one kind the last call counts.
#[derive(Drop)]
pub struct CertValidator<'a, 'b, Chain: Iterator<Item = &'b Cert> + Drop> {
    cert: &'a Cert,
    checks: ChainChecks,
    chain: Option<Chain>,
    parents: PhantomData<&'b Cert>,
}

impl Cert {
    /// A validator that checks the dates, the chain and the root, without a date or a chain yet.
    pub fn verifier<'a, 'b, Chain: Iterator<Item = &'b Cert> + Drop>(
        &'a self,
    ) -> CertValidator<'a, 'b, Chain>
        ensures checks { result.checks ≡ first_checks }
        ensures chain { result.chain ≡ None }
        ensures cert { result.cert.now ≡ self.now }
    {
        CertValidator {
            cert: self,
            checks: ChainChecks {
                window: Window {
                    date: DateCheck::Absent,
                    not_before: true,
                    not_after: true,
                },
                chain: true,
                root: true,
            },
            chain: None,
            parents: PhantomData,
        }
    }
}

impl<'a, 'b, Chain: Iterator<Item = &'b Cert> + Drop> CertValidator<'a, 'b, Chain> {
    /// The date at which certificates must be valid. It replaces an interval.
    pub fn exact_date(mut self, exact: &'a UtcDate) -> Self
        ensures checks { result.checks ≡ checks_at (dates.Exact exact.now) self.entry.checks }
        ensures rest { (result.chain ≡ self.entry.chain) × (result.cert.now ≡ self.entry.cert.now) }
    {
        self.at(DateCheck::Exact(*exact))
    }

    /// The interval: certificates must be valid already at its upper end and still at its lower
    /// one. It replaces a date.
    pub fn interval_date(mut self, lower: &'a UtcDate, upper: &'a UtcDate) -> Self
        ensures checks { result.checks ≡ checks_at (dates.Interval lower.now upper.now)
            self.entry.checks }
        ensures rest { (result.chain ≡ self.entry.chain) × (result.cert.now ≡ self.entry.cert.now) }
    {
        self.at(DateCheck::Interval {
            lower: *lower,
            upper: *upper,
        })
    }

    /// The date or interval for which certificates must be valid.
    fn at(self, date: DateCheck) -> Self
        ensures checks { result.checks ≡ checks_at date self.entry.checks }
        ensures rest { (result.chain ≡ self.entry.chain) × (result.cert.now ≡ self.entry.cert.now) }
    {
        let CertValidator {
            cert,
            checks,
            chain,
            parents,
        } = self;
        CertValidator {
            cert,
            checks: checks.at(date),
            chain,
            parents,
        }
    }

    /// The parents, the certificate's own first.
    pub fn chain(mut self, chain: Chain) -> Self
        ensures chain { result.chain ≡ Some chain }
        ensures rest { (result.checks ≡ self.entry.checks)
            × (result.cert.now ≡ self.entry.cert.now) }
    {
        self.chain = Some(chain);
        self
    }

    /// Whether the last certificate must be a root.
    pub fn chain_should_contains_root_certificate(mut self, expected: bool) -> Self
        ensures checks { result.checks ≡ with_root expected self.entry.checks }
        ensures rest { (result.chain ≡ self.entry.chain) × (result.cert.now ≡ self.entry.cert.now) }
    {
        self.checks.root = expected;
        self
    }

    /// Certificates must have begun to be valid.
    pub fn require_not_before_check(mut self) -> Self
        ensures checks { result.checks ≡ with_not_before true self.entry.checks }
        ensures rest { (result.chain ≡ self.entry.chain) × (result.cert.now ≡ self.entry.cert.now) }
    {
        self.checks.window.not_before = true;
        self
    }

    /// Certificates may become valid later.
    pub fn ignore_not_before_check(mut self) -> Self
        ensures checks { result.checks ≡ with_not_before false self.entry.checks }
        ensures rest { (result.chain ≡ self.entry.chain) × (result.cert.now ≡ self.entry.cert.now) }
    {
        self.checks.window.not_before = false;
        self
    }

    /// Certificates must not have expired.
    pub fn require_not_after_check(mut self) -> Self
        ensures checks { result.checks ≡ with_not_after true self.entry.checks }
        ensures rest { (result.chain ≡ self.entry.chain) × (result.cert.now ≡ self.entry.cert.now) }
    {
        self.checks.window.not_after = true;
        self
    }

    /// Certificates may have expired.
    pub fn ignore_not_after_check(mut self) -> Self
        ensures checks { result.checks ≡ with_not_after false self.entry.checks }
        ensures rest { (result.chain ≡ self.entry.chain) × (result.cert.now ≡ self.entry.cert.now) }
    {
        self.checks.window.not_after = false;
        self
    }

    /// The parents must be a chain.
    pub fn require_chain_check(mut self) -> Self
        ensures checks { result.checks ≡ with_chain true self.entry.checks }
        ensures rest { (result.chain ≡ self.entry.chain) × (result.cert.now ≡ self.entry.cert.now) }
    {
        self.checks.chain = true;
        self
    }

    /// The parents are ignored.
    pub fn ignore_chain_check(mut self) -> Self
        ensures checks { result.checks ≡ with_chain false self.entry.checks }
        ensures rest { (result.chain ≡ self.entry.chain) × (result.cert.now ≡ self.entry.cert.now) }
    {
        self.checks.chain = false;
        self
    }

    /// Validates the certificate with its parents (RFC 5280 6.1.3, 6.1.4). The first rule that
    /// fails is returned: a date is given if dates are checked, else `MissingBuilderArgument`; the
    /// certificate is valid; if the chain is checked, parents are given, else
    /// `MissingBuilderArgument`; each parent may have issued the certificate before it
    /// (`Cert::expect_link`); the last certificate is a root if that is checked, else `NoRoot`. If
    /// the chain isn't checked, its iterator isn't used; if the certificate is accepted with a
    /// chain, or lacks a root, the iterator is run to its end.
    pub fn verify<S: Scheme>(self, alloc: Global, scheme: &S) -> Result<(), CertError>
        requires can { IsTrue self.checks.chain → IfSome self.chain Chain.can_next }
        requires ends { IsTrue self.checks.chain
            → IfSome self.chain (λ chain. IsFinite (Chain.remaining chain)) }
        // For an iterator that yields one list on every run; if the chain isn't checked, for any.
        ensures answer { (given : Option (List KeptCertificate))
            → (IsTrue self.entry.checks.chain
            → YieldsParents Chain.next_gives self.entry.chain given)
            → MatchResult result
            (λ _. IsAccepted (S.judge scheme.now) self.entry.checks self.entry.cert.now given)
            (RefusesCertBy
            (chain_rules (S.judge scheme.now) self.entry.checks self.entry.cert.now given)) }
        // For any iterator: what it yielded in this call.
        ensures walked { MatchResult result
            (λ _. WasAccepted (S.judge scheme.now) Chain.next_gives self.entry.checks
            self.entry.cert.now self.entry.chain)
            (OrMemory errors.Memory (WasRefused (S.judge scheme.now) Chain.next_gives
            self.entry.checks self.entry.cert.now self.entry.chain)) }
        // The scheme allocates, and so does an error with a name or a key identifier.
        ensures memory { IfErr result (λ e. e ≡ errors.Memory
            → AsksForMemory Chain.next_gives self.entry.checks self.entry.cert.now
            self.entry.chain) }
    {
        let CertValidator {
            cert,
            checks,
            chain,
            ..
        } = self;
        checks.expect_date()?;
        let checked = cert.viewed();
        checked.expect_valid(alloc, &checks.window)?;
        if !checks.chain {
            return Ok(());
        }
        let Some(chain) = chain else {
            return Err(CertError::MissingBuilderArgument { arg: Arg::Chain });
        };
        let last = last_type(alloc, checked, chain, &checks.window, scheme)?;
        checks.expect_root(last)
    }
}

impl Window {
    /// Whether dates are checked.
    fn asks_for_date(&self) -> bool
        ensures { IsTrue result ↔ AsksForDate self.now }
    {
        self.not_before || self.not_after
    }

    /// Accepts checks without dates.
    fn expect_unasked(&self) -> Result<(), CertError>
        ensures { MatchResult result
            (λ _. AsksForDate self.now → ⊥)
            (λ e. AsksForDate self.now × (e ≡ errors.MissingBuilderArgument arguments.Now)) }
    {
        if self.asks_for_date() {
            return Err(CertError::MissingBuilderArgument { arg: Arg::Now });
        }
        Ok(())
    }
}

impl ChainChecks {
    /// The same checks with other dates.
    fn at(self, date: DateCheck) -> ChainChecks
        ensures { result ≡ checks_at date self }
    {
        ChainChecks {
            window: Window {
                date,
                not_before: self.window.not_before,
                not_after: self.window.not_after,
            },
            chain: self.chain,
            root: self.root,
        }
    }

    /// Checks that a date is given if dates are checked, else `MissingBuilderArgument`. It doesn't
    /// allocate.
    pub fn expect_date(&self) -> Result<(), CertError>
        ensures { MatchResult result (λ _. IsDated self.now) (LacksDate self.now) }
    {
        match self.window.date {
            DateCheck::Absent => self.window.expect_unasked(),
            DateCheck::Exact(_) => Ok(()),
            DateCheck::Interval { .. } => Ok(()),
        }
    }

    /// Checks that the last certificate is a root, if that is checked.
    fn expect_root(&self, last: CertType) -> Result<(), CertError>
        ensures { MatchResult result (λ _. IsTrue self.now.root → last ≡ types.Root)
            (λ e. IsTrue self.now.root × (last ≢ types.Root)
            × (e ≡ errors.InvalidChain chain.NoRoot)) }
    {
        if self.root && last != CertType::Root {
            return Err(CertError::InvalidChain {
                source: CaChainError::NoRoot,
            });
        }
        Ok(())
    }
}

/// The type of the last certificate, if each parent may have issued the certificate before it.
fn last_type<'b, Chain: Iterator<Item = &'b Cert> + Drop, S: Scheme>(
    alloc: Global,
    checked: ViewedCert<'_>,
    chain: Chain,
    window: &Window,
    scheme: &S,
) -> Result<CertType, CertError>
    requires can { Chain.can_next chain }
    requires ends { IsFinite (Chain.remaining chain) }
    ensures answer { MatchResult result
        (λ last. (xs : List (Bor KeptCertificate)) × Drains Chain.next_gives chain xs
        × IsLinkedChain (S.judge scheme.now) window.now checked.entry.cert.now (map lent xs)
        × IsOfType (last_of checked.entry.cert.now (map lent xs)).elements last)
        (OrMemory errors.Memory (λ e. (xs : List (Bor KeptCertificate)) × (rest : Chain)
        × Yields Chain.next_gives chain xs rest
        × IsFirstUnlinked (S.judge scheme.now) window.now checked.entry.cert.now
        (map lent xs) e)) }
    ensures memory { IfErr result (λ e. e ≡ errors.Memory → GivesParent Chain.next_gives chain) }
{
    let mut last: Option<ViewedCert<'b>> = None;
    let mut number: u16 = 0;
    for parent in chain {
        let above = parent.viewed();
        expect_next(alloc, &checked, &last, &above, number, window, scheme)?;
        last = Some(above);
        number = number.saturating_add(1);
    }
    Ok(type_so_far(&checked, &last))
}

/// Checks that the certificate may have issued the last parent so far, or the checked certificate.
fn expect_next<S: Scheme>(
    alloc: Global,
    checked: &ViewedCert<'_>,
    last: &Option<ViewedCert<'_>>,
    above: &ViewedCert<'_>,
    number: u16,
    window: &Window,
    scheme: &S,
) -> Result<(), CertError>
    ensures { (count : ℕ) → IsCountFor number count
        → MatchResult result
        (λ _. IsLink (S.judge scheme.now) window.now count above.now.cert.now.elements
        (nearest checked.now.cert.now last.now).elements)
        (RefusesCertBy (link_rules (S.judge scheme.now) window.now count above.now.cert.now
        (nearest checked.now.cert.now last.now))) }
{
    match last {
        Some(child) => above.expect_link(alloc, child, number, window, scheme),
        None => above.expect_link(alloc, checked, number, window, scheme),
    }
}

/// The type of the last parent so far, or of the checked certificate.
fn type_so_far(checked: &ViewedCert<'_>, last: &Option<ViewedCert<'_>>) -> CertType
    ensures { IsOfType (nearest checked.now.cert.now last.now).elements result }
{
    match last {
        Some(parent) => parent.ty(),
        None => checked.ty(),
    }
}
