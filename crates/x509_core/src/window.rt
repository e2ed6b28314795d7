//! When a certificate is valid.

ghost use Rattle.std.specs.Prelude.{◌≡◌, ◌↔◌, IsTrue, MatchResult};
ghost use Rattle.asn1_types.specs.declared.generalized_time.GeneralizedTime.{GeneralizedTime};
ghost use Rattle.der_core.specs.Rules.{IsFirstBroken};
ghost use Rattle.x509_types.specs.CertificateView.{view_elements};
ghost use Rattle.x509_core.specs.Window.{IsEarlier, IsWithinWindow, HasBegun, HasNotEnded, IsNotYetValid, IsOver, earliest, latest, window_rules};

use crate::error::CertCause;
use names_core::UtcDate;
use std::cmp::Ordering;
use x509_types::CertView;

/// The date or interval for which a certificate must be valid.
#[derive(Clone, Copy, Debug, PartialEq, Eq)]
pub enum DateCheck {
    /// None.
    Absent,
    /// This date.
    Exact(UtcDate),
    /// From the lower to the upper date. The lower may be after the upper.
    Interval { lower: UtcDate, upper: UtcDate },
}

impl DateCheck {
    /// The date, or the lower end of the interval.
    pub fn earliest(self) -> Option<UtcDate>
        ensures { result ≡ earliest self }
    {
        match self {
            DateCheck::Absent => None,
            DateCheck::Exact(date) => Some(date),
            DateCheck::Interval { lower, .. } => Some(lower),
        }
    }

    /// The date, or the upper end of the interval.
    pub fn latest(self) -> Option<UtcDate>
        ensures { result ≡ latest self }
    {
        match self {
            DateCheck::Absent => None,
            DateCheck::Exact(date) => Some(date),
            DateCheck::Interval { upper, .. } => Some(upper),
        }
    }
}

/// What is checked of the validity of a certificate: the dates, and which of its ends are compared
/// with them.
#[derive(Clone, Copy, Debug, PartialEq, Eq)]
pub struct Window {
    pub date: DateCheck,
    pub not_before: bool,
    pub not_after: bool,
}

impl Window {
    /// Checks that the certificate is valid (RFC 5280 4.1.2.5, 6.1.3 (a) (2)): its first second is
    /// at most the date, or the upper end of the interval, else `CertificateNotYetValid` with it;
    /// then its last second is at least the date, or the lower end, else `CertificateExpired` with
    /// it. Without a date every certificate is. It doesn't allocate.
    pub fn expect_valid(&self, view: CertView<'_>) -> Result<(), CertCause>
        ensures { MatchResult result
            (λ _. IsWithinWindow self.now (view_elements view.entry))
            (IsFirstBroken (window_rules self.now (view_elements view.entry))) }
    {
        self.expect_begun(view)?;
        self.expect_not_ended(view)
    }

    /// Checks that the validity of the certificate has begun.
    fn expect_begun(&self, view: CertView<'_>) -> Result<(), CertCause>
        ensures { MatchResult result
            (λ _. HasBegun self.now (view_elements view.entry))
            (IsNotYetValid self.now (view_elements view.entry)) }
    {
        if !self.not_before {
            return Ok(());
        }
        let Some(now) = self.date.latest() else {
            return Ok(());
        };
        let not_before = UtcDate::from(view.not_before());
        if is_earlier(now, not_before) {
            return Err(CertCause::CertificateNotYetValid { not_before, now });
        }
        Ok(())
    }

    /// Checks that the validity of the certificate hasn't ended.
    fn expect_not_ended(&self, view: CertView<'_>) -> Result<(), CertCause>
        ensures { MatchResult result
            (λ _. HasNotEnded self.now (view_elements view.entry))
            (IsOver self.now (view_elements view.entry)) }
    {
        if !self.not_after {
            return Ok(());
        }
        let Some(now) = self.date.earliest() else {
            return Ok(());
        };
        let not_after = UtcDate::from(view.not_after());
        if is_earlier(not_after, now) {
            return Err(CertCause::CertificateExpired { not_after, now });
        }
        Ok(())
    }
}

/// Whether the first date is before the second.
fn is_earlier(first: UtcDate, second: UtcDate) -> bool
    ensures { IsTrue result ↔ IsEarlier first second }
{
    first.cmp(&second) == Ordering::Less
}
