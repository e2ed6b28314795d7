//! From when to when certificates are usable, by the entries alone.

ghost use Rattle.std.specs.Prelude.{◌≡◌, ◌↔◌, ◌⊎◌, ◌≤◌, ◌<◌, IsTrue, length, MatchOption};
ghost use Rattle.x509_core.specs.History.{IsOrdered};
ghost use Rattle.x509_core.specs.Window.{IsEarlier};
ghost use Rattle.ca_register.specs.Entries.{history_of};
ghost use Rattle.ca_register.specs.Usable.{IsUsable};

use crate::entry::{Entry, entry_at};
use crate::register::Register;
use names_core::UtcDate;
use sig_core::Scheme;
use std::cmp::Ordering;

impl<S: Scheme + Drop> Register<S> {
    /// From when to when the certificate at an index is usable: the latest first second and the
    /// earliest last second of its validity and of those of its ancestors. None exactly from `len`
    /// on. It takes time in the number of ancestors, and doesn't allocate.
    pub fn usable(&self, place: usize) -> Option<(UtcDate, UtcDate)>
        ensures { MatchOption result (length self.now.entries.items ≤ place)
            (λ dates. IsUsable self.now.entries.items place dates.0 dates.1) }
    {
        if place >= self.entries.len() {
            return None;
        }
        Some(usable_from(&self.entries, place))
    }
}

/// From when to when the certificate at an index is usable.
fn usable_from(entries: &[Entry], place: usize) -> (UtcDate, UtcDate)
    requires within { place < length entries.now }
    requires ordered { IsOrdered (history_of entries.now) }
    ensures { IsUsable entries.now place result.0 result.1 }
{
    let mut at = place;
    let grant = entry_at(entries, place).grant;
    let mut from = grant.from;
    let mut to = grant.to;
    while let Some(above) = entry_at(entries, at).issuer {
        let over = entry_at(entries, above);
        from = later(from, over.grant.from);
        to = earlier(to, over.grant.to);
        at = above;
    }
    (from, to)
}

/// The later of two dates.
fn later(first: UtcDate, second: UtcDate) -> UtcDate
    ensures either { (result ≡ first) ⊎ (result ≡ second) }
    ensures latest { (IsEarlier result first → ⊥) × (IsEarlier result second → ⊥) }
{
    if is_earlier(first, second) {
        second
    } else {
        first
    }
}

/// The earlier of two dates.
fn earlier(first: UtcDate, second: UtcDate) -> UtcDate
    ensures either { (result ≡ first) ⊎ (result ≡ second) }
    ensures earliest { (IsEarlier first result → ⊥) × (IsEarlier second result → ⊥) }
{
    if is_earlier(second, first) {
        second
    } else {
        first
    }
}

/// Whether the first date is before the second.
pub(crate) fn is_earlier(first: UtcDate, second: UtcDate) -> bool
    ensures { IsTrue result ↔ IsEarlier first second }
{
    first.cmp(&second) == Ordering::Less
}
