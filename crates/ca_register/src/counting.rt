//! Counting the certificates of a register that are accepted at a date.

ghost use Rattle.std.specs.Prelude.{◌≡◌, ◌<◌, ◌≤◌, ◌↔◌, ◌+◌, IsTrue, false, length};
ghost use Rattle.ca_register.specs.Authorities.{IsRegister};
ghost use Rattle.der_core.specs.Counting.{IsCount};
ghost use Rattle.ca_register.specs.Counting.{IsAcceptedAt, IsUsableAt};
ghost use Rattle.ca_register.specs.Usable.{IsBetween};

use crate::register::Register;
use crate::usable::is_earlier;
use names_core::UtcDate;
use sig_core::Scheme;

/// How many certificates are accepted at the date, by the entries alone.
pub(crate) fn accepted_count<S: Scheme + Drop>(register: &Register<S>, date: &UtcDate) -> usize
    requires few { length register.now.entries.items ≤ 200 }
    ensures usable { IsCount (IsUsableAt register.now.entries.items date.now)
        (length register.now.entries.items) result }
    ensures accepted { IsRegister (S.judge register.now.scheme) register.now.entries.items
        register.now.certificates.items
        → IsCount (IsAcceptedAt (S.judge register.now.scheme) register.now.entries.items
        register.now.certificates.items date.now) (length register.now.entries.items) result }
{
    let mut accepted = 0usize;
    for place in 0..register.len() {
        accepted = counted(accepted, is_usable(register, place, date));
    }
    accepted
}

/// The number with one more, if it is one of those that are counted.
fn counted(number: usize, is_one: bool) -> usize
    requires few { number < 200 }
    ensures one { IsTrue is_one → result ≡ number + 1 }
    ensures none { is_one ≡ false → result ≡ number }
{
    if is_one { number + 1 } else { number }
}

/// Whether the certificate at this index is accepted at the date.
fn is_usable<S: Scheme + Drop>(register: &Register<S>, place: usize, date: &UtcDate) -> bool
    requires within { place < length register.now.entries.items }
    ensures usable { IsTrue result ↔ IsUsableAt register.now.entries.items date.now place }
    ensures accepted { IsRegister (S.judge register.now.scheme) register.now.entries.items
        register.now.certificates.items
        → IsTrue result ↔ IsAcceptedAt (S.judge register.now.scheme) register.now.entries.items
        register.now.certificates.items date.now place }
{
    match register.usable(place) {
        Some((from, to)) => is_between(from, to, *date),
        None => unreachable!(),
    }
}

/// Whether the date is between these, both included.
fn is_between(from: UtcDate, to: UtcDate, date: UtcDate) -> bool
    ensures { IsTrue result ↔ IsBetween from to date }
{
    !is_earlier(date, from) && !is_earlier(to, date)
}
