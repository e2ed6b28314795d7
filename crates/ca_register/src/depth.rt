//! What the entries decide of an issuer.

ghost use Rattle.std.specs.Prelude.{◌≡◌, ◌↔◌, ◌<◌, ℕ, IsTrue, Some, length, MatchResult};
ghost use Rattle.der_core.specs.Steps.{AreTaken, IsFirstUntaken};
ghost use Rattle.x509_core.specs.History.{IsOrdered};
ghost use Rattle.ca_register.specs.Entries.{history_of};
ghost use Rattle.ca_register.specs.Issuing.{IsFirstTooShort, NoneTooShort, record_steps};
ghost use Rattle.ca_register.specs.declared.error.IssueError.TheVariants as errors;

use crate::entry::{Entry, entry_at};
use crate::error::IssueError;

/// Checks that a certificate may be issued under the one at this index: there is one, else
/// `NoIssuer`; it is a CA's, else `NotCa`; the path length of no ancestor is too short, else
/// `TooDeep`. It doesn't allocate.
pub(crate) fn expect_issuer(entries: &[Entry], issuer: usize) -> Result<(), IssueError>
    requires ordered { IsOrdered (history_of entries.now) }
    ensures { MatchResult result (λ _. AreTaken (record_steps entries.now issuer))
        (IsFirstUntaken (record_steps entries.now issuer)) }
{
    match entries.get(issuer) {
        None => Err(IssueError::NoIssuer {
            issuer,
            len: entries.len(),
        }),
        Some(entry) => {
            if !entry.grant.ca {
                return Err(IssueError::NotCa);
            }
            expect_depth(entries, issuer)
        }
    }
}

/// Checks that the path length of no ancestor of a certificate with this issuer is too short.
fn expect_depth(entries: &[Entry], issuer: usize) -> Result<(), IssueError>
    requires within { issuer < length entries.now }
    requires ordered { IsOrdered (history_of entries.now) }
    ensures { MatchResult result (λ _. NoneTooShort entries.now issuer)
        (λ e. (number : ℕ) × IsFirstTooShort entries.now issuer number
        × (e ≡ errors.TooDeep number)) }
{
    let mut at = issuer;
    let mut number = 0usize;
    while let Some(above) = entry_at(entries, at).issuer {
        number += 1;
        if is_too_short(entry_at(entries, above), number) {
            return Err(IssueError::TooDeep { ancestor: number });
        }
        at = above;
    }
    Ok(())
}

/// Whether the path length of the ancestor with this number is less than the number.
fn is_too_short(entry: Entry, number: usize) -> bool
    ensures { IsTrue result
        ↔ ((limit : ℕ) × (entry.grant.path_length ≡ Some limit) × (limit < number)) }
{
    match entry.grant.path_length {
        Some(limit) => usize::from(limit) < number,
        None => false,
    }
}
