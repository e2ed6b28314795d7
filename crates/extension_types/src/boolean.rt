//! OPTIONAL flags (X.690 8.2).

ghost use Rattle.std.specs.Prelude.{MatchOption};
ghost use Rattle.der_core.specs.Default.{HasBadFlag};
ghost use Rattle.extension_types.specs.Boolean.{TakesBoolean};

use der_core::tag::BOOLEAN;
use der_core::{Kids, boolean_at};

/// The flag of a BOOLEAN that may be absent, `None` for a BOOLEAN of another length.
pub(crate) fn next_boolean(kids: &mut Kids<'_>) -> Option<Option<bool>>
    ensures { MatchOption result
        (HasBadFlag kids.old.are.0)
        (λ b. TakesBoolean kids.old.are.0 b kids.new.are.0) }
{
    let Some(elem) = kids.next_tagged(BOOLEAN) else {
        return Some(None);
    };
    Some(Some(boolean_at(elem)?))
}
