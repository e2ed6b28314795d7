//! Times of a trust list (Microsoft, [MS-DTYP] 2.3.3: FILETIME).

ghost use Rattle.std.specs.Prelude.{◌≡◌, ◌<◌, ◌≤◌, length, MatchOption};
ghost use Rattle.cms_content.specs.FileTime.{seconds_of};

/// How many intervals of a FILETIME, of 100 nanoseconds each, make a second.
const INTERVALS: i64 = 10_000_000;

/// The time of a value in whole seconds. `None` exactly if it has fewer than eight octets.
pub(crate) fn seconds_of(value: &[u8]) -> Option<i64>
    ensures { MatchOption result (length value.now < 8)
        (λ seconds. (8 ≤ length value.now) × (seconds ≡ seconds_of value.now)) }
{
    let Some(octets) = value.first_chunk::<8>() else {
        return None;
    };
    Some(i64::from_le_bytes(*octets) / INTERVALS)
}
