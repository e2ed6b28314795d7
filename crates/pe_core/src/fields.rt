//! Numbers in a file, the low octet first.

ghost use Rattle.std.specs.Prelude.{◌≡◌, ◌+◌, ◌<◌, ◌≤◌, length, MatchOption};
ghost use Rattle.pe_core.specs.Fields.{u16_at, u32_at};

/// The number of two octets at an offset, `None` if the file ends before.
pub(crate) fn u16_at(bytes: &[u8], offset: usize) -> Option<u16>
    ensures { MatchOption result (length bytes.now < offset + 2)
        (λ number. (offset + 2 ≤ length bytes.now) × (number ≡ u16_at bytes.now offset)) }
{
    let [low, high, ..] = bytes.get(offset..)? else {
        return None;
    };
    Some(u16::from_le_bytes([*low, *high]))
}

/// The number of four octets at an offset, `None` if the file ends before.
pub(crate) fn u32_at(bytes: &[u8], offset: usize) -> Option<u32>
    ensures { MatchOption result (length bytes.now < offset + 4)
        (λ number. (offset + 4 ≤ length bytes.now) × (number ≡ u32_at bytes.now offset)) }
{
    let [first, second, third, fourth, ..] = bytes.get(offset..)? else {
        return None;
    };
    Some(u32::from_le_bytes([*first, *second, *third, *fourth]))
}

/// The number of two octets at an offset within the octets.
pub(crate) fn known_u16(bytes: &[u8], offset: usize) -> u16
    requires { offset + 2 ≤ length bytes.now }
    ensures { result ≡ u16_at bytes.now offset }
{
    match u16_at(bytes, offset) {
        Some(number) => number,
        None => unreachable!(),
    }
}

/// The number of four octets at an offset within the octets.
pub(crate) fn known_u32(bytes: &[u8], offset: usize) -> u32
    requires { offset + 4 ≤ length bytes.now }
    ensures { result ≡ u32_at bytes.now offset }
{
    match u32_at(bytes, offset) {
        Some(number) => number,
        None => unreachable!(),
    }
}
