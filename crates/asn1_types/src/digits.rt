//! Two decimal digits, as in the contents octets of both times.

ghost use Rattle.std.specs.Prelude.{◌≡◌, ◌+◌, ◌<◌, ℕ, length, MatchOption};
ghost use Rattle.asn1_types.specs.Time.{two_digits, IsPair};

/// The digits of a number.
pub fn digits_of(number: u8) -> [u8; 2]
    requires { number < 100 }
    ensures { result ≡ two_digits number }
{
    [b'0' + number / 10, b'0' + number % 10]
}

/// The number whose digits are two octets of the slice, from index `at` on; `None` exactly if one
/// isn't a digit.
#[inline(always)]
pub fn number_at(bytes: &[u8], at: usize) -> Option<u8>
    requires { at + 1 < length bytes.now }
    ensures { MatchOption result
        ((n : ℕ) → ¬ (IsPair bytes.now at n))
        (IsPair bytes.now at) }
{
    let (tens, ones) = (bytes[at], bytes[at + 1]);
    if !tens.is_ascii_digit() || !ones.is_ascii_digit() {
        return None;
    }
    Some(10 * (tens - b'0') + (ones - b'0'))
}
