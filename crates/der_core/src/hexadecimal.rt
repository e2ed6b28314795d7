//! Octets in hexadecimal.

ghost use Rattle.std.specs.Fmt.{WritesOnOk};
ghost use Rattle.hex.specs.Hex.{encode_lower};

use std::fmt;

/// Writes the octets in lower-case hexadecimal, two digits an octet.
pub fn write_hexadecimal<W: fmt::Write>(octets: &[u8], f: &mut fmt::Formatter<W>) -> fmt::Result
    ensures { WritesOnOk W.write_str_gives f.old result (encode_lower octets.now) f.new }
{
    for octet in octets {
        write!(f, "{octet:02x}")?;
    }
    Ok(())
}
