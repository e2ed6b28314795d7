//! Why a file is no image with a certificate table at its end.

ghost use Rattle.std.specs.Prelude.{Some};
ghost use Rattle.std.specs.Fmt.{WritesOnOk};
ghost use Rattle.pe_core.specs.ErrorText.{error_text};
ghost use Rattle.pe_core.specs.declared.error.PeError.TheVariants.{WrongMagic};

use std::fmt;
use thiserror::Error;

/// Why a file is no image with a certificate table at its end.
#[derive(Clone, Copy, Debug, PartialEq, Eq, Error)]
pub enum PeError {
    /// The file has no MS-DOS header.
    NotMz,
    /// The file has no PE mark, PE and two zeros, at the offset that the MS-DOS header gives, or it
    /// ends before the optional header.
    NotPe,
    /// The optional header is neither that of PE32 nor that of PE32+.
    WrongMagic { got: u16 },
    /// The optional header or the file ends before the end of the certificate table's entry of the
    /// data directories, or there are fewer than five of these.
    NoDirectory,
    /// The entry says that there is no certificate table.
    NoTable,
    /// The certificate table is not the end of the file behind the entry.
    TableOutside { address: u32, size: u32, len: usize },
}

impl fmt::Display for PeError {
    ghost output = { λ error. Some (error_text error) };

    fn fmt<W: fmt::Write>(&self, f: &mut fmt::Formatter<W>) -> fmt::Result {
        match self {
            PeError::NotMz => write!(f, "the file has no MS-DOS header, so it is no program"),
            PeError::NotPe => write!(f, "the file has no PE signature, so it is no program"),
            PeError::WrongMagic { got } => write_magic(*got, f),
            PeError::NoDirectory => write!(
                f,
                "the optional header has no data directory of certificates"
            ),
            PeError::NoTable => write!(f, "the program has no signature"),
            PeError::TableOutside { address, size, len } => write!(
                f,
                "the certificate table of {size} octets at offset {address} is not the end of the file of {len} octets"
            ),
        }
    }
}

/// The text of a wrong magic number, in four hexadecimal digits.
fn write_magic<W: fmt::Write>(number: u16, f: &mut fmt::Formatter<W>) -> fmt::Result
    ensures { WritesOnOk W.write_str_gives f.old result (error_text (WrongMagic number)) f.new }
{
    let (high, low) = (number / 256, number % 256);
    write!(
        f,
        "unknown magic number 0x{high:02x}{low:02x} of an optional header (known are 0x010b and 0x020b)"
    )
}
