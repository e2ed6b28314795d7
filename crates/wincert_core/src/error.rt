//! Errors of reading and writing a WIN_CERTIFICATE.

ghost use Rattle.std.specs.Prelude.{◌≡◌, Some};
ghost use Rattle.std.specs.Fmt.{WritesOnOk};
ghost use Rattle.wincert_core.specs.ErrorText.{error_text};
ghost use Rattle.wincert_core.specs.declared.error.WinCertificateError.TheVariants.{Memory, WrongRevisionValue};

use std::alloc::{AllocError, AllocFailed};
use std::fmt;
use thiserror::Error;

/// Why octets are no WIN_CERTIFICATE, or a certificate can't be encoded.
#[derive(Clone, Copy, Debug, PartialEq, Eq, Error)]
pub enum WinCertificateError {
    /// The revision is neither 1.0 nor 2.0.
    WrongRevisionValue { got: u16 },
    /// The certificate type is none of the four that are supported.
    WrongCertificateType { got: u16 },
    /// The octets, or their stated length, are too short for the header.
    WrongLength { minimum: usize, got: usize },
    /// The stated length is 0.
    CertificateDataIsEmpty,
    /// The octets end before the stated length.
    Io { stated: u32, got: usize },
    /// The length of header, certificate and padding doesn't fit 32 bits.
    TooLong,
    /// Out of memory.
    Memory,
}

impl fmt::Display for WinCertificateError {
    ghost output = { λ error. Some (error_text error) };

    fn fmt<W: fmt::Write>(&self, f: &mut fmt::Formatter<W>) -> fmt::Result {
        match self {
            WinCertificateError::WrongRevisionValue { got } => write_revision(*got, f),
            WinCertificateError::WrongCertificateType { got } => write!(
                f,
                "unknown type {got} of a WIN_CERTIFICATE (known are 1, 2, 3 and 9)"
            ),
            WinCertificateError::WrongLength { minimum, got } => write!(
                f,
                "a WIN_CERTIFICATE has at least {minimum} octets, and this one has {got}"
            ),
            WinCertificateError::CertificateDataIsEmpty => write!(
                f,
                "the WIN_CERTIFICATE states the length 0, so it holds no certificate"
            ),
            WinCertificateError::Io { stated, got } => write!(
                f,
                "the WIN_CERTIFICATE states a length of {stated} octets, and only {got} are there"
            ),
            WinCertificateError::TooLong => write!(
                f,
                "the certificate is too long: header, certificate and padding pass 4294967295 octets"
            ),
            WinCertificateError::Memory => write!(f, "out of memory"),
        }
    }
}

/// The text of a wrong revision, in four hexadecimal digits.
fn write_revision<W: fmt::Write>(number: u16, f: &mut fmt::Formatter<W>) -> fmt::Result
    ensures { WritesOnOk W.write_str_gives f.old result
        (error_text (WrongRevisionValue number)) f.new }
{
    let (high, low) = (number / 256, number % 256);
    write!(
        f,
        "unknown revision 0x{high:02x}{low:02x} of a WIN_CERTIFICATE (known are 0x0100 and 0x0200)"
    )
}

/// The result of this crate's calls.
pub type WinCertificateResult<T> = Result<T, WinCertificateError>;

impl From<AllocError> for WinCertificateError {
    ghost from_gives = { λ _ e. e ≡ Memory };

    fn from(_error: AllocError) -> WinCertificateError {
        WinCertificateError::Memory
    }
}

impl<T: Drop> From<AllocFailed<T>> for WinCertificateError {
    ghost from_gives = { λ _ e. e ≡ Memory };

    fn from(_error: AllocFailed<T>) -> WinCertificateError {
        WinCertificateError::Memory
    }
}
