//! Why signed data isn't read or written, by why its element isn't.

ghost use Rattle.std.specs.Prelude.{◌≡◌};
ghost use Rattle.authenticode_signature.specs.Refusals.{of_signed_data, unread, unwritten};

use authenticode_core::{AuthenticodeError, Pkcs7Error};
use der_core::DerError;
use x509_core::{CertError, Element};

/// The error for octets that aren't read as signed data.
pub(crate) fn unread(source: DerError) -> Pkcs7Error
    ensures { result ≡ unread source }
{
    match source {
        DerError::Memory => Pkcs7Error::Memory,
        source => Pkcs7Error::Cert(CertError::Asn1Deserialization {
            element: Element::Pkcs7,
            source,
        }),
    }
}

/// The error for a value that isn't written as signed data.
pub(crate) fn unwritten(source: DerError) -> Pkcs7Error
    ensures { result ≡ unwritten source }
{
    match source {
        DerError::Memory => Pkcs7Error::Memory,
        source => Pkcs7Error::Cert(CertError::Asn1Serialization {
            element: Element::Pkcs7,
            source,
        }),
    }
}

/// An error of signed data as one of a signature.
pub(crate) fn of_signature(error: Pkcs7Error) -> AuthenticodeError
    ensures { result ≡ of_signed_data error }
{
    match error {
        Pkcs7Error::Cert(error) => AuthenticodeError::CertError(error),
        Pkcs7Error::Memory => AuthenticodeError::Memory,
    }
}
