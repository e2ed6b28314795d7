//! The signed data in a WIN_CERTIFICATE, borrowed.

ghost use Rattle.std.specs.Prelude.{◌≡◌, ◌↔◌, IsTrue, MatchResult};
ghost use Rattle.der_core.specs.DerElement.{DerElement};
ghost use Rattle.der_core.specs.Encoding.{IsPaddedEncoding};
ghost use Rattle.authenticode_core.specs.Basic.{IsMalformedPadded, IsPadding, LiesIn, RefusesValue};
ghost use Rattle.x509_core.specs.declared.error.CertError.{CertError};
ghost use Rattle.key_core.specs.declared.element.Element.{Element};

use crate::error::{AuthenticodeError, CheckError};
use cms_types::SignedView;
use der_core::{Cursor, DerError, DerFault, Elem, Malformed};
use key_core::Element;
use wincert_core::certificate_of;
use x509_core::CertError;

/// The most zeros that align a WIN_CERTIFICATE.
const MOST_PADDING: usize = 7;

/// The signed data in a WIN_CERTIFICATE. It doesn't allocate.
pub fn read_signed_data<'a>(bytes: &'a [u8]) -> Result<SignedView<'a>, CheckError>
    ensures { MatchResult result
        (λ found. (element : DerElement) × LiesIn bytes.now element found)
        (RefusesValue bytes.now) }
{
    let certificate = match certificate_of(bytes) {
        Ok(certificate) => certificate,
        Err(error) => return Err(CheckError::Win(error)),
    };
    let elem = match padded_element(certificate) {
        Ok(elem) => elem,
        Err(malformed) => return Err(unread(DerError::Malformed(malformed))),
    };
    match SignedView::read(elem) {
        Some(signed_data) => Ok(signed_data),
        None => Err(unread(DerError::Shape)),
    }
}

/// The error for a certificate that isn't signed data.
fn unread(source: DerError) -> CheckError
    ensures { result ≡ CheckError.Authenticode
        (AuthenticodeError.CertError (CertError.Asn1Deserialization Element.Pkcs7 source)) }
{
    CheckError::Authenticode(AuthenticodeError::CertError(CertError::Asn1Deserialization {
        element: Element::Pkcs7,
        source,
    }))
}

/// Reads an element and the zeros after it that align a WIN_CERTIFICATE, at most seven (PE format,
/// "The Attribute Certificate Table"). Returns the first fault otherwise, or `Trailing` at the
/// first octet after the element. It doesn't allocate.
pub fn padded_element(octets: &[u8]) -> Result<Elem<'_>, Malformed>
    ensures { MatchResult result
        (λ elem. IsPaddedEncoding octets.now elem.is.0)
        (IsMalformedPadded octets.now) }
{
    let mut cursor = Cursor::new(octets);
    match cursor.next()? {
        Some(elem) if is_padding(cursor.rest()) => Ok(elem),
        Some(_) => Err(Malformed {
            at: cursor.place(),
            fault: DerFault::Trailing,
        }),
        None => Err(Malformed {
            at: 0,
            fault: DerFault::Truncated,
        }),
    }
}

fn is_padding(octets: &[u8]) -> bool
    ensures { IsTrue result ↔ IsPadding octets.now }
{
    octets.len() <= MOST_PADDING && octets.iter().all(|octet| *octet == 0)
}
