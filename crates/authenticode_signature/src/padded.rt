//! Signed data in a WIN_CERTIFICATE, with zeros after it.

ghost use Rattle.std.specs.Prelude.{◌≡◌, Err, MatchResult};
ghost use Rattle.der_core.specs.Encoding.{IsPaddedEncoding};
ghost use Rattle.der_core.specs.declared.error.DerError.{DerError};
ghost use Rattle.cms_types.specs.Pkcs7.{pkcs7};
ghost use Rattle.authenticode_core.specs.Basic.{IsNoSignedData};
ghost use Rattle.authenticode_signature.specs.Unread.{RefusesPadded};

use authenticode_core::padded_element;
use cms_types::{Pkcs7Certificate, SignedView};
use der_core::{DerError, Structure};
use std::alloc::Global;

/// Reads signed data with at most seven zeros after it. The octets are tested before anything is
/// allocated.
pub(crate) fn read_padded(alloc: Global, octets: &[u8]) -> Result<Pkcs7Certificate, DerError>
    ensures answer { MatchResult result
        (λ value. IsPaddedEncoding octets.now (pkcs7 value))
        (RefusesPadded octets.now) }
    ensures refused { (source : DerError) → IsNoSignedData octets.now source → result ≡ Err source }
{
    let elem = padded_element(octets)?;
    let Some(_view) = SignedView::read(elem) else {
        return Err(DerError::Shape);
    };
    Pkcs7Certificate::read_at(alloc, elem)
}
