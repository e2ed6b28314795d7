//! Trust lists.

ghost use Rattle.std.specs.Prelude.{◌≡◌, ◌≢◌, ℕ, Err, IfOk, MatchResult};
ghost use Rattle.cms_types.specs.Pkcs7.{pkcs7};
ghost use Rattle.cms_types.specs.declared.signed_data.pkcs7.Pkcs7Certificate.{Pkcs7Certificate};
ghost use Rattle.der_core.specs.DerElement.{DerElement};
ghost use Rattle.der_core.specs.Encoding.{encoding, IsDer};
ghost use Rattle.der_core.specs.Reading.{IsExactFault};
ghost use Rattle.der_core.specs.Refusals.{RefusesOctets, Wraps};
ghost use Rattle.der_core.specs.Rules.{IsFirstBroken};
ghost use Rattle.der_core.specs.Structure.{IsWithin};
ghost use Rattle.der_core.specs.declared.error.DerError.TheVariants as der_errors;
ghost use Rattle.der_core.specs.declared.fault.DerFault.{DerFault};
ghost use Rattle.authenticode_core.specs.Inside.ListContent.{AreEntriesIn, IsOtherContent};
ghost use Rattle.authenticode_core.specs.TrustList.{HasEntries, IsOnList, IsSignedData, content_rules, name_rules, unread_list};
ghost use Rattle.authenticode_core.specs.declared.ctl_error.CtlError.TheVariants.{IncorrectContentValue};

use crate::ctl_error::CtlError;
use crate::error::AuthenticodeError;
use crate::pkcs7_error::Pkcs7Error;
use cms_content::expect_listed;
use cms_types::{CTLEntry, ContentValue, Pkcs7Certificate};
use der_core::{DerError, Structure};
use key_core::Element;
use std::alloc::{AllocError, Global};
use x509_core::CertError;

/// A trust list: signed data, whose content `ctl_entries` checks to be one (Microsoft, wincrypt.h:
/// CTL_INFO). Its own signature isn't verified.
#[derive(Debug)]
pub struct CertificateTrustList {
    signed: Pkcs7Certificate,
}

/// By hand, so that dropping a list is a call: else each function that drops one is proved through
/// all its parts.
impl Drop for CertificateTrustList {
    fn drop(self) {
        let CertificateTrustList { signed: _signed } = self;
    }
}

impl CertificateTrustList {
    /// Signed data as a trust list: a `Pkcs7`, or its structure.
    pub fn from_pkcs7<P: Into<Pkcs7Certificate>>(pkcs7: P) -> CertificateTrustList
        ensures { P.converts pkcs7 result.signed }
    {
        CertificateTrustList {
            signed: pkcs7.into(),
        }
    }

    /// Reads a trust list from exactly its octets, a ContentInfo of signed data (RFC 5652 3).
    /// Whether its content is a trust list isn't checked here.
    pub fn from_der(alloc: Global, der: &[u8]) -> Result<CertificateTrustList, CtlError>
        ensures answer { MatchResult result
            (λ list. IsWithin IsSignedData der.now list.signed)
            (Wraps unread_list (RefusesOctets IsSignedData der.now)) }
        // Octets with a fault are refused with it, even when memory runs out.
        ensures faulty { (at : ℕ) (fault : DerFault) → IsExactFault der.now at fault
            → result
            ≡ Err (unread_list (der_errors.Malformed (record { at = at; fault = fault }))) }
        // An element that isn't signed data is refused with `Shape`, even when memory runs out.
        ensures shapeless { (element : DerElement) → IsDer element → der.now ≡ encoding element
            → ((value : Pkcs7Certificate) → element ≢ pkcs7 value)
            → result ≡ Err (unread_list der_errors.Shape) }
    {
        match Pkcs7Certificate::from_der(alloc, der) {
            Ok(signed) => Ok(CertificateTrustList { signed }),
            Err(source) => Err(unread(source)),
        }
    }

    /// The entries of the list, in order, if its content is a trust list.
    pub fn ctl_entries(&self) -> Result<&[CTLEntry], CtlError>
        ensures { MatchResult result (λ entries. HasEntries self.now entries.now)
            (IsFirstBroken (content_rules self.now)) }
    {
        match &self.signed.signed_data.content_info.content {
            Some(content) => entries_in(content),
            None => Err(CtlError::NoContent),
        }
    }

    /// A copy of the list.
    pub fn try_clone(&self, alloc: Global) -> Result<CertificateTrustList, AllocError>
        ensures { IfOk result (λ copy. copy ≡ self.now) }
    {
        Ok(CertificateTrustList {
            signed: self.signed.try_clone(alloc)?,
        })
    }
}

/// The name of a CA, given as octets, is on a list at a time. It doesn't allocate.
pub(crate) fn expect_on_list(
    list: &CertificateTrustList,
    name: &[u8],
    now: i64,
) -> Result<(), AuthenticodeError>
    ensures { (ca : DerElement) → name.now ≡ encoding ca
        → MatchResult result (λ _. IsOnList list.now now ca)
        (IsFirstBroken (name_rules list.now now ca)) }
{
    let entries = list.ctl_entries()?;
    expect_listed(entries, name, now)?;
    Ok(())
}

/// The entries of a content, in order, if it is a trust list.
fn entries_in(content: &ContentValue) -> Result<&[CTLEntry], CtlError>
    ensures { MatchResult result (λ entries. AreEntriesIn content.now entries.now)
        (λ e. IsOtherContent content.now × (e ≡ IncorrectContentValue)) }
{
    match content {
        ContentValue::CertificateTrustList(list) => Ok(list.entries()),
        _ => Err(CtlError::IncorrectContentValue),
    }
}

/// The error for octets that aren't read as a trust list.
fn unread(source: DerError) -> CtlError
    ensures { result ≡ unread_list source }
{
    match source {
        DerError::Memory => CtlError::Memory,
        source => CtlError::FailedToParseCtl(Pkcs7Error::Cert(CertError::Asn1Deserialization {
            element: Element::Pkcs7,
            source,
        })),
    }
}
