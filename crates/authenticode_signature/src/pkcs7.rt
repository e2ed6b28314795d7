//! Owned signed data.

ghost use Rattle.std.specs.Prelude.{◌≡◌, ◌≢◌, ◌∷◌, [], ℕ, IfOk, Err, MatchResult, map};
ghost use Rattle.der_core.specs.DerElement.{DerElement};
ghost use Rattle.der_core.specs.Encoding.{encoding, IsDer};
ghost use Rattle.der_core.specs.Optional.{members_of};
ghost use Rattle.der_core.specs.Reading.{IsExactFault};
ghost use Rattle.der_core.specs.Refusals.{RefusesInner, RefusesOctets};
ghost use Rattle.der_core.specs.Structure.{IsWithin};
ghost use Rattle.der_core.specs.declared.error.DerError.TheVariants as der_errors;
ghost use Rattle.der_core.specs.declared.fault.DerFault.{DerFault};
ghost use Rattle.cms_types.specs.Pkcs7.{pkcs7};
ghost use Rattle.cms_types.specs.declared.signed_data.pkcs7.Pkcs7Certificate.{Pkcs7Certificate};
ghost use Rattle.x509_core.specs.OwnedCertificate.{kept_octets};
ghost use Rattle.x509_types.specs.CertificateElements.{certificate_of};
ghost use Rattle.authenticode_parts.specs.Carried.{elements_of};
ghost use Rattle.authenticode_core.specs.CertificateBag.{IsBag};
ghost use Rattle.authenticode_core.specs.declared.pkcs7_error.Pkcs7Error.TheVariants as errors;
ghost use Rattle.authenticode_signature.specs.CertificatesAlone.{certificates_alone};
ghost use Rattle.authenticode_signature.specs.Pkcs7.{HasBag, IsPkcs7Of, fields_of, written};
ghost use Rattle.authenticode_signature.specs.Refusals.{IsUnreadPkcs7, IsUnwrittenPkcs7, unread};

use crate::alone::without_signers;
use crate::bag::certificates_of;
use crate::refusing::{unread, unwritten};
use authenticode_core::Pkcs7Error;
use cms_types::{EncapsulatedContentInfo, Pkcs7Certificate, SignedView, SignerInfo};
use der_core::{DerError, Structure, exact_elem};
use key_types::AlgorithmIdentifier;
use std::alloc::{AllocError, Global};
use x509_core::Cert;

/// Owned signed data with its type (RFC 2315 7, 9.1; RFC 5652 3, 5.1).
#[derive(Debug)]
pub struct Pkcs7 {
    pub(crate) signed: Pkcs7Certificate,
}

/// By hand, so that dropping signed data is a call: else each function that drops it is proved
/// through all its parts.
impl Drop for Pkcs7 {
    fn drop(self) {
        let Pkcs7 { signed: _signed } = self;
    }
}

impl Pkcs7 {
    /// Reads signed data with its type from exactly its octets (RFC 5652 3). Octets that are no
    /// element, or another structure, are refused as `Asn1Deserialization`, even when memory runs
    /// out.
    pub fn from_der(alloc: Global, der: &[u8]) -> Result<Pkcs7, Pkcs7Error>
        ensures answer { MatchResult result
            (λ p. IsWithin IsPkcs7Of der.now p.signed)
            (IsUnreadPkcs7 (RefusesOctets IsPkcs7Of der.now)) }
        // Octets with a fault are refused with it, even when memory runs out.
        ensures faulty { (at : ℕ) (fault : DerFault) → IsExactFault der.now at fault
            → result ≡ Err (unread (der_errors.Malformed (record { at = at; fault = fault }))) }
        // An element that is no signed data is refused as such, even when memory runs out.
        ensures shapeless { (element : DerElement) → IsDer element → der.now ≡ encoding element
            → ((value : Pkcs7Certificate) → element ≢ pkcs7 value)
            → result ≡ Err (unread der_errors.Shape) }
    {
        match read(alloc, der) {
            Ok(signed) => Ok(Pkcs7 { signed }),
            Err(source) => Err(unread(source)),
        }
    }

    /// Signed data without signers, with these certificates as they are, in order. It is refused
    /// only when out of memory.
    pub fn of_certificates(alloc: Global, certificates: &[Cert]) -> Result<Pkcs7, Pkcs7Error>
        ensures answer { MatchResult result
            (λ p. fields_of p ≡ certificates_alone
            (map certificate_of (elements_of certificates.now)))
            (λ e. e ≡ errors.Memory) }
        // Its bag is these certificates.
        ensures bag { IfOk result (λ p. HasBag p (elements_of certificates.now)) }
        // Octet by octet, and there is nothing else beside them.
        ensures octets { IfOk result (λ p. map encoding (members_of (fields_of p).certificates)
            ≡ map kept_octets certificates.now) }
    {
        Ok(Pkcs7 {
            signed: without_signers(alloc, certificates)?,
        })
    }

    /// The encoding. `Asn1Serialization` exactly where `der_core::write` refuses its element.
    pub fn to_der(&self, alloc: Global) -> Result<Vec<u8>, Pkcs7Error>
        ensures { MatchResult result
            (λ octets. (octets.items ≡ encoding (written self.now)) × IsDer (written self.now))
            (IsUnwrittenPkcs7 (RefusesInner (written self.now ∷ []))) }
    {
        match self.signed.to_der(alloc) {
            Ok(octets) => Ok(octets),
            Err(source) => Err(unwritten(source)),
        }
    }

    /// The digest algorithms in order.
    pub fn digest_algorithms(&self) -> &[AlgorithmIdentifier]
        ensures { result.now ≡ self.now.signed.signed_data.digest_algorithms }
    {
        self.signed.signed_data.digest_algorithms.as_slice()
    }

    /// The signers in order.
    pub fn signer_infos(&self) -> &[SignerInfo]
        ensures { result.now ≡ self.now.signed.signed_data.signers_infos }
    {
        self.signed.signed_data.signers_infos.as_slice()
    }

    /// The content with its type.
    pub fn encapsulated_content_info(&self) -> &EncapsulatedContentInfo
        ensures { result.now ≡ self.now.signed.signed_data.content_info }
    {
        &self.signed.signed_data.content_info
    }

    /// The certificates in the signed data, in order: its members that are certificates. Out of
    /// memory is reported as such, and no certificate is dropped.
    pub fn decode_certificates(&self, alloc: Global) -> Result<Vec<Cert>, AllocError>
        ensures { IfOk result (λ certificates. IsBag (members_of (fields_of self.now).certificates)
            (elements_of certificates.items)) }
    {
        match &self.signed.signed_data.certificates {
            Some(members) => certificates_of(alloc, members.as_slice()),
            None => Ok(Vec::new(alloc)),
        }
    }

    /// A copy of the signed data.
    pub fn try_clone(&self, alloc: Global) -> Result<Pkcs7, AllocError>
        ensures { IfOk result (λ copy. copy ≡ self.now) }
    {
        Ok(Pkcs7 {
            signed: self.signed.try_clone(alloc)?,
        })
    }

    /// The structure of the signed data.
    fn into_signed(self) -> Pkcs7Certificate
        ensures { result ≡ self.signed }
    {
        let Pkcs7 { signed } = self;
        signed
    }
}

/// Reads signed data. The octets are tested before anything is allocated.
fn read(alloc: Global, der: &[u8]) -> Result<Pkcs7Certificate, DerError>
    ensures answer { MatchResult result (IsWithin IsPkcs7Of der.now)
        (RefusesOctets IsPkcs7Of der.now) }
    ensures faulty { (at : ℕ) (fault : DerFault) → IsExactFault der.now at fault
        → result ≡ Err (der_errors.Malformed (record { at = at; fault = fault })) }
    ensures shapeless { (element : DerElement) → IsDer element → der.now ≡ encoding element
        → ((value : Pkcs7Certificate) → element ≢ pkcs7 value) → result ≡ Err der_errors.Shape }
{
    let elem = exact_elem(der)?;
    let Some(_view) = SignedView::read(elem) else {
        return Err(DerError::Shape);
    };
    Pkcs7Certificate::read_at(alloc, elem)
}

impl From<Pkcs7Certificate> for Pkcs7 {
    ghost from_gives = { λ signed p. p.signed ≡ signed };

    fn from(signed: Pkcs7Certificate) -> Pkcs7 {
        Pkcs7 { signed }
    }
}

impl From<Pkcs7> for Pkcs7Certificate {
    ghost from_gives = { λ p signed. signed ≡ p.signed };

    fn from(p: Pkcs7) -> Pkcs7Certificate {
        p.into_signed()
    }
}
