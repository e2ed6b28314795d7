//! Certification requests stored with their octets.

ghost use Rattle.std.specs.Prelude.{◌≡◌, ◌↔◌, ℕ, Some, IsTrue, IfOk, Err, MatchResult};
ghost use Rattle.der_core.specs.DerElement.{DerElement};
ghost use Rattle.der_core.specs.Encoding.{encoding, IsDer};
ghost use Rattle.der_core.specs.Equality.{same_octets};
ghost use Rattle.der_core.specs.Facts.Equality.{same_octets_per};
ghost use Rattle.der_core.specs.Reading.{IsExactFault};
ghost use Rattle.der_core.specs.Refusals.{RefusesInner, RefusesOctets, RefusesShape};
ghost use Rattle.der_core.specs.Structure.{IsWithin};
ghost use Rattle.der_core.specs.declared.error.DerError.TheVariants as der_errors;
ghost use Rattle.der_core.specs.declared.fault.DerFault.{DerFault};
ghost use Rattle.key_core.specs.Keys.{info_of};
ghost use Rattle.key_core.specs.declared.element.Element.TheVariants as elements;
ghost use Rattle.names_core.specs.Names.{sets_of};
ghost use Rattle.x509_issuing.specs.CertificationRequest.{IsRequest, request};
ghost use Rattle.x509_issuing.specs.declared.request.CertificationRequest.{CertificationRequest};
ghost use Rattle.x509_core.specs.declared.csr_error.CsrError.TheVariants as errors;
ghost use Rattle.x509_issuing.specs.CsrRefusals.{IsUnreadCsr, IsUnwrittenCsr};
ghost use Rattle.x509_issuing.specs.OwnedRequest.{HasInfo, KeptRequest, kept_request, request_with, request_elements};
ghost use Rattle.x509_issuing.specs.Facts.Csrs.{HasInfo-prop};

mod asking;
mod causes;
mod generating;
mod verifying;

use crate::request::CertificationRequest;
use crate::request_info::CertificationRequestInfo;
use asn1_types::BitString;
use der_core::{DerError, Elem, Raw, Structure, exact_elem};
use key_core::{Element, PublicKey};
use names_core::DirectoryName;
use std::alloc::{AllocError, Global};
use std::marker::Model;
use x509_core::CsrError;
use x509_types::{AlgorithmIdentifier, AttributeList, Name};

/// A certification request (RFC 2986 4.2), stored with its octets. Contracts see it as the element
/// of its CertificationRequestInfo and the value. Its signature is verified by [`Csr::verify`], not
/// when it is read.
#[derive(Debug)]
pub struct Csr {
    kept: Raw,
    subject: Name,
    public_key: PublicKey,
    attributes: Option<AttributeList>,
    signature_algorithm: AlgorithmIdentifier,
    signature: BitString,
    ghost around: { HasInfo kept.element
        (request_with subject public_key attributes signature_algorithm signature) } by { HasInfo-prop kept.element
            (request_with subject public_key attributes signature_algorithm signature) },
}

/// By hand, so that dropping a request is a call: else each function that drops one is proved
/// through all its parts.
impl Drop for Csr {
    fn drop(self) {
        let Csr {
            kept: _kept,
            subject: _subject,
            public_key: _public_key,
            attributes: _attributes,
            signature_algorithm: _signature_algorithm,
            signature: _signature,
        } = self;
    }
}

impl Model for Csr {
    ghost use Rattle.x509_issuing.specs.OwnedRequest.{KeptRequest, request_with};
    ghost use Rattle.x509_issuing.specs.Facts.Csrs.{coded_requests};

    ghost Value = { KeptRequest };

    ghost coded = { coded_requests };

    ghost view = { λ csr. record {
      info = csr.around.0;
      request = request_with csr.subject csr.public_key csr.attributes csr.signature_algorithm
          csr.signature;
      der = csr.around.1.1;
      spelled = csr.around.1.2;
    } };
}

impl Csr {
    /// Reads a request from exactly its octets (RFC 2986 4.2). Octets that are no element, or
    /// another structure, are refused as `Asn1Deserialization`, even when memory runs out.
    pub fn from_der(alloc: Global, der: &[u8]) -> Result<Csr, CsrError>
        ensures kept { IfOk result (λ csr. encoding (kept_request csr) ≡ der.now) }
        ensures answer { MatchResult result
            (λ csr. IsWithin IsRequest der.now csr.request)
            (IsUnreadCsr elements.Request (RefusesOctets IsRequest der.now)) }
        // Octets with a fault are refused with it, even when memory runs out.
        ensures faulty { (at : ℕ) (fault : DerFault) → IsExactFault der.now at fault
            → result ≡ Err (errors.Asn1Deserialization elements.Request
            (der_errors.Malformed (record { at = at; fault = fault }))) }
        // An element that is no request is refused as such, even when memory runs out.
        ensures shapeless { (element : DerElement) → IsDer element → der.now ≡ encoding element
            → ((r : CertificationRequest) → IsRequest element r → ⊥)
            → result ≡ Err (errors.Asn1Deserialization elements.Request der_errors.Shape) }
        // The octets of a known request are read as that request, or memory runs out.
        ensures reread { (csr : KeptRequest) → der.now ≡ encoding (kept_request csr)
            → MatchResult result (λ read. read ≡ csr) (λ e. e ≡ errors.Memory) }
    {
        match Csr::read(alloc, der) {
            Ok(csr) => Ok(csr),
            Err(source) => Err(causes::unread(Element::Request, source)),
        }
    }

    /// Reads a request. The octets are tested before anything is allocated.
    fn read(alloc: Global, der: &[u8]) -> Result<Csr, DerError>
        ensures kept { IfOk result (λ csr. encoding (kept_request csr) ≡ der.now) }
        ensures answer { MatchResult result
            (λ csr. IsWithin IsRequest der.now csr.request)
            (RefusesOctets IsRequest der.now) }
        ensures faulty { (at : ℕ) (fault : DerFault) → IsExactFault der.now at fault
            → result ≡ Err (der_errors.Malformed (record { at = at; fault = fault })) }
        ensures shapeless { (element : DerElement) → IsDer element → der.now ≡ encoding element
            → ((r : CertificationRequest) → IsRequest element r → ⊥)
            → result ≡ Err der_errors.Shape }
    {
        let elem = exact_elem(der)?;
        if !CertificationRequest::has_shape(elem) {
            return Err(DerError::Shape);
        }
        Csr::read_at(alloc, elem)
    }

    /// The request that an element encodes, with a copy of its octets.
    fn read_at(alloc: Global, elem: Elem<'_>) -> Result<Csr, DerError>
        ensures kept { IfOk result (λ csr. kept_request csr ≡ elem.entry.is.0) }
        ensures answer { MatchResult result
            (λ csr. IsRequest elem.entry.is.0 csr.request)
            (RefusesShape (IsRequest elem.entry.is.0)) }
    {
        let request = CertificationRequest::read_at(alloc, elem)?;
        let kept = Raw::from_elem(alloc, elem)?;
        Ok(Csr::keep(kept, request))
    }

    /// The request that a raw element encodes.
    fn keep(kept: Raw, request: CertificationRequest) -> Csr
        requires { IsRequest kept.element request }
        ensures { (kept_request result ≡ kept.element) × (result.request ≡ request) }
    {
        let CertificationRequest {
            certification_request_info,
            signature_algorithm,
            signature,
        } = request;
        let CertificationRequestInfo {
            subject,
            subject_public_key_info,
            attributes,
        } = certification_request_info;
        let public_key = PublicKey::from(subject_public_key_info);
        Csr {
            kept,
            subject,
            public_key,
            attributes,
            signature_algorithm,
            signature,
        }
    }

    /// A copy of the octets, as they were read or first written.
    pub fn to_der(&self, alloc: Global) -> Result<Vec<u8>, CsrError>
        ensures { MatchResult result (λ octets. octets.items ≡ encoding (kept_request self.now))
            (λ e. e ≡ errors.Memory) }
    {
        Ok(Vec::from_slice(alloc, self.kept.as_bytes())?)
    }

    /// Makes a request from a value, with the value's encoding. A value without one is refused as
    /// `Asn1Serialization`.
    pub fn from_certification_request(
        alloc: Global,
        value: CertificationRequest,
    ) -> Result<Csr, CsrError>
        ensures { MatchResult result
            (λ csr. (kept_request csr ≡ request value) × (csr.request ≡ value))
            (IsUnwrittenCsr elements.Request (RefusesInner (request_elements value))) }
    {
        match written(alloc, &value) {
            Ok(kept) => Ok(Csr::keep(kept, value)),
            Err(source) => Err(causes::unwritten(Element::Request, source)),
        }
    }

    /// The subject's name (RFC 2986 4.1).
    pub fn subject_name(&self, alloc: Global) -> Result<DirectoryName, AllocError>
        ensures { IfOk result
            (λ copy. sets_of copy ≡ self.now.request.certification_request_info.subject) }
    {
        Ok(DirectoryName::from(self.subject.try_clone(alloc)?))
    }

    /// The subject's key with its algorithm (RFC 2986 4.1).
    pub fn public_key(&self) -> &PublicKey
        ensures { info_of result.now
            ≡ self.now.request.certification_request_info.subject_public_key_info }
    {
        &self.public_key
    }

    /// The subject's name and key (RFC 2986 4.1). It doesn't allocate.
    pub fn into_subject_infos(self) -> (DirectoryName, PublicKey)
        ensures name { sets_of result.0 ≡ self.request.certification_request_info.subject }
        ensures key { info_of result.1
            ≡ self.request.certification_request_info.subject_public_key_info }
    {
        let Csr {
            kept: _kept,
            subject,
            public_key,
            attributes: _attributes,
            signature_algorithm: _signature_algorithm,
            signature: _signature,
        } = self;
        (DirectoryName::from(subject), public_key)
    }

    /// A copy of the request.
    pub fn try_clone(&self, alloc: Global) -> Result<Csr, AllocError>
        ensures { IfOk result (λ copy. copy ≡ self.now) }
    {
        match Csr::read_at(alloc, self.kept.elem()) {
            Ok(copy) => Ok(copy),
            Err(_) => Err(AllocError),
        }
    }
}

/// The encoding of a request.
fn written(alloc: Global, value: &CertificationRequest) -> Result<Raw, DerError>
    ensures { MatchResult result
        (λ raw. (raw.element ≡ request value.now) × IsRequest raw.element value.now)
        (RefusesInner (request_elements value.now)) }
{
    let tree = value.write(alloc)?;
    Raw::from_tree(alloc, &tree)
}

/// Requests are equal exactly where their octets are.
impl PartialEq for Csr {
    ghost eq = { same_octets kept_request };

    ghost laws = { same_octets_per kept_request };

    fn eq(&self, other: &Csr) -> bool
        ensures octets { result ≡ same_octets kept_request self.now other.now }
        ensures same { IsTrue result ↔ (self.now ≡ other.now) }
    {
        self.kept == other.kept
    }
}
