//! Owned timestamp requests.

ghost use Rattle.std.specs.Prelude.{◌≡◌, ◌≢◌, ◌↔◌, ◌∷◌, [], ℕ, Some, IfOk, IsTrue, Err, MatchResult};
ghost use Rattle.std.specs.Option.{option_copied};
ghost use Rattle.asn1_types.specs.Elements.{object_identifier_of};
ghost use Rattle.der_core.specs.DerElement.{DerElement};
ghost use Rattle.der_core.specs.Elements.{octet_string};
ghost use Rattle.der_core.specs.Encoding.{encoding, IsDer};
ghost use Rattle.der_core.specs.Reading.{IsExactFault};
ghost use Rattle.der_core.specs.Refusals.{RefusesInner, RefusesOctets};
ghost use Rattle.der_core.specs.Structure.{IsWithin};
ghost use Rattle.der_core.specs.declared.error.DerError.TheVariants as der_errors;
ghost use Rattle.der_core.specs.declared.fault.DerFault.{DerFault};
ghost use Rattle.key_core.specs.declared.element.Element.TheVariants as elements;
ghost use Rattle.x509_core.specs.CertRefusals.{IsUnreadCert, IsUnwrittenCert};
ghost use Rattle.x509_core.specs.declared.error.CertError.TheVariants as errors;
ghost use Rattle.cms_content.specs.ContentInfo.{content_info};
ghost use Rattle.cms_content.specs.ContentInfoElements.{content_info_of};
ghost use Rattle.cms_content.specs.TimestampRequest.{timestamp_request};
ghost use Rattle.cms_content.specs.declared.timestamp_request.TimestampRequest.{TimestampRequest as RequestValue};
ghost use Rattle.authenticode_signature.specs.TimestampRequest.{IsRequestOf, asking_for, data_in, requested};

use asn1_types::ObjectIdentifier;
use asn1_types::oids::{DATA, SPC_TIME_STAMP_REQUEST};
use cms_content::{ContentValue, EncapsulatedContentInfo, TimestampRequest as RequestValue};
use der_core::{Octets, Structure};
use std::alloc::{AllocError, Global};
use x509_core::{CertError, Element};

/// An owned timestamp request in the form of Authenticode (Windows Authenticode Portable Executable
/// Signature Format).
#[derive(Debug, Drop)]
pub struct TimestampRequest {
    request: RequestValue,
}

impl TimestampRequest {
    /// The timestamp request for these octets, which are its content, of type data.
    pub fn new(alloc: Global, digest: &[u8]) -> Result<TimestampRequest, AllocError>
        ensures { IfOk result (λ r. requested r ≡ asking_for digest.now) }
    {
        Ok(TimestampRequest {
            request: RequestValue {
                countersignature_type: ObjectIdentifier::from_known(alloc, SPC_TIME_STAMP_REQUEST)?,
                content: data_content(alloc, digest)?,
            },
        })
    }

    /// The content with its type.
    pub fn content(&self) -> &EncapsulatedContentInfo
        ensures { result.now ≡ self.now.request.content }
    {
        &self.request.content
    }

    /// The content with its type, by value.
    pub fn into_content(self) -> EncapsulatedContentInfo
        ensures { result ≡ self.request.content }
    {
        let TimestampRequest { request } = self;
        let RequestValue { content, .. } = request;
        content
    }

    /// The octets to be timestamped, None exactly where the content isn't octets of type data.
    pub fn digest(&self) -> Option<&[u8]>
        ensures { option_copied result ≡ data_in self.now.request.content.content }
    {
        match &self.request.content.content {
            Some(ContentValue::Data(octets)) => Some(octets.as_slice()),
            _ => None,
        }
    }

    /// Reads a timestamp request from exactly its octets (Windows Authenticode Portable Executable
    /// Signature Format). Octets that are no element, or another structure, are refused as
    /// `Asn1Deserialization`, even when memory runs out.
    pub fn from_der(alloc: Global, der: &[u8]) -> Result<TimestampRequest, CertError>
        ensures answer { MatchResult result
            (λ r. IsWithin IsRequestOf der.now r.request)
            (IsUnreadCert elements.TimestampRequest (RefusesOctets IsRequestOf der.now)) }
        // Octets with a fault are refused with it, even when memory runs out.
        ensures faulty { (at : ℕ) (fault : DerFault) → IsExactFault der.now at fault
            → result ≡ Err (errors.Asn1Deserialization elements.TimestampRequest
            (der_errors.Malformed (record { at = at; fault = fault }))) }
        // An element that is no request is refused as such, even when memory runs out.
        ensures shapeless { (element : DerElement) → IsDer element → der.now ≡ encoding element
            → ((value : RequestValue) → element ≢ timestamp_request value)
            → result ≡ Err (errors.Asn1Deserialization elements.TimestampRequest der_errors.Shape) }
    {
        match RequestValue::from_der(alloc, der) {
            Ok(request) => Ok(TimestampRequest { request }),
            Err(source) => Err(CertError::unread(Element::TimestampRequest, source)),
        }
    }

    /// The encoding. `Asn1Serialization` exactly where `der_core::write` refuses its element.
    pub fn to_der(&self, alloc: Global) -> Result<Vec<u8>, CertError>
        ensures { MatchResult result
            (λ octets. (octets.items ≡ encoding (requested self.now)) × IsDer (requested self.now))
            (IsUnwrittenCert elements.TimestampRequest (RefusesInner (requested self.now ∷ []))) }
    {
        match self.request.to_der(alloc) {
            Ok(octets) => Ok(octets),
            Err(source) => Err(CertError::unwritten(Element::TimestampRequest, source)),
        }
    }

    /// A copy of the request.
    pub fn try_clone(&self, alloc: Global) -> Result<TimestampRequest, AllocError>
        ensures { IfOk result (λ copy. copy ≡ self.now) }
    {
        Ok(TimestampRequest {
            request: self.request.try_clone(alloc)?,
        })
    }
}

/// The content of type data with these octets (RFC 5652 4).
fn data_content(alloc: Global, octets: &[u8]) -> Result<EncapsulatedContentInfo, AllocError>
    ensures { IfOk result (λ info. content_info info ≡ content_info_of
        (object_identifier_of DATA.now) (Some (octet_string octets.now))) }
{
    Ok(EncapsulatedContentInfo {
        content_type: ObjectIdentifier::from_known(alloc, DATA)?,
        content: Some(ContentValue::Data(Octets::from_slice(alloc, octets)?)),
    })
}

impl From<RequestValue> for TimestampRequest {
    ghost from_gives = { λ request r. r.request ≡ request };

    fn from(request: RequestValue) -> TimestampRequest {
        TimestampRequest { request }
    }
}

impl From<TimestampRequest> for RequestValue {
    ghost from_gives = { λ r request. request ≡ r.request };

    fn from(r: TimestampRequest) -> RequestValue {
        let TimestampRequest { request } = r;
        request
    }
}

/// Requests are equal exactly where their encodings are.
impl PartialEq for TimestampRequest {
    ghost use Rattle.der_core.specs.Equality.{same_octets};
    ghost use Rattle.der_core.specs.Facts.Equality.{same_octets_per};

    ghost eq = { same_octets requested };

    ghost laws = { same_octets_per requested };

    fn eq(&self, other: &TimestampRequest) -> bool
        ensures octets { result ≡ same_octets requested self.now other.now }
        ensures same { IsTrue result ↔ (self.now ≡ other.now) }
    {
        self.request == other.request
    }
}

impl Eq for TimestampRequest {
    ghost use Rattle.der_core.specs.Facts.Equality.{same_octets_equiv};

    ghost laws = { same_octets_equiv requested };
}
