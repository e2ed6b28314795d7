//! Certification requests (RFC 2986 4.2).
//!
//! ```text
//! CertificationRequest ::= SEQUENCE {
//!      certificationRequestInfo CertificationRequestInfo,
//!      signatureAlgorithm AlgorithmIdentifier{{ SignatureAlgorithms }},
//!      signature          BIT STRING
//! }
//! ```

ghost use Rattle.std.specs.Prelude.{◌≡◌, ◌↔◌, IsTrue, MatchOption};
ghost use Rattle.der_core.specs.Structure.{Fits};

use crate::request_info::CertificationRequestInfo;
use asn1_types::BitString;
use der_core::tag::SEQUENCE;
use der_core::{DerError, Elem, NewKids, Structure, Tree, expect, three_kids};
use key_types::AlgorithmIdentifier;
use std::alloc::{AllocError, Global};

/// A certification request: what is signed, the algorithm of the signature, and the signature (RFC
/// 2986 4.2).
#[derive(Debug, Drop)]
pub struct CertificationRequest {
    pub certification_request_info: CertificationRequestInfo,
    pub signature_algorithm: AlgorithmIdentifier,
    pub signature: BitString,
}

impl CertificationRequest {
    ghost use Rattle.x509_issuing.specs.CertificationRequest.{IsRequest};
    ghost use Rattle.x509_issuing.specs.declared.request.CertificationRequest.{CertificationRequest};

    /// `Some` if the element encodes a request.
    fn expect_shapes(elem: Elem<'_>) -> Option<()>
        ensures { MatchOption result
            ((r : CertificationRequest) → IsRequest elem.entry.is.0 r → ⊥)
            (λ _. Fits IsRequest elem.entry.is.0) }
    {
        let Some((info, algorithm, value)) = three_kids(elem, SEQUENCE) else {
            return None;
        };
        expect::<CertificationRequestInfo>(info)?;
        expect::<AlgorithmIdentifier>(algorithm)?;
        expect::<BitString>(value)?;
        Some(())
    }
}

impl Structure for CertificationRequest {
    ghost use Rattle.x509_issuing.specs.CertificationRequest.{request, inner_of_request, IsRequest};
    ghost use Rattle.x509_issuing.specs.Facts.Requests.{requests};

    ghost written = { request };

    ghost spells = { IsRequest };

    ghost inner = { inner_of_request };

    fn has_shape(elem: Elem<'_>) -> bool {
        CertificationRequest::expect_shapes(elem).is_some()
    }

    fn read_at(alloc: Global, elem: Elem<'_>) -> Result<CertificationRequest, DerError> {
        let Some((info, algorithm, value)) = three_kids(elem, SEQUENCE) else {
            return Err(DerError::Shape);
        };
        let signature = BitString::read_at(alloc, value)?;
        let signature_algorithm = AlgorithmIdentifier::read_at(alloc, algorithm)?;
        // Last, so that it needn't be freed if another field fails.
        let certification_request_info = CertificationRequestInfo::read_at(alloc, info)?;
        Ok(CertificationRequest {
            certification_request_info,
            signature_algorithm,
            signature,
        })
    }

    fn write(&self, alloc: Global) -> Result<Tree, DerError> {
        let mut kids = NewKids::new(alloc);
        kids.push(self.certification_request_info.write(alloc)?)?;
        kids.push(self.signature_algorithm.write(alloc)?)?;
        kids.push(self.signature.write(alloc)?)?;
        Ok(kids.into_branch(SEQUENCE))
    }

    fn try_clone(&self, alloc: Global) -> Result<CertificationRequest, AllocError> {
        Ok(CertificationRequest {
            signature: self.signature.try_clone(alloc)?,
            signature_algorithm: self.signature_algorithm.try_clone(alloc)?,
            certification_request_info: self.certification_request_info.try_clone(alloc)?,
        })
    }

    ghost grammar = { requests };
}

/// Requests are equal exactly if the kinds of the extension values in them and their encodings are;
/// if both can be written, the encodings alone decide.
impl PartialEq for CertificationRequest {
    ghost use Rattle.std.specs.Ordering.{on};
    ghost use Rattle.std.specs.Cmp.Lexicographic.{nat_list_eq_equiv};
    ghost use Rattle.std.specs.Cmp.{on_per, partial_equiv_from_equiv};
    ghost use Rattle.std.specs.Prelude.{bytes_eq};
    ghost use Rattle.der_core.specs.Equality.{same_octets};
    ghost use Rattle.der_core.specs.Borrowed.{AreDer};
    ghost use Rattle.x509_issuing.specs.CertificationRequest.{request, inner_of_request, request_octets};

    ghost eq = { on (λ value. request_octets value) bytes_eq };

    ghost laws = { on_per (λ value. request_octets value)
        (partial_equiv_from_equiv nat_list_eq_equiv) };

    fn eq(&self, other: &CertificationRequest) -> bool
        ensures octets { AreDer (inner_of_request self.now) → AreDer (inner_of_request other.now)
            → result ≡ same_octets request self.now other.now }
        ensures compared { result ≡ bytes_eq (request_octets self.now) (request_octets other.now) }
        ensures same { IsTrue result ↔ (self.now ≡ other.now) }
    {
        self.certification_request_info == other.certification_request_info
            && self.signature_algorithm == other.signature_algorithm
            && self.signature == other.signature
    }
}

impl Eq for CertificationRequest {
    ghost use Rattle.std.specs.Cmp.Lexicographic.{nat_list_eq_equiv};
    ghost use Rattle.std.specs.Cmp.{on_equiv};
    ghost use Rattle.x509_issuing.specs.CertificationRequest.{request_octets};

    ghost laws = { on_equiv (λ value. request_octets value) nat_list_eq_equiv };
}
