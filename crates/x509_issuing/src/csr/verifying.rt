//! Verifying requests.

ghost use Rattle.std.specs.Prelude.{◌≡◌, Err, MatchResult};
ghost use Rattle.der_core.specs.Rules.{IsFirstBroken};
ghost use Rattle.key_core.specs.SignatureAlgorithm.{NamesSignature};
ghost use Rattle.key_core.specs.Verifying.{key_rules};
ghost use Rattle.key_core.specs.declared.signature_algorithm.SignatureAlgorithm.{SignatureAlgorithm};
ghost use Rattle.key_core.specs.declared.signature_error.SignatureError.{SignatureError};
ghost use Rattle.x509_issuing.specs.CsrRefusals.{IsUnsigned, unsigned};
ghost use Rattle.x509_issuing.specs.SelfSigned.{IsSelfSigned, RefusesSelfSigned};

use super::{Csr, causes};
use der_core::tag::SEQUENCE;
use der_core::{Elem, three_kids};
use key_core::{SignatureAlgorithm, SignatureError};
use sig_core::Scheme;
use std::alloc::Global;
use x509_core::CsrError;

impl Csr {
    /// Verifies the signature by the request's own key over the raw CertificationRequestInfo (RFC
    /// 2986 4.2), with the algorithm that the request names.
    pub fn verify<S: Scheme>(&self, alloc: Global, scheme: &S) -> Result<(), CsrError>
        ensures answer { MatchResult result
            (λ _. IsSelfSigned (S.judge scheme.now) self.now)
            (IsUnsigned (RefusesSelfSigned (S.judge scheme.now) self.now)) }
        // A key that doesn't fit the algorithm is refused, even when memory runs out.
        ensures refused { (algorithm : SignatureAlgorithm) (e : SignatureError)
            → NamesSignature self.now.request.signature_algorithm algorithm
            → IsFirstBroken
            (key_rules algorithm
            self.now.request.certification_request_info.subject_public_key_info) e
            → result ≡ Err (unsigned e) }
    {
        match self.judged(alloc, scheme) {
            Ok(()) => Ok(()),
            Err(source) => Err(causes::unsigned(source)),
        }
    }

    /// The verdict on the signature.
    fn judged<S: Scheme>(&self, alloc: Global, scheme: &S) -> Result<(), SignatureError>
        ensures answer { MatchResult result
            (λ _. IsSelfSigned (S.judge scheme.now) self.now)
            (RefusesSelfSigned (S.judge scheme.now) self.now) }
        ensures refused { (algorithm : SignatureAlgorithm) (e : SignatureError)
            → NamesSignature self.now.request.signature_algorithm algorithm
            → IsFirstBroken
            (key_rules algorithm
            self.now.request.certification_request_info.subject_public_key_info) e
            → result ≡ Err e }
    {
        let named = &self.signature_algorithm;
        let algorithm = SignatureAlgorithm::from_algorithm_identifier(alloc, named)?;
        let signed = self.info().whole;
        let signature = self.signature.payload_view();
        match algorithm.verify(alloc, &self.public_key, signed, signature, scheme) {
            Ok(()) => Ok(()),
            Err(error) => Err(error),
        }
    }

    /// The CertificationRequestInfo, borrowed.
    fn info(&self) -> Elem<'_>
        ensures { result.is.0 ≡ self.now.info }
    {
        match three_kids(self.kept.elem(), SEQUENCE) {
            Some((info, _, _)) => info,
            None => unreachable!(),
        }
    }
}
