//! Questions about one signature, borrowed.

ghost use Rattle.std.specs.Prelude.{◌≡◌, MatchOption};
ghost use Rattle.cms_types.specs.SignedView.{data_elements};
ghost use Rattle.key_core.specs.SignatureAlgorithm.{NamesSignature};
ghost use Rattle.key_core.specs.declared.signature_algorithm.SignatureAlgorithm.{SignatureAlgorithm};
ghost use Rattle.key_types.specs.declared.algorithm.AlgorithmIdentifier.{AlgorithmIdentifier};
ghost use Rattle.x509_core.specs.Link.{HasAlgorithm};
ghost use Rattle.x509_types.specs.CertificateView.{view_elements};
ghost use Rattle.signature_questions.specs.Asked.{IsOfLink, IsOfSigner};
ghost use Rattle.signature_questions.specs.Borrowed.{asked_option};
ghost use Rattle.signature_questions.specs.Listed.{IsTheOne};

use crate::borrowed_key::asked_of;
use crate::message::Message;
use authenticode_core::{digest_named, first_signer_of, signer_certificate};
use cms_types::SignedView;
use der_core::tag::{OBJECT_IDENTIFIER, SEQUENCE};
use der_core::{Kids, Structure, leaf_at, whole_element};
use key_core::SignatureAlgorithm;
use key_types::AlgorithmIdentifier;
use sig_core::SigAlg;
use x509_types::CertView;

/// Whether this is a signature of the message by the key, as a scheme is asked: the algorithm, the
/// key bytes, the message and the signature.
#[derive(Clone, Copy)]
pub struct Question<'a> {
    pub algorithm: SigAlg,
    pub key: &'a [u8],
    pub message: Message<'a>,
    pub signature: &'a [u8],
}

impl<'a> Question<'a> {
    /// The question about the signature of the first signer of signed data, if there is one.
    pub fn of_signer(signed_data: &SignedView<'a>) -> Option<Question<'a>>
        ensures { IsTheOne (IsOfSigner (data_elements signed_data.now)) (asked_option result) }
    {
        let signer = first_signer_of(signed_data)?;
        let named = signer_certificate(signed_data, &signer)?;
        let hash = digest_named(signer.digest_algorithm())?;
        let algorithm = SignatureAlgorithm::RsaPkcs1v15(hash);
        let (algorithm, key) = asked_of(algorithm, named.certificate.subject_public_key_info())?;
        Some(Question {
            algorithm,
            key,
            message: Message::of_signer(&signer),
            signature: signer.signature(),
        })
    }

    /// The question about the signature of the child under the key of the parent, if that fits the
    /// algorithm of the signature (RFC 5280 6.1.3 (a) (1)).
    pub fn of_link(parent: &CertView<'a>, child: &CertView<'a>) -> Option<Question<'a>>
        ensures { IsTheOne (IsOfLink (view_elements parent.now) (view_elements child.now))
            (asked_option result) }
    {
        let algorithm = algorithm_of(child)?;
        let (algorithm, key) = asked_of(algorithm, parent.subject_public_key_info())?;
        Some(Question {
            algorithm,
            key,
            message: Message::of(child.tbs()),
            signature: child.signature(),
        })
    }
}

/// The signature algorithm of a certificate, the one beside what is signed (RFC 5280 4.1.1.2).
fn algorithm_of(certificate: &CertView<'_>) -> Option<SignatureAlgorithm>
    ensures { MatchOption result
        ((id : AlgorithmIdentifier) (algorithm : SignatureAlgorithm)
        → HasAlgorithm (view_elements certificate.now) id → NamesSignature id algorithm → ⊥)
        (λ algorithm. (id : AlgorithmIdentifier)
        × HasAlgorithm (view_elements certificate.now) id × NamesSignature id algorithm) }
{
    let elem = whole_element(certificate.algorithm())?;
    if !AlgorithmIdentifier::has_shape(elem) {
        return None;
    }
    let mut kids = Kids::of(elem, SEQUENCE)?;
    let oid = leaf_at(kids.next()?, OBJECT_IDENTIFIER)?;
    Some(SignatureAlgorithm::named(oid)?)
}
