//! The errors of building a certificate, by the step that fails.

ghost use Rattle.std.specs.Prelude.{◌≡◌};
ghost use Rattle.x509_core.specs.Link.{signature_refusal as algorithm_refusal};
ghost use Rattle.x509_core.specs.declared.error.CertError.TheVariants as errors;
ghost use Rattle.x509_issuing.specs.BuildRefusals.{no_half as half_refusal, no_request as request_refusal, no_key_id as key_id_refusal, no_octets as octets_refusal, no_signature as signing_refusal};

use der_core::DerError;
use key_core::{Element, KeyError, KeyIdGenError, SignatureError};
use x509_core::{Arg, CertCause, CertError, CsrError};

/// The argument isn't given.
pub(super) fn missing(arg: Arg) -> CertError
    ensures { result ≡ errors.MissingBuilderArgument arg }
{
    CertError::MissingBuilderArgument { arg }
}

/// The issuer's private key has no public key.
pub(super) fn no_half(source: KeyError) -> CertError
    ensures { result ≡ half_refusal source }
{
    match source {
        KeyError::Memory => CertError::Memory,
        source => CertError::PrivateKeyToPublicKey { source },
    }
}

/// The request isn't accepted.
pub(super) fn no_request(source: CsrError) -> CertError
    ensures { result ≡ request_refusal source }
{
    match source {
        CsrError::Memory => CertError::Memory,
        source => CertError::InvalidCsr { source },
    }
}

/// The key has no key identifier.
pub(super) fn no_key_id(source: KeyIdGenError) -> CertError
    ensures { result ≡ key_id_refusal source }
{
    match source {
        KeyIdGenError::Memory => CertError::Memory,
        source => CertError::CertGeneration {
            source: CertCause::KeyIdGen { source },
        },
    }
}

/// The algorithm has no OID.
pub(super) fn no_algorithm(source: SignatureError) -> CertError
    ensures { result ≡ algorithm_refusal source }
{
    match source {
        SignatureError::Memory => CertError::Memory,
        source => CertError::Signature { source },
    }
}

/// The TBSCertificate can't be written.
pub(super) fn no_octets(source: DerError) -> CertError
    ensures { result ≡ octets_refusal source }
{
    match source {
        DerError::Memory => CertError::Memory,
        source => CertError::CertGeneration {
            source: CertCause::Asn1Serialization {
                element: Element::TbsCertificate,
                source,
            },
        },
    }
}

/// The issuer's key doesn't sign.
pub(super) fn no_signature(source: SignatureError) -> CertError
    ensures { result ≡ signing_refusal source }
{
    match source {
        SignatureError::Memory => CertError::Memory,
        source => CertError::CertGeneration {
            source: CertCause::Signature { source },
        },
    }
}
