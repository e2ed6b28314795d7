//! Signing the TBSCertificate.

ghost use Rattle.std.specs.Prelude.{◌≡◌, ◌⊎◌, IfOk, MatchResult};
ghost use Rattle.der_core.specs.Encoding.{IsDer};
ghost use Rattle.der_core.specs.Borrowed.{AreDer};
ghost use Rattle.der_core.specs.Refusals.{RefusesInner, Wraps};
ghost use Rattle.der_core.specs.Rules.{OrMemory};
ghost use Rattle.der_core.specs.Steps.{RefusesBySteps};
ghost use Rattle.asn1_types.specs.Values.{payload_of, unused_of};
ghost use Rattle.key_types.specs.declared.key_info.SubjectPublicKeyInfo.{SubjectPublicKeyInfo};
ghost use Rattle.key_core.specs.SignatureRules.{RefusesSignatureBy};
ghost use Rattle.key_core.specs.Signing.{IsKeyPair, arithmetic, sign_rules};
ghost use Rattle.key_core.specs.Verifying.{Accepts};
ghost use Rattle.x509_types.specs.TbsCertificate.{tbs_certificate, inner_tbs};
ghost use Rattle.x509_core.specs.declared.error.CertError.TheVariants as errors;
ghost use Rattle.x509_issuing.specs.BuildRefusals.{no_octets as octets_refusal, no_signature as signing_refusal};
ghost use Rattle.x509_issuing.specs.Building.{IsMade, IsTbsSigned, message_of, signing_steps, tbs_written};

use super::refusing::{no_octets, no_signature};
use asn1_types::BitString;
use der_core::Structure;
use key_core::{PrivateKey, SignatureAlgorithm};
use sig_core::Scheme;
use std::alloc::Global;
use x509_core::{Cert, CertError};
use x509_types::{Certificate, TbsCertificate};

/// The certificate with this TBSCertificate, signed by the private key.
pub(super) fn signed<S: Scheme>(
    alloc: Global,
    tbs: TbsCertificate,
    private_key: &PrivateKey,
    algorithm: SignatureAlgorithm,
    scheme: &S,
) -> Result<Cert, CertError>
    ensures { MatchResult result
        (IsMade (arithmetic (S.judge scheme.now) (S.signs scheme.now) (S.pair scheme.now)) algorithm
        private_key.now (λ t. t ≡ tbs))
        (RefusesBySteps errors.Memory (signing_steps
        (arithmetic (S.judge scheme.now) (S.signs scheme.now) (S.pair scheme.now)) algorithm
        private_key.now (λ t. t ≡ tbs))) }
{
    let signature_value = signature_of(alloc, &tbs, private_key, algorithm, scheme)?;
    let signature_algorithm = tbs.signature.try_clone(alloc)?;
    Cert::from_certificate(
        alloc,
        Certificate {
            tbs_certificate: tbs,
            signature_algorithm,
            signature_value,
        },
    )
}

/// The signature over the TBSCertificate.
fn signature_of<S: Scheme>(
    alloc: Global,
    tbs: &TbsCertificate,
    private_key: &PrivateKey,
    algorithm: SignatureAlgorithm,
    scheme: &S,
) -> Result<BitString, CertError>
    ensures answer { MatchResult result
        (λ bits. (unused_of bits ≡ 0) × IsDer (tbs_certificate tbs.now) × AreDer (inner_tbs tbs.now)
        × IsTbsSigned (S.signs scheme.now) algorithm private_key.now tbs.now)
        (OrMemory errors.Memory (λ e. Wraps octets_refusal (RefusesInner (tbs_written tbs.now)) e
        ⊎ (IsDer (tbs_certificate tbs.now) × AreDer (inner_tbs tbs.now)
        × Wraps signing_refusal
        (RefusesSignatureBy (sign_rules (S.signs scheme.now) algorithm private_key.now
        (message_of tbs.now))) e))) }
    ensures accepted { IfOk result (λ bits. (public : SubjectPublicKeyInfo)
        → IsKeyPair (S.pair scheme.now) private_key.now public
        → Accepts (S.judge scheme.now) algorithm public (message_of tbs.now) (payload_of bits)) }
{
    let message = match tbs.to_der(alloc) {
        Ok(message) => message,
        Err(source) => return Err(no_octets(source)),
    };
    match algorithm.sign(alloc, &message, private_key, scheme) {
        Ok(signature) => Ok(BitString::with_bytes(alloc, &signature)?),
        Err(source) => Err(no_signature(source)),
    }
}
