//! Generating requests.

ghost use Rattle.std.specs.Prelude.{◌≡◌, ◌⊎◌, [], None, Err, IfOk, MatchResult};
ghost use Rattle.der_core.specs.Encoding.{encoding};
ghost use Rattle.asn1_types.specs.Values.{payload_of, unused_of};
ghost use Rattle.key_types.specs.declared.key_info.SubjectPublicKeyInfo.{SubjectPublicKeyInfo};
ghost use Rattle.key_core.specs.Keys.{container_of, point_beside};
ghost use Rattle.key_core.specs.PublicHalf.{IsMissingHalf};
ghost use Rattle.key_core.specs.SignatureAlgorithm.{IsWrittenAlgorithm, IsUnwritable};
ghost use Rattle.key_core.specs.Signing.{IsKeyPair, arithmetic};
ghost use Rattle.key_core.specs.Verifying.{Accepts};
ghost use Rattle.key_core.specs.declared.error.KeyError.{KeyError};
ghost use Rattle.x509_issuing.specs.RequestInfo.{request_info};
ghost use Rattle.x509_issuing.specs.CsrRefusals.{IsUnsigned, keyless};
ghost use Rattle.x509_issuing.specs.Generated.{HasNoHalf, InfoUnsigned, InfoUnwritten, IsGenerated, IsInfoFor, IsInfoSigned, IsInfoWritten, IsRequestFor, RefusesToGenerate, RefusesToMake};
ghost use Rattle.x509_issuing.specs.SelfSigned.{IsSelfSigned};

use super::{Csr, causes};
use crate::request::CertificationRequest;
use crate::request_info::CertificationRequestInfo;
use asn1_types::BitString;
use der_core::Structure;
use key_core::{Element, PrivateKey, SignatureAlgorithm};
use names_core::DirectoryName;
use sig_core::Scheme;
use std::alloc::Global;
use x509_core::CsrError;
use x509_types::{AlgorithmIdentifier, AttributeList, Name, SubjectPublicKeyInfo};

impl Csr {
    /// A request for this name and the private key's public key, signed by the private key, with an
    /// empty list of attributes. The errors are those of [`Csr::generate_with_attributes`].
    pub fn generate<S: Scheme>(
        alloc: Global,
        subject: DirectoryName,
        private_key: &PrivateKey,
        signature_hash_type: SignatureAlgorithm,
        scheme: &S,
    ) -> Result<Csr, CsrError>
        ensures answer { MatchResult result
            (IsGenerated (S.signs scheme.now) subject private_key.now signature_hash_type [])
            (RefusesToGenerate
            (arithmetic (S.judge scheme.now) (S.signs scheme.now) (S.pair scheme.now)) subject
            private_key.now signature_hash_type []) }
        // A missing public key is reported, even when memory runs out.
        ensures missing { (e : KeyError) → point_beside private_key.now ≡ None
            → IsMissingHalf (container_of private_key.now).private_key e
            → result ≡ Err (keyless e) }
        // It is accepted under a key that pairs with its public key.
        ensures verifies { IfOk result (λ csr. IsKeyPair (S.pair scheme.now) private_key.now
            csr.request.certification_request_info.subject_public_key_info
            → IsSelfSigned (S.judge scheme.now) csr) }
    {
        let attributes = AttributeList::new(alloc);
        Csr::generate_with_attributes(
            alloc,
            subject,
            private_key,
            signature_hash_type,
            attributes,
            scheme,
        )
    }

    /// A request for this name, the private key's public key and these attributes, signed by the
    /// private key (RFC 2986 4.2). The first error is returned: `PrivateKeyToPublicKey` if there is
    /// no public key, `Asn1Serialization` if the CertificationRequestInfo can't be written,
    /// `Signature` if it can't be signed, and then if the algorithm has no OID, `Asn1Serialization`
    /// if the request can't be written.
    pub fn generate_with_attributes<S: Scheme>(
        alloc: Global,
        subject: DirectoryName,
        private_key: &PrivateKey,
        signature_hash_type: SignatureAlgorithm,
        attributes: AttributeList,
        scheme: &S,
    ) -> Result<Csr, CsrError>
        ensures answer { MatchResult result
            (IsGenerated (S.signs scheme.now) subject private_key.now signature_hash_type
            attributes)
            (RefusesToGenerate
            (arithmetic (S.judge scheme.now) (S.signs scheme.now) (S.pair scheme.now)) subject
            private_key.now signature_hash_type attributes) }
        // A missing public key is reported, even when memory runs out.
        ensures missing { (e : KeyError) → point_beside private_key.now ≡ None
            → IsMissingHalf (container_of private_key.now).private_key e
            → result ≡ Err (keyless e) }
        // It is accepted under a key that pairs with its public key.
        ensures verifies { IfOk result (λ csr. IsKeyPair (S.pair scheme.now) private_key.now
            csr.request.certification_request_info.subject_public_key_info
            → IsSelfSigned (S.judge scheme.now) csr) }
    {
        match info_for(alloc, subject, private_key, attributes) {
            Ok(info) => signed(alloc, info, private_key, signature_hash_type, scheme),
            Err(error) => Err(error),
        }
    }
}

/// The CertificationRequestInfo.
fn info_for(
    alloc: Global,
    subject: DirectoryName,
    private_key: &PrivateKey,
    attributes: AttributeList,
) -> Result<CertificationRequestInfo, CsrError>
    ensures answer { MatchResult result (IsInfoFor subject private_key.now attributes)
        (HasNoHalf private_key.now) }
    ensures missing { (e : KeyError) → point_beside private_key.now ≡ None
        → IsMissingHalf (container_of private_key.now).private_key e → result ≡ Err (keyless e) }
{
    match private_key.to_public_key(alloc) {
        Ok(public_key) => Ok(CertificationRequestInfo {
            subject: Name::from(subject),
            subject_public_key_info: SubjectPublicKeyInfo::from(public_key),
            attributes: Some(attributes),
        }),
        Err(source) => Err(causes::keyless(source)),
    }
}

/// The request with this CertificationRequestInfo, signed by the private key.
fn signed<S: Scheme>(
    alloc: Global,
    info: CertificationRequestInfo,
    private_key: &PrivateKey,
    algorithm: SignatureAlgorithm,
    scheme: &S,
) -> Result<Csr, CsrError>
    ensures answer { MatchResult result
        (λ csr. IsRequestFor algorithm info csr
        × IsInfoSigned (S.signs scheme.now) private_key.now algorithm info)
        (RefusesToMake (arithmetic (S.judge scheme.now) (S.signs scheme.now) (S.pair scheme.now))
        private_key.now algorithm info) }
    ensures verifies { IfOk result
        (λ csr. (key : SubjectPublicKeyInfo) → IsKeyPair (S.pair scheme.now) private_key.now key
        → Accepts (S.judge scheme.now) algorithm key (encoding csr.info)
        (payload_of csr.request.signature)) }
{
    let signature = signature_of(alloc, &info, private_key, algorithm, scheme)?;
    let signature_algorithm = identifier_of(alloc, algorithm)?;
    let request = CertificationRequest {
        certification_request_info: info,
        signature_algorithm,
        signature,
    };
    Csr::from_certification_request(alloc, request)
}

/// The signature over the CertificationRequestInfo by the private key.
fn signature_of<S: Scheme>(
    alloc: Global,
    info: &CertificationRequestInfo,
    private_key: &PrivateKey,
    algorithm: SignatureAlgorithm,
    scheme: &S,
) -> Result<BitString, CsrError>
    ensures answer { MatchResult result
        (λ bits. (unused_of bits ≡ 0) × IsInfoWritten info.now
        × IsInfoSigned (S.signs scheme.now) private_key.now algorithm info.now)
        (λ e. InfoUnwritten info.now e
        ⊎ (IsInfoWritten info.now
        × InfoUnsigned (S.signs scheme.now) private_key.now algorithm info.now e)) }
    ensures verifies { IfOk result
        (λ bits. (key : SubjectPublicKeyInfo) → IsKeyPair (S.pair scheme.now) private_key.now key
        → Accepts (S.judge scheme.now) algorithm key (encoding (request_info info.now))
        (payload_of bits)) }
{
    let message = match info.to_der(alloc) {
        Ok(message) => message,
        Err(source) => return Err(causes::unwritten(Element::RequestInfo, source)),
    };
    match algorithm.sign(alloc, &message, private_key, scheme) {
        Ok(signature) => Ok(BitString::with_bytes(alloc, &signature)?),
        Err(source) => Err(causes::unsigned(source)),
    }
}

/// The AlgorithmIdentifier of the signature algorithm.
fn identifier_of(
    alloc: Global,
    algorithm: SignatureAlgorithm,
) -> Result<AlgorithmIdentifier, CsrError>
    ensures { MatchResult result (IsWrittenAlgorithm algorithm)
        (IsUnsigned (IsUnwritable algorithm)) }
{
    match algorithm.to_algorithm_identifier(alloc) {
        Ok(id) => Ok(id),
        Err(source) => Err(causes::unsigned(source)),
    }
}
