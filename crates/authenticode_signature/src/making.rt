//! Making signatures of programs, step by step.

ghost use Rattle.std.specs.Prelude.{◌≡◌, ◌≢◌, ◌∷◌, [], List, ℕ, Err, None, IfOk, IfErr, IsOk, MatchResult};
ghost use Rattle.std.specs.Option.{option_copied};
ghost use Rattle.cms_content.specs.IndirectData.{indirect_data_content};
ghost use Rattle.cms_types.specs.OpusInfo.{opus_info};
ghost use Rattle.cms_types.specs.SignedAttributesElement.{signed_attributes};
ghost use Rattle.der_core.specs.DerElement.{DerElement};
ghost use Rattle.der_core.specs.Encoding.{encoding, IsDer};
ghost use Rattle.der_core.specs.Borrowed.{AreDer};
ghost use Rattle.der_core.specs.Steps.{AreTaken, IsFirstUntaken, RefusesBySteps};
ghost use Rattle.key_core.specs.declared.signature_algorithm.SignatureAlgorithm.TheVariants.{RsaPkcs1v15};
ghost use Rattle.key_core.specs.Signing.{arithmetic};
ghost use Rattle.sig_core.specs.ShaVariant.{hash_of};
ghost use Rattle.sig_core.specs.declared.hash.HashAlgorithm.TheVariants.{SHA2_224};
ghost use Rattle.wincert_core.specs.declared.kinds.CertificateType.{CertificateType};
ghost use Rattle.x509_types.specs.CertificateElements.{CertificateElements};
ghost use Rattle.authenticode_core.specs.declared.error.AuthenticodeError.TheVariants as errors;
ghost use Rattle.authenticode_parts.specs.Carried.{AreCarried, elements_of};
ghost use Rattle.authenticode_parts.specs.MadeContent.{attributes_message, content_digest, data_element, opus_element, program_attributes};
ghost use Rattle.authenticode_parts.specs.MadeSignature.{attributes_element};
ghost use Rattle.authenticode_parts.specs.SignedProgram.{IsBasicName, IsSignature, IsSignedProgram, program_of};
ghost use Rattle.authenticode_signature.specs.Making.{IsMadeOf, hash_step, making_steps, name_step, sealing_step, program_steps, writing_step};
ghost use Rattle.authenticode_signature.specs.MadeFile.{IsMadeSignature, IsMadeWith, IsSpelledWhole, wrapped};
ghost use Rattle.authenticode_signature.specs.MadeProgram.{program_for};
ghost use Rattle.authenticode_signature.specs.Pkcs7.{HasBag, fields_of, written};

pub(crate) mod signer;

use crate::pkcs7::Pkcs7;
use crate::signature::AuthenticodeSignature;
use authenticode_core::AuthenticodeError;
use authenticode_parts::{
    attributes_of, digest_of_content, indirect_of, message_of, opus_of, program_signature,
    signature_of,
};
use cms_types::{SignedAttributes, SpcIndirectDataContent, SpcSpOpusInfo};
use der_core::Octets;
use key_core::PrivateKey;
use sig_core::{HashAlgorithm, Scheme, ShaVariant};
use signer::first_signer;
use std::alloc::Global;
use x509_core::Cert;

/// A program to be signed: the digest algorithm, also as a variant that has an OID, the digest of
/// the file, and what is said about the program.
#[derive(Clone, Copy)]
struct Program<'a> {
    hash: ShaVariant,
    algorithm: HashAlgorithm,
    file_hash: &'a [u8],
    opus: &'a SpcSpOpusInfo,
}

impl AuthenticodeSignature {
    /// The signature of a program by the first certificate of signed data and its private key. It
    /// contains the certificates as they are, without the roots if there are several. The first
    /// error is returned: `ProgramNameCharSet` where a character of the name is past U+FFFF;
    /// `UnsupportedHashAlgorithmError` for SHA-224; `NoCertificates` where there are none;
    /// `NoEKUCodeSigning` where one of the issuer walk of the first has an extended key usage, and
    /// the first doesn't name code signing; `Asn1DerError` where the content or the attributes
    /// can't be written; `SignatureError` where the key doesn't sign.
    pub fn new<S: Scheme>(
        alloc: Global,
        pkcs7: &Pkcs7,
        file_hash: &[u8],
        hash_algo: ShaVariant,
        private_key: &PrivateKey,
        program_name: Option<&str>,
        scheme: &S,
    ) -> Result<AuthenticodeSignature, AuthenticodeError>
        ensures answer { MatchResult result
            (λ s. IsMadeOf
            (arithmetic (S.judge scheme.now) (S.signs scheme.now) (S.pair scheme.now))
            (fields_of pkcs7.now) hash_algo file_hash.now (option_copied program_name.entry)
            private_key.now (fields_of s.0))
            (RefusesBySteps errors.Memory (making_steps (S.signs scheme.now) (fields_of pkcs7.now)
            (option_copied program_name.entry)
            (program_of hash_algo file_hash.now (option_copied program_name.entry))
            private_key.now)) }
        // Its file is a made signature file, by the first certificate of all and others, which it
        // contains.
        ensures file { IfOk result (λ s. (first : CertificateElements)
            (others : List CertificateElements) → HasBag pkcs7.now (first ∷ others)
            → IsMadeWith (S.pair scheme.now) private_key.now first others
            → (certificate_type : CertificateType) (octets : List ℕ) → IsDer (written s.0)
            → IsSpelledWhole octets (wrapped certificate_type (encoding (written s.0)))
            → (carried : List CertificateElements) × AreCarried (first ∷ others) (first ∷ carried)
            × IsMadeSignature (S.judge scheme.now) first carried octets file_hash.now) }
        // A name past U+FFFF, and SHA-224 without a name, are reported, even when memory runs out.
        ensures refused { (IsBasicName (option_copied program_name.entry) → ⊥)
            → result ≡ Err errors.ProgramNameCharSet }
        ensures unsupported { option_copied program_name.entry ≡ None → hash_of hash_algo ≡ SHA2_224
            → result ≡ Err
            (errors.UnsupportedHashAlgorithmError (record { algorithm = SHA2_224 })) }
    {
        let opus = opus_for(alloc, program_name)?;
        let algorithm = algorithm_of(hash_algo)?;
        let program = Program {
            hash: hash_algo,
            algorithm,
            file_hash,
            opus: &opus,
        };
        let bag = pkcs7.decode_certificates(alloc)?;
        let first = first_signer(&bag)?;
        let made = signed(alloc, &bag, first, &program, private_key, scheme)?;
        Ok(AuthenticodeSignature(made))
    }
}

/// The SpcSpOpusInfo of the program.
fn opus_for(alloc: Global, name: Option<&str>) -> Result<SpcSpOpusInfo, AuthenticodeError>
    ensures answer { MatchResult result
        (λ info. (opus_info info ≡ opus_element (option_copied name.entry))
        × IsBasicName (option_copied name.entry))
        (RefusesBySteps errors.Memory (name_step (option_copied name.entry) ∷ [])) }
    ensures refused { (IsBasicName (option_copied name.entry) → ⊥)
        → result ≡ Err errors.ProgramNameCharSet }
    ensures nameless { option_copied name.entry ≡ None → IsOk result }
{
    match opus_of(alloc, name) {
        Ok(opus) => Ok(opus),
        Err(source) => Err(AuthenticodeError::from(source)),
    }
}

/// The digest algorithm, which isn't SHA-224.
fn algorithm_of(hash: ShaVariant) -> Result<HashAlgorithm, AuthenticodeError>
    ensures answer { MatchResult result
        (λ algorithm. (algorithm ≡ hash_of hash) × (hash_of hash ≢ SHA2_224))
        (IsFirstUntaken (hash_step (hash_of hash) ∷ [])) }
    ensures returned { IfErr result
        (λ e. e ≡ errors.UnsupportedHashAlgorithmError (record { algorithm = SHA2_224 })) }
{
    match HashAlgorithm::try_from(hash) {
        Ok(algorithm) => Ok(algorithm),
        Err(source) => Err(AuthenticodeError::UnsupportedHashAlgorithmError(source)),
    }
}

/// What is signed instead of the program, and its digest.
fn content_for(
    alloc: Global,
    program: &Program<'_>,
) -> Result<(SpcIndirectDataContent, Vec<u8>), AuthenticodeError>
    requires { program.now.algorithm ≡ hash_of program.now.hash }
    ensures { MatchResult result
        (λ made. (indirect_data_content made.0
        ≡ data_element program.now.hash program.now.file_hash.now)
        × (made.1.items ≡ content_digest program.now.hash program.now.file_hash.now)
        × IsDer (data_element program.now.hash program.now.file_hash.now))
        (RefusesBySteps errors.Memory
        (writing_step (data_element program.now.hash program.now.file_hash.now ∷ []) ∷ [])) }
{
    let indirect = indirect_of(alloc, program.hash, program.file_hash)?;
    match digest_of_content(alloc, &indirect, program.algorithm) {
        Ok(digest) => Ok((indirect, digest)),
        Err(source) => Err(AuthenticodeError::from(source)),
    }
}

/// The signed attributes.
fn signed_attributes_for(
    alloc: Global,
    opus: &SpcSpOpusInfo,
    digest: &[u8],
) -> Result<SignedAttributes, AuthenticodeError>
    ensures { let attributes = program_attributes (opus_info opus.now) digest.now in
        MatchResult result
        (λ kept. (signed_attributes kept ≡ attributes_element attributes)
        × AreDer (opus_info opus.now ∷ attributes_element attributes ∷ []))
        (RefusesBySteps errors.Memory
        (writing_step (opus_info opus.now ∷ attributes_element attributes ∷ []) ∷ [])) }
{
    match attributes_of(alloc, opus, digest) {
        Ok(attributes) => Ok(attributes),
        Err(source) => Err(AuthenticodeError::from(source)),
    }
}

/// The signature over attributes.
fn sealed<S: Scheme>(
    alloc: Global,
    attributes: &SignedAttributes,
    algorithm: HashAlgorithm,
    private_key: &PrivateKey,
    scheme: &S,
) -> Result<Octets, AuthenticodeError>
    ensures { (members : List DerElement)
        → signed_attributes attributes.now ≡ attributes_element members
        → MatchResult result
        (IsSignature (arithmetic (S.judge scheme.now) (S.signs scheme.now) (S.pair scheme.now))
        (RsaPkcs1v15 algorithm) private_key.now (attributes_message members))
        (RefusesBySteps errors.Memory (sealing_step (S.signs scheme.now) (RsaPkcs1v15 algorithm)
        private_key.now (attributes_message members) ∷ [])) }
{
    let message = message_of(alloc, attributes)?;
    match signature_of(alloc, algorithm, &message, private_key, scheme) {
        Ok(signature) => Ok(signature),
        Err(source) => Err(AuthenticodeError::from(source)),
    }
}

/// The signature of the program by the first of the certificates.
fn signed<S: Scheme>(
    alloc: Global,
    bag: &[Cert],
    first: &Cert,
    program: &Program<'_>,
    private_key: &PrivateKey,
    scheme: &S,
) -> Result<Pkcs7, AuthenticodeError>
    requires { program.now.algorithm ≡ hash_of program.now.hash }
    ensures { let p = program_for program.now in
        MatchResult result
        (λ made. IsSignedProgram
        (arithmetic (S.judge scheme.now) (S.signs scheme.now) (S.pair scheme.now))
        (elements_of bag.now) first.now.elements p private_key.now (fields_of made)
        × AreTaken (program_steps (S.signs scheme.now) p private_key.now))
        (RefusesBySteps errors.Memory (program_steps (S.signs scheme.now) p private_key.now)) }
{
    let (indirect, digest) = content_for(alloc, program)?;
    let attributes = signed_attributes_for(alloc, program.opus, &digest)?;
    let signature = sealed(alloc, &attributes, program.algorithm, private_key, scheme)?;
    let hash = program.hash;
    let made = program_signature(alloc, bag, first, hash, indirect, attributes, signature)?;
    Ok(Pkcs7::from(made))
}
