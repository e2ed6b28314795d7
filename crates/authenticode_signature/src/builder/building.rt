//! Building the signature, step by step.

ghost use Rattle.std.specs.Prelude.{◌≡◌, ◌∷◌, [], List, Some, Err, IfOk, MatchResult, map};
ghost use Rattle.std.specs.Option.{option_map};
ghost use Rattle.cms_content.specs.ContentInfo.{content_info};
ghost use Rattle.cms_types.specs.SignedAttributesElement.{signed_attributes};
ghost use Rattle.cms_types.specs.UnsignedAttribute.{unsigned_attribute};
ghost use Rattle.der_core.specs.DerElement.{DerElement};
ghost use Rattle.der_core.specs.Each.{list_element};
ghost use Rattle.der_core.specs.Encoding.{encoding};
ghost use Rattle.der_core.specs.Borrowed.{AreDer};
ghost use Rattle.der_core.specs.Steps.{AreTaken, IsFirstUntaken, RefusesBySteps};
ghost use Rattle.key_core.specs.Signing.{arithmetic};
ghost use Rattle.key_core.specs.declared.signature_algorithm.SignatureAlgorithm.TheVariants.{RsaPkcs1v15};
ghost use Rattle.sig_core.specs.ShaVariant.{hash_of};
ghost use Rattle.x509_types.specs.Attribute.{attribute};
ghost use Rattle.x509_types.specs.CertificateElements.{CertificateElements};
ghost use Rattle.authenticode_parts.specs.Carried.{AreWithoutRoots};
ghost use Rattle.authenticode_parts.specs.MadeSignature.{attributes_element, signature_made};
ghost use Rattle.authenticode_parts.specs.SignedProgram.{IsSignature};
ghost use Rattle.authenticode_signature.specs.BuilderParts.{given_of};
ghost use Rattle.authenticode_signature.specs.Building.{HasGiven, IsBuiltSignature, IsBuiltOf, IsNamedFirst, IsSigner, attributes_by, attributes_in, building_steps, content_by, element_step, part_step, part_steps, key_step, message_in, named_step, parts_by, purpose_step, steps_of, supported_step, unsigned_in};
ghost use Rattle.authenticode_signature.specs.Pkcs7.{fields_of};
ghost use Rattle.authenticode_signature.specs.declared.builder_error.AuthenticodeSignatureBuilderError.{AuthenticodeSignatureBuilderError};
ghost use Rattle.authenticode_signature.specs.declared.builder_error.AuthenticodeSignatureBuilderError.TheVariants as errors;

use super::AuthenticodeSignatureBuilder;
use crate::builder_error::AuthenticodeSignatureBuilderError;
use crate::making::signer::may_sign_code;
use crate::pkcs7::Pkcs7;
use crate::signature::AuthenticodeSignature;
use crate::signing_certificate::{first_named, none_named};
use authenticode_core::AuthenticodeError;
use authenticode_parts::{
    digests_of, framed, keep_attributes, message_of, signature_of, signer_info_of, signers_of,
    without_roots,
};
use cms_types::{
    EncapsulatedContentInfo, IssuerAndSerialNumber, SignedAttributes, SignerIdentifier,
    UnsignedAttributeList,
};
use der_core::{ListOf, Octets, Structure};
use key_core::PrivateKey;
use sig_core::{HashAlgorithm, Scheme, ShaVariant};
use std::alloc::{AllocError, Global};
use x509_core::Cert;
use x509_types::AttributeList;

/// The required arguments that are given, borrowed; the digest algorithm as a variant, too.
#[derive(Clone, Copy)]
struct Parts<'b> {
    hash: ShaVariant,
    algorithm: HashAlgorithm,
    content: &'b EncapsulatedContentInfo,
    key: &'b PrivateKey,
    named: &'b IssuerAndSerialNumber,
    certificates: &'b [Cert],
}

impl AuthenticodeSignatureBuilder<'_> {
    /// Builds the signature. It contains the certificates as they are, without the roots. The first
    /// error is returned: `MissingDigestAlgorithm`; `UnsupportedHashAlgorithmError` for SHA-224;
    /// `MissingContentInfo`; `MissingSigningKey`; `MissingIssuerAndSerialNumber`;
    /// `MissingCertificatesRequired`, each where it isn't given;
    /// `NoCertificatesAssociatedWithIssuerAndSerialNumber` where no certificate has that issuer and
    /// serial number; `NoEKUCodeSigning` where one of the issuer walk of the first that has them
    /// has an extended key usage, and that first doesn't name code signing; `Asn1DerError` where
    /// the content or the attributes can't be written; `SignatureError` where the key doesn't sign.
    pub fn build<S: Scheme>(
        self,
        alloc: Global,
        scheme: &S,
    ) -> Result<AuthenticodeSignature, AuthenticodeSignatureBuilderError>
        ensures answer { MatchResult result
            (λ s. IsBuiltSignature
            (arithmetic (S.judge scheme.now) (S.signs scheme.now) (S.pair scheme.now))
            self.entry (fields_of s.0))
            (RefusesBySteps errors.Memory (building_steps (S.signs scheme.now) self.entry)) }
        // A missing argument, and SHA-224, is reported, even when memory runs out.
        ensures refused { (e : AuthenticodeSignatureBuilderError)
            → IsFirstUntaken (part_steps self.entry) e → result ≡ Err e }
    {
        self.signature(alloc, scheme)
    }

    /// The signature that the builder describes.
    fn signature<S: Scheme>(
        &self,
        alloc: Global,
        scheme: &S,
    ) -> Result<AuthenticodeSignature, AuthenticodeSignatureBuilderError>
        ensures answer { MatchResult result
            (λ s. IsBuiltSignature
            (arithmetic (S.judge scheme.now) (S.signs scheme.now) (S.pair scheme.now)) self.now
            (fields_of s.0))
            (RefusesBySteps errors.Memory (building_steps (S.signs scheme.now) self.now)) }
        ensures refused { (e : AuthenticodeSignatureBuilderError)
            → IsFirstUntaken (part_steps self.now) e → result ≡ Err e }
    {
        let given = self.given()?;
        let built = self.built(alloc, &given, scheme)?;
        Ok(AuthenticodeSignature(built))
    }

    /// The required arguments.
    fn given(&self) -> Result<Parts<'_>, AuthenticodeSignatureBuilderError>
        ensures { MatchResult result
            (λ parts. HasGiven self.now (given_of parts) × AreTaken (part_steps self.now)
            × (hash_of parts.hash ≡ parts.algorithm))
            (IsFirstUntaken (part_steps self.now)) }
    {
        let (hash, algorithm) = self.supported()?;
        let Some(content) = &self.content_info else {
            return Err(AuthenticodeSignatureBuilderError::MissingContentInfo);
        };
        let Some(key) = self.signing_key else {
            return Err(AuthenticodeSignatureBuilderError::MissingSigningKey);
        };
        let Some(named) = &self.named else {
            return Err(AuthenticodeSignatureBuilderError::MissingIssuerAndSerialNumber);
        };
        let Some(certificates) = &self.certs else {
            return Err(AuthenticodeSignatureBuilderError::MissingCertificatesRequired);
        };
        Ok(Parts {
            hash,
            algorithm,
            content,
            key,
            named,
            certificates,
        })
    }

    /// The digest algorithm, which isn't SHA-224, with its variant.
    fn supported(&self) -> Result<(ShaVariant, HashAlgorithm), AuthenticodeSignatureBuilderError>
        ensures { let steps = part_step errors.MissingDigestAlgorithm self.now.digest_algorithm ∷
            supported_step self.now.digest_algorithm ∷ [] in
            MatchResult result
            (λ known. (self.now.digest_algorithm ≡ Some known.1) × (hash_of known.0 ≡ known.1)
            × AreTaken steps)
            (IsFirstUntaken steps) }
    {
        let Some(algorithm) = self.digest_algorithm else {
            return Err(AuthenticodeSignatureBuilderError::MissingDigestAlgorithm);
        };
        match ShaVariant::try_from(algorithm) {
            Ok(hash) => Ok((hash, algorithm)),
            Err(source) => Err(AuthenticodeSignatureBuilderError::AuthenticodeError(
                AuthenticodeError::UnsupportedHashAlgorithmError(source),
            )),
        }
    }

    /// The signature with the given arguments.
    fn built<S: Scheme>(
        &self,
        alloc: Global,
        given: &Parts<'_>,
        scheme: &S,
    ) -> Result<Pkcs7, AuthenticodeSignatureBuilderError>
        requires { hash_of given.now.hash ≡ given.now.algorithm }
        ensures { let g = given_of given.now in
            MatchResult result
            (λ built. IsBuiltOf
            (arithmetic (S.judge scheme.now) (S.signs scheme.now) (S.pair scheme.now)) self.now
            g (fields_of built)
            × AreTaken (steps_of (S.signs scheme.now) self.now g))
            (RefusesBySteps errors.Memory (steps_of (S.signs scheme.now) self.now g)) }
    {
        expect_signer(alloc, given)?;
        let content = written_content(alloc, given)?;
        let attributes = attributes_for(alloc, &self.authenticated_attributes)?;
        let signature = self.sealed(alloc, given, content, &attributes, scheme)?;
        let built = self.joined(alloc, given, attributes, signature)?;
        Ok(built)
    }

    /// The signature over the message.
    fn sealed<S: Scheme>(
        &self,
        alloc: Global,
        given: &Parts<'_>,
        content: Vec<u8>,
        attributes: &SignedAttributes,
        scheme: &S,
    ) -> Result<Octets, AuthenticodeSignatureBuilderError>
        ensures { (members : List DerElement)
            → signed_attributes attributes.now ≡ attributes_element members
            → MatchResult result
            (IsSignature
            (arithmetic (S.judge scheme.now) (S.signs scheme.now) (S.pair scheme.now))
            (RsaPkcs1v15 given.now.algorithm) given.now.key.now
            (message_in self.now.authenticated_attributes content.items members))
            (RefusesBySteps errors.Memory
            (key_step (S.signs scheme.now) (RsaPkcs1v15 given.now.algorithm) given.now.key.now
            (message_in self.now.authenticated_attributes content.items members) ∷ [])) }
    {
        let message = self.message(alloc, content, attributes)?;
        match signature_of(alloc, given.algorithm, &message, given.key, scheme) {
            Ok(signature) => Ok(signature),
            Err(source) => Err(AuthenticodeSignatureBuilderError::from(AuthenticodeError::from(
                source,
            ))),
        }
    }

    /// The octets that are signed: of the attributes if they are given, else of the content.
    fn message(
        &self,
        alloc: Global,
        content: Vec<u8>,
        attributes: &SignedAttributes,
    ) -> Result<Vec<u8>, AllocError>
        ensures { (members : List DerElement)
            → signed_attributes attributes.now ≡ attributes_element members
            → IfOk result (λ octets. octets.items ≡ message_in self.now.authenticated_attributes
            content.items members) }
    {
        match &self.authenticated_attributes {
            Some(_) => message_of(alloc, attributes),
            None => Ok(content),
        }
    }

    /// The signature from its parts.
    fn joined(
        &self,
        alloc: Global,
        given: &Parts<'_>,
        attributes: SignedAttributes,
        signature: Octets,
    ) -> Result<Pkcs7, AllocError>
        ensures { let g = given_of given.now in
            IfOk result
            (λ built. (carried : List CertificateElements) × AreWithoutRoots g.bag carried
            × (fields_of built ≡ signature_made (record (parts_by self.now g carried signature)
            { attributes = signed_attributes attributes }))) }
    {
        let sid = SignerIdentifier::IssuerAndSerialNumber(given.named.try_clone(alloc)?);
        let unsigned = self.unsigned(alloc)?;
        let signer = signer_info_of(alloc, sid, given.hash, attributes, signature, unsigned)?;
        let signers = signers_of(alloc, signer)?;
        let digests = digests_of(alloc, given.hash)?;
        let certificates = without_roots(alloc, given.certificates)?;
        let content = given.content.try_clone(alloc)?;
        let made = framed(alloc, digests, content, certificates, signers);
        Ok(Pkcs7::from(made))
    }

    /// The unsigned attributes, None if there are none.
    fn unsigned(&self, alloc: Global) -> Result<Option<UnsignedAttributeList>, AllocError>
        ensures { IfOk result
            (λ attributes. option_map (list_element 0xA1 unsigned_attribute) attributes
            ≡ unsigned_in self.now.unsigned_attributes) }
    {
        match &self.unsigned_attributes {
            Some(attributes) if !attributes.is_empty() => Ok(Some(attributes.try_clone(alloc)?)),
            _ => Ok(None),
        }
    }
}

/// The first certificate with the given issuer and serial number.
fn named_signer<'b>(
    alloc: Global,
    given: &Parts<'b>,
) -> Result<&'b Cert, AuthenticodeSignatureBuilderError>
    ensures { let g = given_of given.now in MatchResult result
        (λ c. IsNamedFirst g c.now.elements)
        (RefusesBySteps errors.Memory (named_step g ∷ [])) }
{
    let Some(signer) = first_named(alloc, given.certificates, given.named)? else {
        let error = none_named(alloc, given.named)?;
        return Err(AuthenticodeSignatureBuilderError::from(error));
    };
    Ok(signer)
}

/// Checks that one of the certificates has the given issuer and serial number, and that the first
/// that has them may sign code.
fn expect_signer(alloc: Global, given: &Parts<'_>) -> Result<(), AuthenticodeSignatureBuilderError>
    ensures { let g = given_of given.now in MatchResult result
        (λ _. (c : CertificateElements) × IsSigner g c)
        (RefusesBySteps errors.Memory (named_step g ∷ purpose_step g ∷ [])) }
{
    let signer = named_signer(alloc, given)?;
    if may_sign_code(signer, given.certificates) {
        Ok(())
    } else {
        Err(AuthenticodeSignatureBuilderError::AuthenticodeError(
            AuthenticodeError::NoEKUCodeSigning,
        ))
    }
}

/// The encoding of the content with its type.
fn written_content(
    alloc: Global,
    given: &Parts<'_>,
) -> Result<Vec<u8>, AuthenticodeSignatureBuilderError>
    ensures { let g = given_of given.now in MatchResult result
        (λ octets. (octets.items ≡ encoding (content_info g.content)) × AreDer (content_by g))
        (RefusesBySteps errors.Memory (element_step (content_by g) ∷ [])) }
{
    match given.content.to_der(alloc) {
        Ok(octets) => Ok(octets),
        Err(source) => Err(AuthenticodeSignatureBuilderError::from(source)),
    }
}

/// The signed attributes, empty if they aren't given.
fn attributes_for(
    alloc: Global,
    given: &Option<AttributeList>,
) -> Result<SignedAttributes, AuthenticodeSignatureBuilderError>
    ensures { let list = attributes_in given.now in
        MatchResult result
        (λ kept. (signed_attributes kept ≡ attributes_element (map attribute list))
        × AreDer (attributes_by list))
        (RefusesBySteps errors.Memory (element_step (attributes_by list) ∷ [])) }
{
    match given {
        Some(list) => kept_attributes(alloc, list),
        None => no_attributes(alloc),
    }
}

/// No attributes.
fn no_attributes(alloc: Global) -> Result<SignedAttributes, AuthenticodeSignatureBuilderError>
    ensures { MatchResult result
        (λ kept. (signed_attributes kept ≡ attributes_element []) × AreDer (attributes_by []))
        (RefusesBySteps errors.Memory (element_step (attributes_by []) ∷ [])) }
{
    let none = ListOf::new(alloc);
    kept_attributes(alloc, &none)
}

/// Signed attributes in the form of a signer.
fn kept_attributes(
    alloc: Global,
    list: &AttributeList,
) -> Result<SignedAttributes, AuthenticodeSignatureBuilderError>
    ensures { MatchResult result
        (λ kept. (signed_attributes kept ≡ attributes_element (map attribute list.now))
        × AreDer (attributes_by list.now))
        (RefusesBySteps errors.Memory (element_step (attributes_by list.now) ∷ [])) }
{
    match keep_attributes(alloc, list) {
        Ok(kept) => Ok(kept),
        Err(source) => Err(AuthenticodeSignatureBuilderError::from(source)),
    }
}
