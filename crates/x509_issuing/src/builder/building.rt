//! Building the certificate, step by step.

ghost use Rattle.std.specs.Prelude.{◌≡◌, List, [], ◌∷◌, Some, None, Err, IfOk, MatchResult};
ghost use Rattle.asn1_types.specs.Integer.{IsUnsignedInteger};
ghost use Rattle.asn1_types.specs.Values.{integer_contents};
ghost use Rattle.asn1_types.specs.declared.oids.TheConstants.{CE_BASIC_CONSTRAINTS};
ghost use Rattle.key_core.specs.SignatureAlgorithm.{IsWrittenAlgorithm, IsUnwritable};
ghost use Rattle.x509_types.specs.FirstOfValue.{extensions_in};
ghost use Rattle.x509_types.specs.declared.certificate.version.Version.TheVariants as versions;
ghost use Rattle.key_core.specs.Signing.{IsKeyPair, arithmetic};
ghost use Rattle.key_core.specs.Keys.{info_of};
ghost use Rattle.names_core.specs.Names.{sets_of};
ghost use Rattle.x509_core.specs.Distinct.{AreDistinct};
ghost use Rattle.x509_core.specs.FirstValue.{HasFirst};
ghost use Rattle.x509_core.specs.History.{IssuingStep};
ghost use Rattle.x509_core.specs.Issued.{IsNext};
ghost use Rattle.x509_core.specs.OwnedCertificate.{KeptCertificate};
ghost use Rattle.x509_core.specs.Link.{IsSignedBy, signature_refusal as algorithm_refusal};
ghost use Rattle.x509_core.specs.declared.error.CertError.{CertError};
ghost use Rattle.x509_core.specs.declared.error.CertError.TheVariants as errors;
ghost use Rattle.x509_issuing.specs.declared.builder.IssuerInfos.{IssuerInfos};
ghost use Rattle.der_core.specs.Refusals.{Wraps};
ghost use Rattle.der_core.specs.Steps.{IsFirstUntaken, RefusesBySteps};
ghost use Rattle.x509_issuing.specs.BuiltCertificate.{IsBuiltBy, IsIdentified, IsTbsBy, IsValidityOf, serial_of};
ghost use Rattle.x509_issuing.specs.Building.{IsBuilt, algorithm_step, argument_steps, build_steps, given_steps};
ghost use Rattle.x509_issuing.specs.MadeExtensions.{constraints_of};
ghost use Rattle.x509_issuing.specs.TakenStep.{TakesStep};

use super::refusing::{missing, no_algorithm};
use super::signing::signed;
use super::subject::Subject;
use super::{CertificateBuilder, IssuerInfos};
use asn1_types::IntegerAsn1;
use key_core::{AlgorithmIdentifier, SignatureAlgorithm};
use names_core::{DirectoryName, UtcDate};
use sig_core::Scheme;
use std::alloc::{AllocError, Global};
use x509_core::{Arg, Cert, CertError};
use x509_types::{Extensions, Name, SubjectPublicKeyInfo, TbsCertificate, Time, Validity, Version};

/// The issuer's fields of a certificate.
#[derive(Drop)]
struct IssuedBy {
    serial_number: IntegerAsn1,
    signature: AlgorithmIdentifier,
    name: DirectoryName,
}

impl<'a> CertificateBuilder<'a> {
    /// Builds the certificate; `word` is a random word, the serial number if none is given. The
    /// first error is returned: `MissingBuilderArgument` where the first second, the last, or the
    /// issuer isn't given; `PrivateKeyToPublicKey` where the issuer is the subject and its key has
    /// no public key; where it isn't, `MissingBuilderArgument` where the authority key identifier,
    /// or the subject, isn't given, and `InvalidCsr` where the subject's request isn't signed by
    /// its own key; `CertGeneration` with `KeyIdGen` where the subject's key has no key identifier;
    /// `Signature` where the algorithm has no OID; `CertGeneration` with `Asn1Serialization` where
    /// the TBSCertificate can't be written, and with `Signature` where it isn't signed;
    /// `Asn1Serialization` where the certificate can't be written.
    pub fn build<S: Scheme>(self, alloc: Global, word: u32, scheme: &S) -> Result<Cert, CertError>
        ensures answer { MatchResult result
            (IsBuilt (arithmetic (S.judge scheme.now) (S.signs scheme.now) (S.pair scheme.now))
            self.entry word)
            (RefusesBySteps errors.Memory (build_steps
            (arithmetic (S.judge scheme.now) (S.signs scheme.now) (S.pair scheme.now))
            self.entry word)) }
        // A missing argument is reported, even when memory runs out.
        ensures refused { (e : CertError) → IsFirstUntaken (argument_steps self.entry) e
            → result ≡ Err e }
        // Its signature is one by each certificate whose key pairs with the issuer's.
        ensures linked { IfOk result (λ cert. (issuer : IssuerInfos) (parent : KeptCertificate)
            → self.entry.issuer_infos ≡ Some issuer
            → IsKeyPair (S.pair scheme.now) issuer.key.now
            parent.certificate.tbs_certificate.subject_public_key_info
            → IsSignedBy (S.judge scheme.now) parent.elements cert.elements) }
        // No two extensions have one OID, whatever a request asks for.
        ensures distinct { IfOk result
            (λ cert. AreDistinct (extensions_in cert.certificate.tbs_certificate.extensions)) }
        // The CA flag and the path length are the builder's, whatever a request asks for.
        ensures constrained { IfOk result (λ cert. HasFirst CE_BASIC_CONSTRAINTS.now
            (extensions_in cert.certificate.tbs_certificate.extensions)
            (constraints_of self.entry)) }
        // The first key identifiers are those of the keys, whatever a request asks for.
        ensures identified { IfOk result
            (λ cert. IsIdentified self.entry cert.certificate.tbs_certificate) }
        // It is the next certificate of each issuing history whose step the builder takes.
        ensures next { IfOk result (λ cert. (certificates : List KeptCertificate)
            (step : IssuingStep) → TakesStep (S.pair scheme.now) self.entry certificates step
            → IsNext (S.judge scheme.now) certificates step cert) }
    {
        self.built(alloc, word, scheme)
    }

    /// The certificate.
    fn built<S: Scheme>(&self, alloc: Global, word: u32, scheme: &S) -> Result<Cert, CertError>
        ensures answer { MatchResult result
            (IsBuilt (arithmetic (S.judge scheme.now) (S.signs scheme.now) (S.pair scheme.now))
            self.now word)
            (RefusesBySteps errors.Memory (build_steps
            (arithmetic (S.judge scheme.now) (S.signs scheme.now) (S.pair scheme.now))
            self.now word)) }
        ensures refused { (e : CertError) → IsFirstUntaken (argument_steps self.now) e
            → result ≡ Err e }
    {
        let (valid_from, valid_to, issuer) = self.given()?;
        let subject = self.identified(alloc, issuer, scheme)?;
        let validity = Validity {
            not_before: Time::from(valid_from),
            not_after: Time::from(valid_to),
        };
        let tbs = self.tbs(alloc, word, validity, issuer, subject)?;
        signed(alloc, tbs, issuer.key, self.signature_hash_type, scheme)
    }

    /// The first second, the last, and the issuer.
    fn given(&self) -> Result<(UtcDate, UtcDate, &IssuerInfos<'a>), CertError>
        ensures { MatchResult result
            (λ given. (self.now.valid_from ≡ Some given.0) × (self.now.valid_to ≡ Some given.1)
            × (self.now.issuer_infos ≡ Some given.2.now))
            (IsFirstUntaken (given_steps self.now)) }
    {
        let Some(valid_from) = self.valid_from else {
            return Err(missing(Arg::ValidFrom));
        };
        let Some(valid_to) = self.valid_to else {
            return Err(missing(Arg::ValidTo));
        };
        match &self.issuer_infos {
            Some(issuer) => Ok((valid_from, valid_to, issuer)),
            None => Err(missing(Arg::IssuerInfos)),
        }
    }

    /// The TBSCertificate.
    fn tbs(
        &self,
        alloc: Global,
        word: u32,
        validity: Validity,
        issuer: &IssuerInfos<'_>,
        subject: Subject,
    ) -> Result<TbsCertificate, CertError>
        ensures { MatchResult result
            (λ tbs. IsTbsBy self.now issuer.now word subject.own.items tbs
            × (tbs.validity ≡ validity) × (tbs.subject ≡ sets_of subject.name)
            × (tbs.subject_public_key_info ≡ info_of subject.key))
            (RefusesBySteps errors.Memory (algorithm_step self.now ∷ [])) }
    {
        let by = self.issued_by(alloc, word, issuer)?;
        let extensions = self.extensions(alloc, issuer, &subject.own)?;
        Ok(joined(by, validity, subject, extensions))
    }

    /// The issuer's fields.
    fn issued_by(
        &self,
        alloc: Global,
        word: u32,
        issuer: &IssuerInfos<'_>,
    ) -> Result<IssuedBy, CertError>
        ensures { MatchResult result
            (λ by. IsBuiltBy self.now issuer.now word by.serial_number by.signature
            (sets_of by.name))
            (RefusesBySteps errors.Memory (algorithm_step self.now ∷ [])) }
    {
        let signature = identifier_of(alloc, self.signature_hash_type)?;
        let serial_number = self.serial(alloc, word)?;
        let name = issuer.name.try_clone(alloc)?;
        Ok(IssuedBy {
            serial_number,
            signature,
            name,
        })
    }

    /// The serial number: the given one, or the random word, 1 for 0.
    fn serial(&self, alloc: Global, word: u32) -> Result<IntegerAsn1, AllocError>
        ensures { IfOk result (λ serial. IsUnsignedInteger (serial_of self.now.serial_number word)
            (integer_contents serial)) }
    {
        match &self.serial_number {
            Some(octets) => IntegerAsn1::from_bytes_be_unsigned(alloc, octets.as_slice()),
            None => number(alloc, if word == 0 { 1 } else { word }),
        }
    }
}

/// The integer of a number.
fn number(alloc: Global, number: u32) -> Result<IntegerAsn1, AllocError>
    ensures { IfOk result (λ integer. IsUnsignedInteger number (integer_contents integer)) }
{
    IntegerAsn1::from_bytes_be_unsigned(alloc, &number.to_be_bytes())
}

/// The AlgorithmIdentifier of the signature algorithm.
fn identifier_of(
    alloc: Global,
    algorithm: SignatureAlgorithm,
) -> Result<AlgorithmIdentifier, CertError>
    ensures { MatchResult result (IsWrittenAlgorithm algorithm)
        (Wraps algorithm_refusal (IsUnwritable algorithm)) }
{
    match algorithm.to_algorithm_identifier(alloc) {
        Ok(id) => Ok(id),
        Err(source) => Err(no_algorithm(source)),
    }
}

/// The TBSCertificate from its parts.
fn joined(
    by: IssuedBy,
    validity: Validity,
    subject: Subject,
    extensions: Extensions,
) -> TbsCertificate
    ensures { result ≡ record {
      version = Some versions.V3;
      serial_number = by.serial_number;
      signature = by.signature;
      issuer = sets_of by.name;
      validity = validity;
      subject = sets_of subject.name;
      subject_public_key_info = info_of subject.key;
      issuer_unique_id = None;
      subject_unique_id = None;
      extensions = Some extensions;
    } }
{
    TbsCertificate {
        version: Some(Version::V3),
        serial_number: by.serial_number,
        signature: by.signature,
        issuer: Name::from(by.name),
        validity,
        subject: Name::from(subject.name),
        subject_public_key_info: SubjectPublicKeyInfo::from(subject.key),
        issuer_unique_id: None,
        subject_unique_id: None,
        extensions: Some(extensions),
    }
}
