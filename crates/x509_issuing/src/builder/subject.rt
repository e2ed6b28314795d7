//! The subject of the certificate.

ghost use Rattle.std.specs.Prelude.{◌≡◌, [], ◌∷◌, ◌++◌, false, Err, IfOk, IsSome, MatchResult};
ghost use Rattle.key_core.specs.Keys.{info_of};
ghost use Rattle.names_core.specs.Names.{sets_of};
ghost use Rattle.der_core.specs.Refusals.{Wraps};
ghost use Rattle.der_core.specs.Rules.{OrMemory};
ghost use Rattle.der_core.specs.Steps.{IsFirstUntaken, RefusesBySteps};
ghost use Rattle.x509_core.specs.declared.error.CertError.{CertError};
ghost use Rattle.x509_core.specs.declared.error.CertError.TheVariants as errors;
ghost use Rattle.x509_issuing.specs.BuildRefusals.{no_request as request_refusal};
ghost use Rattle.x509_issuing.specs.BuiltCertificate.{IsGivenSubject, IsHalfOf, IsBuiltFor, IsSubject};
ghost use Rattle.x509_issuing.specs.Building.{half_step, identifier_step, other_steps, subject_arguments, subject_steps};
ghost use Rattle.x509_issuing.specs.CsrRefusals.{IsUnsigned};
ghost use Rattle.x509_issuing.specs.SelfSigned.{IsSelfSigned, RefusesSelfSigned};

use super::refusing::{missing, no_half, no_key_id, no_request};
use super::{CertificateBuilder, IssuerInfos, SubjectInfos};
use crate::csr::Csr;
use key_core::PublicKey;
use names_core::DirectoryName;
use sig_core::Scheme;
use std::alloc::{AllocError, Global};
use x509_core::{Arg, CertError};

/// The subject: a name, a key, and its key identifier.
#[derive(Drop)]
pub(super) struct Subject {
    pub(super) name: DirectoryName,
    pub(super) key: PublicKey,
    pub(super) own: Vec<u8>,
}

impl CertificateBuilder<'_> {
    /// The subject with its key identifier.
    pub(super) fn identified<S: Scheme>(
        &self,
        alloc: Global,
        issuer: &IssuerInfos<'_>,
        scheme: &S,
    ) -> Result<Subject, CertError>
        ensures answer { MatchResult result
            (λ subject. IsBuiltFor (S.judge scheme.now) self.now issuer.now subject.own.items
            (sets_of subject.name) (info_of subject.key))
            (RefusesBySteps errors.Memory
            (subject_steps (S.judge scheme.now) issuer.now.self_signed self.now issuer.now
            ++ identifier_step (S.judge scheme.now) self.now issuer.now ∷ [])) }
        ensures refused { (e : CertError)
            → IsFirstUntaken (subject_arguments issuer.now.self_signed self.now) e
            → result ≡ Err e }
    {
        let (name, key) = self.subject_of(alloc, issuer, scheme)?;
        match self.key_id_gen_method.generate_from(alloc, &key) {
            Ok(own) => Ok(Subject { name, key, own }),
            Err(source) => Err(no_key_id(source)),
        }
    }

    /// The subject's name and key.
    fn subject_of<S: Scheme>(
        &self,
        alloc: Global,
        issuer: &IssuerInfos<'_>,
        scheme: &S,
    ) -> Result<(DirectoryName, PublicKey), CertError>
        ensures answer { MatchResult result
            (λ subject. IsSubject (S.judge scheme.now) self.now issuer.now (sets_of subject.0)
            (info_of subject.1))
            (RefusesBySteps errors.Memory
            (subject_steps (S.judge scheme.now) issuer.now.self_signed self.now issuer.now)) }
        ensures refused { (e : CertError)
            → IsFirstUntaken (subject_arguments issuer.now.self_signed self.now) e
            → result ≡ Err e }
    {
        if issuer.self_signed {
            own_subject(alloc, issuer)
        } else {
            self.other_subject(alloc, scheme)
        }
    }

    /// The name and key of a subject that isn't the issuer.
    fn other_subject<S: Scheme>(
        &self,
        alloc: Global,
        scheme: &S,
    ) -> Result<(DirectoryName, PublicKey), CertError>
        ensures answer { MatchResult result
            (λ subject. IsSome self.now.authority_key_identifier
            × IsGivenSubject (S.judge scheme.now) self.now.subject_infos (sets_of subject.0)
            (info_of subject.1))
            (RefusesBySteps errors.Memory (other_steps (S.judge scheme.now) self.now)) }
        ensures refused { (e : CertError) → IsFirstUntaken (subject_arguments false self.now) e
            → result ≡ Err e }
    {
        if self.authority_key_identifier.is_none() {
            return Err(missing(Arg::AuthorityKeyIdentifier));
        }
        match &self.subject_infos {
            Some(SubjectInfos::Named(name, key)) => Ok(copied(alloc, name, key)?),
            Some(SubjectInfos::Request(csr)) => requested(alloc, csr, scheme),
            None => Err(missing(Arg::SubjectInfos)),
        }
    }
}

/// The issuer's name and public key.
fn own_subject(
    alloc: Global,
    issuer: &IssuerInfos<'_>,
) -> Result<(DirectoryName, PublicKey), CertError>
    ensures { MatchResult result
        (λ subject. (sets_of subject.0 ≡ sets_of issuer.now.name)
        × IsHalfOf issuer.now.key.now (info_of subject.1))
        (RefusesBySteps errors.Memory (half_step issuer.now.key.now ∷ [])) }
{
    let name = issuer.name.try_clone(alloc)?;
    match issuer.key.to_public_key(alloc) {
        Ok(key) => Ok((name, key)),
        Err(source) => Err(no_half(source)),
    }
}

/// Copies of both.
fn copied(
    alloc: Global,
    name: &DirectoryName,
    key: &PublicKey,
) -> Result<(DirectoryName, PublicKey), AllocError>
    ensures { IfOk result (λ copies. (copies.0 ≡ name.now) × (copies.1 ≡ key.now)) }
{
    let name = name.try_clone(alloc)?;
    Ok((name, key.try_clone(alloc)?))
}

/// The name and key of a request that is signed by its own key.
fn requested<S: Scheme>(
    alloc: Global,
    csr: &Csr,
    scheme: &S,
) -> Result<(DirectoryName, PublicKey), CertError>
    ensures { MatchResult result
        (λ subject. IsSelfSigned (S.judge scheme.now) csr.now
        × (sets_of subject.0 ≡ csr.now.request.certification_request_info.subject)
        × (info_of subject.1
        ≡ csr.now.request.certification_request_info.subject_public_key_info))
        (OrMemory errors.Memory
        (Wraps request_refusal (IsUnsigned (RefusesSelfSigned (S.judge scheme.now) csr.now)))) }
{
    match csr.verify(alloc, scheme) {
        Ok(()) => Ok(asked(alloc, csr)?),
        Err(source) => Err(no_request(source)),
    }
}

/// The name and the key of a request.
fn asked(alloc: Global, csr: &Csr) -> Result<(DirectoryName, PublicKey), AllocError>
    ensures { IfOk result
        (λ subject. (sets_of subject.0 ≡ csr.now.request.certification_request_info.subject)
        × (info_of subject.1
        ≡ csr.now.request.certification_request_info.subject_public_key_info)) }
{
    let name = csr.subject_name(alloc)?;
    Ok((name, csr.public_key().try_clone(alloc)?))
}
