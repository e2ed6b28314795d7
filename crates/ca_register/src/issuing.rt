//! Issuing certificates: roots, children, and answers to requests.

ghost use Rattle.std.specs.Prelude.{◌≡◌, ◌<◌, ℕ, List, [], ◌∷◌, Bool, Some, None, false, Err, length, IfOk, MatchResult, OnErr};
ghost use Rattle.der_core.specs.Encoding.{encoding};
ghost use Rattle.der_core.specs.Refusals.{Wraps};
ghost use Rattle.der_core.specs.Rules.{OrMemory};
ghost use Rattle.der_core.specs.Steps.{AreTaken, IsFirstUntaken, RefusesBySteps};
ghost use Rattle.sig_core.specs.declared.hash.HashAlgorithm.TheVariants as hashes;
ghost use Rattle.key_core.specs.SignatureAlgorithm.{NamesSignature};
ghost use Rattle.key_core.specs.Signing.{IsKeyPair, arithmetic};
ghost use Rattle.key_core.specs.declared.signature_algorithm.SignatureAlgorithm.TheVariants as algorithms;
ghost use Rattle.key_core.specs.declared.signature_error.SignatureError.{SignatureError as Unsigned};
ghost use Rattle.x509_types.specs.ExtensionParts.{HasSubjectKey};
ghost use Rattle.x509_core.specs.Issued.{HasCert, IsCertifiedBy, IsNext, IsRecordedAs};
ghost use Rattle.x509_core.specs.OwnedCertificate.{KeptCertificate};
ghost use Rattle.x509_core.specs.Link.{IsBadlySignedLink, IsSignedBy};
ghost use Rattle.x509_core.specs.declared.error.CertCause.TheVariants as causes;
ghost use Rattle.x509_issuing.specs.OwnedRequest.{kept_request};
ghost use Rattle.x509_issuing.specs.declared.builder.SubjectInfos.{SubjectInfos as Subject};
ghost use Rattle.x509_issuing.specs.declared.builder.SubjectInfos.TheVariants as subjects;
ghost use Rattle.ca_register.specs.Entries.{step_of};
ghost use Rattle.ca_register.specs.Granting.{IsChildBuilder, IsEnrolBuilder, IsFor, IsGranted, IsRootBuilder};
ghost use Rattle.ca_register.specs.Issuing.{Adds, IsBuiltBy, IsIssuedCert, child_steps, enrol_steps, record_steps, request_step, root_build_step, root_steps, signed_steps};
ghost use Rattle.ca_register.specs.Refusals.{wrong_key};
ghost use Rattle.ca_register.specs.declared.entry.Entry.{Entry as Recorded};
ghost use Rattle.ca_register.specs.declared.entry.Grant.{Grant as Granted};
ghost use Rattle.ca_register.specs.declared.error.IssueError.{IssueError as Refusal};
ghost use Rattle.ca_register.specs.declared.error.IssueError.TheVariants as errors;

use crate::depth::expect_issuer;
use crate::entry::{Entry, Grant};
use crate::error::{IssueError, unbuilt, unread_request, wrong_key};
use crate::register::Register;
use key_core::{PrivateKey, PublicKey, SignatureAlgorithm};
use names_core::DirectoryName;
use sig_core::{HashAlgorithm, Scheme};
use std::alloc::Global;
use x509_core::Cert;
use x509_issuing::{CertificateBuilder, Csr};

impl<S: Scheme + Drop> Register<S> {
    /// Issues a root: a self-signed CA certificate. Returns its index. Refused, in this order, as
    /// `NotCa` if it isn't granted as a CA, and as `Build` if `CertificateBuilder::build` refuses.
    /// A refusal changes nothing.
    pub fn root(
        &mut self,
        name: DirectoryName,
        key: &PrivateKey,
        grant: Grant,
        word: u32,
    ) -> Result<usize, IssueError>
        ensures answer { MatchResult result
            (λ place. AreTaken (root_steps (arithmetic (S.judge self.old.scheme)
            (S.signs self.old.scheme) (S.pair self.old.scheme)) word grant
            (IsRootBuilder grant name key.now)))
            (RefusesBySteps errors.Memory (root_steps (arithmetic (S.judge self.old.scheme)
            (S.signs self.old.scheme) (S.pair self.old.scheme)) word grant
            (IsRootBuilder grant name key.now))) }
        ensures added { IfOk result (Adds (record { issuer = None; grant = grant })
            (IsBuiltBy (arithmetic (S.judge self.old.scheme) (S.signs self.old.scheme)
            (S.pair self.old.scheme)) word (IsRootBuilder grant name key.now))
            self.old.entries.items self.new.entries.items self.old.certificates.items
            self.new.certificates.items) }
        // A root that is no CA is refused as such, even when memory runs out.
        ensures recorded { grant.ca ≡ false → result ≡ Err errors.NotCa }
        ensures within { IfOk result (λ place. place < length self.new.entries.items) }
        ensures scheme { self.new.scheme ≡ self.old.scheme }
        ensures err { OnErr result ((self.new.entries.items ≡ self.old.entries.items)
            × (self.new.certificates.items ≡ self.old.certificates.items)) }
    {
        if !grant.ca {
            return Err(IssueError::NotCa);
        }
        let cert = root_cert(self.alloc, name, key, grant, word, &self.scheme)?;
        let entry = Entry {
            issuer: None,
            grant,
        };
        Ok(self.add(entry, cert)?)
    }

    /// Issues a certificate for a name and a key, signed by the issuer's key. Returns its index.
    /// Refused, in this order, as `NoIssuer`, `NotCa` or `TooDeep` by the entries alone, as `Build`
    /// if `CertificateBuilder::build` refuses, and as `WrongKey` if the signature isn't one by the
    /// key of the issuer's certificate. A refusal changes nothing.
    pub fn child(
        &mut self,
        issuer: usize,
        issuer_key: &PrivateKey,
        name: DirectoryName,
        public_key: PublicKey,
        grant: Grant,
        word: u32,
    ) -> Result<usize, IssueError>
        ensures answer { MatchResult result
            (λ place. AreTaken (child_steps (arithmetic (S.judge self.old.scheme)
            (S.signs self.old.scheme) (S.pair self.old.scheme)) word self.old.certificates.items issuer
            (IsChildBuilder grant (subjects.Named name public_key) false issuer_key.now)
            self.old.entries.items))
            (RefusesBySteps errors.Memory (child_steps (arithmetic (S.judge self.old.scheme)
            (S.signs self.old.scheme) (S.pair self.old.scheme)) word self.old.certificates.items issuer
            (IsChildBuilder grant (subjects.Named name public_key) false issuer_key.now)
            self.old.entries.items)) }
        ensures added { IfOk result (Adds (record { issuer = Some issuer; grant = grant })
            (IsIssuedCert (arithmetic (S.judge self.old.scheme)
            (S.signs self.old.scheme) (S.pair self.old.scheme)) word self.old.certificates.items issuer
            (IsChildBuilder grant (subjects.Named name public_key) false issuer_key.now))
            self.old.entries.items self.new.entries.items self.old.certificates.items
            self.new.certificates.items) }
        // What the entries refuse is refused as such, even when memory runs out.
        ensures recorded { (e : Refusal)
            → IsFirstUntaken (record_steps self.old.entries.items issuer) e → result ≡ Err e }
        // A key that pairs with that of the issuer's certificate isn't refused.
        ensures paired { (parent : KeptCertificate) (source : Unsigned)
            → HasCert self.old.certificates.items issuer parent
            → IsKeyPair (S.pair self.old.scheme) issuer_key.now
            parent.certificate.tbs_certificate.subject_public_key_info
            → result ≡ Err (errors.WrongKey source) → ⊥ }
        ensures within { IfOk result (λ place. place < length self.new.entries.items) }
        ensures scheme { self.new.scheme ≡ self.old.scheme }
        ensures err { OnErr result ((self.new.entries.items ≡ self.old.entries.items)
            × (self.new.certificates.items ≡ self.old.certificates.items)) }
    {
        expect_issuer(&self.entries, issuer)?;
        let entry = Entry {
            issuer: Some(issuer),
            grant,
        };
        let builder = granted(self.alloc, grant).subject(name, public_key);
        let parent = &self.certificates[issuer];
        let cert = issued_cert(self.alloc, parent, issuer_key, builder, word, &self.scheme)?;
        Ok(self.add(entry, cert)?)
    }

    /// Issues a certificate for a request (RFC 2986), with the extensions that it asks for, signed
    /// by the issuer's key. Returns its index. Refused, in this order, as `NoIssuer`, `NotCa` or
    /// `TooDeep` by the entries alone, as `Request` if the octets are no request, as `Build` if
    /// `CertificateBuilder::build` refuses, also a request that isn't signed by its own key, and as
    /// `WrongKey` if the signature isn't one by the key of the issuer's certificate. A refusal
    /// changes nothing.
    pub fn enrol(
        &mut self,
        issuer: usize,
        issuer_key: &PrivateKey,
        request: &[u8],
        grant: Grant,
        word: u32,
    ) -> Result<usize, IssueError>
        ensures answer { MatchResult result
            (λ place. AreTaken (enrol_steps (arithmetic (S.judge self.old.scheme)
            (S.signs self.old.scheme) (S.pair self.old.scheme)) word self.old.certificates.items issuer
            (IsEnrolBuilder grant request.now issuer_key.now)
            self.old.entries.items request.now))
            (RefusesBySteps errors.Memory (enrol_steps (arithmetic (S.judge self.old.scheme)
            (S.signs self.old.scheme) (S.pair self.old.scheme)) word self.old.certificates.items issuer
            (IsEnrolBuilder grant request.now issuer_key.now)
            self.old.entries.items request.now)) }
        ensures added { IfOk result (Adds (record { issuer = Some issuer; grant = grant })
            (IsIssuedCert (arithmetic (S.judge self.old.scheme)
            (S.signs self.old.scheme) (S.pair self.old.scheme)) word self.old.certificates.items issuer
            (IsEnrolBuilder grant request.now issuer_key.now))
            self.old.entries.items self.new.entries.items self.old.certificates.items
            self.new.certificates.items) }
        // What the entries refuse is refused as such, even when memory runs out.
        ensures recorded { (e : Refusal)
            → IsFirstUntaken (record_steps self.old.entries.items issuer) e → result ≡ Err e }
        // A key that pairs with that of the issuer's certificate isn't refused.
        ensures paired { (parent : KeptCertificate) (source : Unsigned)
            → HasCert self.old.certificates.items issuer parent
            → IsKeyPair (S.pair self.old.scheme) issuer_key.now
            parent.certificate.tbs_certificate.subject_public_key_info
            → result ≡ Err (errors.WrongKey source) → ⊥ }
        ensures within { IfOk result (λ place. place < length self.new.entries.items) }
        ensures scheme { self.new.scheme ≡ self.old.scheme }
        ensures err { OnErr result ((self.new.entries.items ≡ self.old.entries.items)
            × (self.new.certificates.items ≡ self.old.certificates.items)) }
    {
        expect_issuer(&self.entries, issuer)?;
        let csr = read_request(self.alloc, request)?;
        let entry = Entry {
            issuer: Some(issuer),
            grant,
        };
        let builder = granted(self.alloc, grant)
            .subject_from_csr(csr)
            .inherit_extensions_from_csr_attributes(true);
        let parent = &self.certificates[issuer];
        let cert = issued_cert(self.alloc, parent, issuer_key, builder, word, &self.scheme)?;
        Ok(self.add(entry, cert)?)
    }
}

/// The certificate of a root.
fn root_cert<S: Scheme>(
    alloc: Global,
    name: DirectoryName,
    key: &PrivateKey,
    grant: Grant,
    word: u32,
    scheme: &S,
) -> Result<Cert, IssueError>
    ensures answer { MatchResult result
        (IsBuiltBy (arithmetic (S.judge scheme.now) (S.signs scheme.now) (S.pair scheme.now)) word
        (IsRootBuilder grant name key.now))
        (RefusesBySteps errors.Memory (root_build_step (arithmetic (S.judge scheme.now)
        (S.signs scheme.now) (S.pair scheme.now)) word (IsRootBuilder grant name key.now) ∷ [])) }
    ensures next { IfOk result (λ cert. (certificates : List KeptCertificate)
        → IsNext (S.judge scheme.now) certificates
        (step_of (record { issuer = None; grant = grant })) cert) }
{
    let builder = granted(alloc, grant).self_signed(name, key);
    match builder.build(alloc, word, scheme) {
        Ok(cert) => Ok(cert),
        Err(source) => Err(unbuilt(source)),
    }
}

/// The certificate under that of its issuer, with a signature by the key there.
fn issued_cert<'a, S: Scheme>(
    alloc: Global,
    parent: &Cert,
    issuer_key: &'a PrivateKey,
    builder: CertificateBuilder<'a>,
    word: u32,
    scheme: &S,
) -> Result<Cert, IssueError>
    requires unidentified { builder.authority_key_identifier ≡ None }
    requires algorithm { builder.signature_hash_type ≡ algorithms.RsaPkcs1v15 hashes.SHA2_256 }
    ensures answer { (grant : Granted) (subject : Subject) (inherits : Bool)
        (certificates : List KeptCertificate) (issuer : ℕ) → IsFor grant subject inherits builder.entry
        → HasCert certificates issuer parent.now → MatchResult result
        (IsIssuedCert (arithmetic (S.judge scheme.now) (S.signs scheme.now) (S.pair scheme.now))
        word certificates issuer (IsChildBuilder grant subject inherits issuer_key.now))
        (RefusesBySteps errors.Memory (signed_steps (arithmetic (S.judge scheme.now)
        (S.signs scheme.now) (S.pair scheme.now)) word certificates issuer
        (IsChildBuilder grant subject inherits issuer_key.now))) }
    ensures recorded { IfOk result (λ cert. (entry : Recorded) (key : List ℕ)
        → IsGranted entry.grant builder.entry → HasSubjectKey parent.now.elements key
        → ∥ IsRecordedAs (step_of entry) cert
        × IsCertifiedBy (S.judge scheme.now) parent.now.elements cert.elements ∥₁) }
    ensures paired { (source : Unsigned)
        → IsKeyPair (S.pair scheme.now) issuer_key.now
        parent.now.certificate.tbs_certificate.subject_public_key_info
        → result ≡ Err (errors.WrongKey source) → ⊥ }
{
    let mut builder = builder;
    builder.issuer_cert(parent, issuer_key)?;
    match builder.build(alloc, word, scheme) {
        Ok(cert) => signed_cert(alloc, parent, cert, scheme),
        Err(source) => Err(unbuilt(source)),
    }
}

/// The certificate, if its signature is one by the key of its issuer's certificate.
fn signed_cert<S: Scheme>(
    alloc: Global,
    parent: &Cert,
    cert: Cert,
    scheme: &S,
) -> Result<Cert, IssueError>
    requires named { NamesSignature cert.certificate.signature_algorithm
        (algorithms.RsaPkcs1v15 hashes.SHA2_256) }
    ensures { MatchResult result
        (λ signed. (signed ≡ cert)
        × IsSignedBy (S.judge scheme.now) parent.now.elements cert.elements)
        (OrMemory errors.Memory (Wraps wrong_key
        (λ source. IsBadlySignedLink (S.judge scheme.now) parent.now.elements cert.elements
        (causes.Signature source)))) }
{
    let fields = cert.view();
    let algorithm = SignatureAlgorithm::RsaPkcs1v15(HashAlgorithm::SHA2_256);
    let key = parent.public_key();
    match algorithm.verify(alloc, key, fields.tbs(), fields.signature(), scheme) {
        Ok(()) => Ok(cert),
        Err(source) => Err(wrong_key(source)),
    }
}

/// The builder with the validity, the CA flag and the path length of the grant.
fn granted<'a>(alloc: Global, grant: Grant) -> CertificateBuilder<'a>
    ensures granted { IsGranted grant result }
    ensures rest { (result.authority_key_identifier ≡ None) × (result.inherits ≡ false) }
{
    let builder = CertificateBuilder::new(alloc)
        .validity(grant.from, grant.to)
        .ca(grant.ca);
    match grant.path_length {
        Some(length) => builder.pathlen(length),
        None => builder,
    }
}

/// Reads a request.
fn read_request(alloc: Global, octets: &[u8]) -> Result<Csr, IssueError>
    ensures { MatchResult result (λ csr. encoding (kept_request csr) ≡ octets.now)
        (RefusesBySteps errors.Memory (request_step octets.now ∷ [])) }
{
    match Csr::from_der(alloc, octets) {
        Ok(csr) => Ok(csr),
        Err(source) => Err(unread_request(source)),
    }
}
