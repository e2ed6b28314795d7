//! Whether a certificate may have issued another, as a link of a chain.

ghost use Rattle.std.specs.Prelude.{◌≡◌, ◌↔◌, ◌<◌, ℕ, true, IsTrue, MatchResult, OnErr};
ghost use Rattle.key_core.specs.SignatureAlgorithm.{NamesSignature};
ghost use Rattle.key_core.specs.declared.signature_error.SignatureError.TheVariants as signature_errors;
ghost use Rattle.x509_types.specs.ExtensionParts.{HasCa, HasPathLength};
ghost use Rattle.x509_core.specs.Link.{IsBadlySignedLink, IsDeepEnough, IsLink, IsNoAuthority, IsOutside, IsSignedBy, IsCountFor, IsTooDeep, IsReportedOf, link_rules, link_signature_rules, signature_refusal};
ghost use Rattle.x509_core.specs.Parent.{IsInvalid};
ghost use Rattle.x509_core.specs.Rules.{Breaks, RefusesCertBy};
ghost use Rattle.x509_core.specs.Window.{IsWithinWindow};
ghost use Rattle.x509_core.specs.declared.error.CertCause.TheVariants as causes;
ghost use Rattle.x509_core.specs.declared.error.CertError.TheVariants as errors;

use crate::cert::Cert;
use crate::error::{CaChainError, CertCause, CertError};
use crate::viewed::ViewedCert;
use crate::window::Window;
use key_core::{SignatureAlgorithm, SignatureError};
use sig_core::Scheme;
use std::alloc::Global;

impl Cert {
    /// Checks that this certificate may have issued the other, with `number` certificates between
    /// it and the end of the path (RFC 5280 6.1.3, 6.1.4). The first rule that fails is returned:
    /// the CA flag is true, else `IssuerIsNotCA`; the path length, if any, is at least the number,
    /// else `TooDeep`; this certificate is valid; names and key identifiers agree (`is_parent_of`);
    /// the signature algorithm is known, else `Signature`; the scheme accepts the other's signature
    /// over its raw octets, else `Signature` of it. No path length is more than 255, so all larger
    /// numbers are equivalent.
    pub fn expect_link<S: Scheme>(
        &self,
        alloc: Global,
        other: &Cert,
        number: u16,
        window: &Window,
        scheme: &S,
    ) -> Result<(), CertError>
        ensures { (count : ℕ) → IsCountFor number count → MatchResult result
            (λ _. IsLink (S.judge scheme.now) window.now count self.now.elements other.now.elements)
            (RefusesCertBy (link_rules (S.judge scheme.now) window.now count self.now other.now)) }
    {
        let (parent, child) = (self.viewed(), other.viewed());
        parent.expect_link(alloc, &child, number, window, scheme)
    }

    /// Checks that the certificate is valid (RFC 5280 6.1.3 (a) (2)), else `InvalidCertificate` of
    /// it with the cause from the window (`Window::expect_valid`).
    pub fn expect_valid(&self, alloc: Global, window: &Window) -> Result<(), CertError>
        ensures answer { MatchResult result
            (λ _. IsWithinWindow window.now self.now.elements)
            (Breaks (IsOutside window.now self.now)) }
        // A valid certificate is accepted even when memory runs out.
        ensures valid { OnErr result (IsWithinWindow window.now self.now.elements → ⊥) }
    {
        self.viewed().expect_valid(alloc, window)
    }

    /// The error that this isn't a CA certificate.
    fn no_authority(&self, alloc: Global) -> CertError
        requires { HasCa self.now.elements true → ⊥ }
        ensures { Breaks (IsNoAuthority self.now) result }
    {
        match self.subject_name(alloc) {
            Ok(issuer_id) => CertError::InvalidChain {
                source: CaChainError::IssuerIsNotCA { issuer_id },
            },
            Err(_) => CertError::Memory,
        }
    }

    /// The error that more certificates are between it and the end of the path than its path length
    /// allows.
    fn too_deep(&self, alloc: Global, pathlen: u8) -> CertError
        requires { HasPathLength self.now.elements pathlen }
        ensures { (count : ℕ) → pathlen < count → Breaks (IsTooDeep count self.now) result }
    {
        match self.subject_name(alloc) {
            Ok(cert_id) => CertError::InvalidChain {
                source: CaChainError::TooDeep { cert_id, pathlen },
            },
            Err(_) => CertError::Memory,
        }
    }

    /// The error that the signature of the certificate is refused.
    fn badly_signed(&self, alloc: Global, source: SignatureError) -> CertError
        ensures memory { source ≡ signature_errors.Memory → result ≡ errors.Memory }
        ensures returned { IsInvalid self.now (causes.Signature source) result }
    {
        match source {
            SignatureError::Memory => CertError::Memory,
            source => self.invalid(alloc, CertCause::Signature { source }),
        }
    }
}

/// The rules of a link, each checked on the views of its two certificates.
impl ViewedCert<'_> {
    /// Checks that this certificate may have issued the child (`Cert::expect_link`).
    pub fn expect_link<S: Scheme>(
        &self,
        alloc: Global,
        child: &ViewedCert<'_>,
        number: u16,
        window: &Window,
        scheme: &S,
    ) -> Result<(), CertError>
        ensures { (count : ℕ) → IsCountFor number count
            → MatchResult result
            (λ _. IsLink (S.judge scheme.now) window.now count self.now.cert.now.elements
            child.now.cert.now.elements)
            (RefusesCertBy (link_rules (S.judge scheme.now) window.now count self.now.cert.now
            child.now.cert.now)) }
    {
        self.expect_authority(alloc)?;
        self.expect_deep_enough(alloc, number)?;
        self.expect_valid(alloc, window)?;
        self.is_parent_of(alloc, child)?;
        child.expect_signed_by(alloc, self, scheme)
    }

    /// Checks that this is a CA certificate (RFC 5280 4.2.1.9).
    fn expect_authority(&self, alloc: Global) -> Result<(), CertError>
        ensures { MatchResult result (λ _. HasCa self.now.cert.now.elements true)
            (Breaks (IsNoAuthority self.now.cert.now)) }
    {
        if self.is_authority() {
            return Ok(());
        }
        Err(self.cert.no_authority(alloc))
    }

    /// Whether the CA flag is true.
    fn is_authority(&self) -> bool
        ensures { IsTrue result ↔ HasCa self.now.cert.now.elements true }
    {
        match self.view.ca() {
            Some(ca) => ca,
            None => false,
        }
    }

    /// Checks that no more certificates are between it and the end of the path than its path length
    /// allows (RFC 5280 4.2.1.9).
    fn expect_deep_enough(&self, alloc: Global, number: u16) -> Result<(), CertError>
        ensures { (count : ℕ) → IsCountFor number count → MatchResult result
            (λ _. IsDeepEnough count self.now.cert.now.elements)
            (Breaks (IsTooDeep count self.now.cert.now)) }
    {
        let Some(pathlen) = self.view.path_length() else {
            return Ok(());
        };
        if number <= u16::from(pathlen) {
            return Ok(());
        }
        Err(self.cert.too_deep(alloc, pathlen))
    }

    /// Checks that the certificate is valid (`Cert::expect_valid`).
    pub fn expect_valid(&self, alloc: Global, window: &Window) -> Result<(), CertError>
        ensures answer { MatchResult result
            (λ _. IsWithinWindow window.now self.now.cert.now.elements)
            (Breaks (IsOutside window.now self.now.cert.now)) }
        ensures valid { OnErr result (IsWithinWindow window.now self.now.cert.now.elements → ⊥) }
    {
        match window.expect_valid(self.view) {
            Ok(()) => Ok(()),
            Err(cause) => Err(self.cert.invalid(alloc, cause)),
        }
    }

    /// Checks that the signature of the certificate is one by the parent's key (RFC 5280 6.1.3 (a)
    /// (1)).
    fn expect_signed_by<S: Scheme>(
        &self,
        alloc: Global,
        parent: &ViewedCert<'_>,
        scheme: &S,
    ) -> Result<(), CertError>
        ensures { MatchResult result
            (λ _. IsSignedBy (S.judge scheme.now) parent.now.cert.now.elements
            self.now.cert.now.elements)
            (RefusesCertBy
            (link_signature_rules (S.judge scheme.now) parent.now.cert.now self.now.cert.now)) }
    {
        match SignatureAlgorithm::from_algorithm_identifier(alloc, self.cert.outer_algorithm()) {
            Ok(algorithm) => self.expect_accepted(alloc, algorithm, parent, scheme),
            Err(source) => Err(signature_refusal(source)),
        }
    }

    /// Checks that the scheme accepts the signature of the certificate with this algorithm and the
    /// parent's key.
    fn expect_accepted<S: Scheme>(
        &self,
        alloc: Global,
        algorithm: SignatureAlgorithm,
        parent: &ViewedCert<'_>,
        scheme: &S,
    ) -> Result<(), CertError>
        requires { NamesSignature self.now.cert.now.certificate.signature_algorithm algorithm }
        ensures { MatchResult result
            (λ _. IsSignedBy (S.judge scheme.now) parent.now.cert.now.elements
            self.now.cert.now.elements)
            (Breaks (IsReportedOf self.now.cert.now (IsBadlySignedLink (S.judge scheme.now)
            parent.now.cert.now.elements self.now.cert.now.elements))) }
    {
        match algorithm.verify_by(
            alloc,
            parent.cert.public_key(),
            parent.view.key(),
            self.view.tbs(),
            self.view.signature(),
            scheme,
        ) {
            Ok(()) => Ok(()),
            Err(source) => Err(self.cert.badly_signed(alloc, source)),
        }
    }
}

/// The error for a signature algorithm that isn't known.
fn signature_refusal(source: SignatureError) -> CertError
    ensures { result ≡ signature_refusal source }
{
    match source {
        SignatureError::Memory => CertError::Memory,
        source => CertError::Signature { source },
    }
}
