//! Which certificate may be the parent of another.

ghost use Rattle.std.specs.Prelude.{◌≡◌, ◌↔◌, IsTrue, Ok, MatchResult};
ghost use Rattle.x509_types.specs.CertificateView.{view_elements};
ghost use Rattle.x509_core.specs.Parent.{AgreeByKey, AgreeByName, AgreeByKeyAndName, IsInvalid, IsOtherKey, RefusesParent};

use crate::cert::Cert;
use crate::error::{CaChainError, CertCause, CertError, ExtName};
use crate::key_link::{KeyLink, key_link};
use crate::viewed::ViewedCert;
use der_core::{Octets, is_same};
use std::alloc::Global;
use x509_types::CertView;

/// Whether the issuer of the borrowed child is the subject of the borrowed parent.
pub fn names_agree(parent: CertView<'_>, child: CertView<'_>) -> bool
    ensures { IsTrue result ↔ AgreeByName (view_elements parent.entry) (view_elements child.entry) }
{
    is_same(child.issuer(), parent.subject())
}

impl Cert {
    /// Checks that this certificate is a parent of `other` by names and key identifiers (RFC 5280
    /// 4.2.1.1, 6.1.3). If `other` has an authority key identifier and this certificate no subject
    /// key identifier, this one is refused as `ExtensionNotFound`; if the two differ, `other` is
    /// refused as `AuthorityKeyIdMismatch`; then `other` is refused as `IssuerNameMismatch` where
    /// its issuer isn't the subject of this one. Neither signatures, dates nor flags are checked.
    pub fn is_parent_of(&self, alloc: Global, other: &Cert) -> Result<(), CertError>
        ensures answer { MatchResult result
            (λ _. AgreeByKeyAndName self.now.elements other.now.elements)
            (RefusesParent self.now other.now) }
        // However much memory there is.
        ensures accepted { AgreeByKeyAndName self.now.elements other.now.elements → result ≡ Ok tt }
    {
        let (parent, child) = (self.viewed(), other.viewed());
        parent.is_parent_of(alloc, &child)
    }

    /// Checks that this certificate issued the other by name, where `agree` is whether their names
    /// do.
    fn expect_issuer_of(&self, alloc: Global, other: &Cert, agree: bool) -> Result<(), CertError>
        requires { AgreeByKey self.now.elements other.now.elements
            × (IsTrue agree ↔ AgreeByName self.now.elements other.now.elements) }
        ensures answer { MatchResult result
            (λ _. AgreeByKeyAndName self.now.elements other.now.elements)
            (RefusesParent self.now other.now) }
        ensures accepted { AgreeByName self.now.elements other.now.elements → result ≡ Ok tt }
    {
        if agree {
            return Ok(());
        }
        let source = CaChainError::IssuerNameMismatch {
            expected: other.issuer_name(alloc)?,
            actual: self.subject_name(alloc)?,
        };
        Err(other.invalid(alloc, CertCause::InvalidChain { source }))
    }

    /// The error that the certificate's authority key identifier isn't its parent's key identifier.
    fn other_key(&self, alloc: Global, expected: &[u8], actual: &[u8]) -> CertError
        ensures { IsOtherKey self.now expected.now actual.now result }
    {
        let Ok(expected) = Octets::from_slice(alloc, expected) else {
            return CertError::Memory;
        };
        let Ok(actual) = Octets::from_slice(alloc, actual) else {
            return CertError::Memory;
        };
        let source = CaChainError::AuthorityKeyIdMismatch { expected, actual };
        self.invalid(alloc, CertCause::InvalidChain { source })
    }

    /// The refusal of this certificate for a cause.
    pub(crate) fn invalid(&self, alloc: Global, source: CertCause) -> CertError
        ensures { IsInvalid self.now source result }
    {
        match self.subject_name(alloc) {
            Ok(id) => CertError::InvalidCertificate { id, source },
            Err(_) => CertError::Memory,
        }
    }
}

impl ViewedCert<'_> {
    /// Checks that names and key identifiers are those of a parent and its child
    /// (`Cert::is_parent_of`).
    pub fn is_parent_of(&self, alloc: Global, child: &ViewedCert<'_>) -> Result<(), CertError>
        ensures answer { MatchResult result
            (λ _. AgreeByKeyAndName self.now.cert.now.elements child.now.cert.now.elements)
            (RefusesParent self.now.cert.now child.now.cert.now) }
        ensures accepted { AgreeByKeyAndName self.now.cert.now.elements child.now.cert.now.elements
            → result ≡ Ok tt }
    {
        match key_link(self.view, child.view) {
            KeyLink::Agree => {
                let agree = names_agree(self.view, child.view);
                self.cert.expect_issuer_of(alloc, child.cert, agree)
            }
            KeyLink::Missing => {
                let name = ExtName::SubjectKeyIdentifier;
                Err(
                    self.cert
                        .invalid(alloc, CertCause::ExtensionNotFound { name }),
                )
            }
            KeyLink::Differ { expected, actual } => {
                Err(child.cert.other_key(alloc, expected, actual))
            }
        }
    }
}
