//! Extensions of a certificate about its key. Of several with one OID the first counts.

ghost use Rattle.std.specs.Prelude.{MatchOption, MatchResult};
ghost use Rattle.asn1_types.specs.declared.oids.TheConstants.{CE_SUBJECT_KEY_IDENTIFIER, CE_BASIC_CONSTRAINTS, CE_AUTHORITY_KEY_IDENTIFIER};
ghost use Rattle.x509_types.specs.FirstOfValue.{extensions_in, NoneHas, IsFirstWith};
ghost use Rattle.x509_types.specs.declared.extension.view.ExtensionView.TheVariants as views;
ghost use Rattle.x509_core.specs.FirstValue.{HasFirst, IsMissingExtension};
ghost use Rattle.x509_core.specs.declared.error.ExtName.TheVariants as names;

use crate::cert::Cert;
use crate::error::{CertError, ExtName};
use asn1_types::oids::{
    CE_AUTHORITY_KEY_IDENTIFIER, CE_BASIC_CONSTRAINTS, CE_SUBJECT_KEY_IDENTIFIER,
};
use der_core::is_same;
use x509_types::{AuthorityKeyIdentifier, BasicConstraints, Extension, ExtensionView};

impl Cert {
    /// The subject key identifier (RFC 5280 4.2.1.2), `ExtensionNotFound` exactly where there is no
    /// such extension. It doesn't allocate.
    pub fn subject_key_identifier(&self) -> Result<&[u8], CertError>
        ensures { MatchResult result
            (λ key. HasFirst CE_SUBJECT_KEY_IDENTIFIER.now
            (extensions_in self.now.certificate.tbs_certificate.extensions)
            (views.SubjectKeyIdentifier key.now))
            (IsMissingExtension CE_SUBJECT_KEY_IDENTIFIER.now names.SubjectKeyIdentifier
            (extensions_in self.now.certificate.tbs_certificate.extensions)) }
    {
        match first_with(self.extensions(), CE_SUBJECT_KEY_IDENTIFIER) {
            Some(extension) => match extension.extn_value() {
                ExtensionView::SubjectKeyIdentifier(key) => Ok(key.as_slice()),
                _ => unreachable!(),
            },
            None => Err(CertError::ExtensionNotFound {
                name: ExtName::SubjectKeyIdentifier,
            }),
        }
    }

    /// The authority key identifier (RFC 5280 4.2.1.1), `ExtensionNotFound` exactly where there is
    /// no such extension. It doesn't allocate.
    pub fn authority_key_identifier(&self) -> Result<&AuthorityKeyIdentifier, CertError>
        ensures { MatchResult result
            (λ key. HasFirst CE_AUTHORITY_KEY_IDENTIFIER.now
            (extensions_in self.now.certificate.tbs_certificate.extensions)
            (views.AuthorityKeyIdentifier key.now))
            (IsMissingExtension CE_AUTHORITY_KEY_IDENTIFIER.now names.AuthorityKeyIdentifier
            (extensions_in self.now.certificate.tbs_certificate.extensions)) }
    {
        match first_with(self.extensions(), CE_AUTHORITY_KEY_IDENTIFIER) {
            Some(extension) => match extension.extn_value() {
                ExtensionView::AuthorityKeyIdentifier(key) => Ok(key),
                _ => unreachable!(),
            },
            None => Err(CertError::ExtensionNotFound {
                name: ExtName::AuthorityKeyIdentifier,
            }),
        }
    }

    /// The basic constraints (RFC 5280 4.2.1.9), `ExtensionNotFound` exactly where there is no such
    /// extension. It doesn't allocate.
    pub fn basic_constraints(&self) -> Result<&BasicConstraints, CertError>
        ensures { MatchResult result
            (λ constraints. HasFirst CE_BASIC_CONSTRAINTS.now
            (extensions_in self.now.certificate.tbs_certificate.extensions)
            (views.BasicConstraints constraints.now))
            (IsMissingExtension CE_BASIC_CONSTRAINTS.now names.BasicConstraints
            (extensions_in self.now.certificate.tbs_certificate.extensions)) }
    {
        match first_with(self.extensions(), CE_BASIC_CONSTRAINTS) {
            Some(extension) => match extension.extn_value() {
                ExtensionView::BasicConstraints(constraints) => Ok(constraints),
                _ => unreachable!(),
            },
            None => Err(CertError::ExtensionNotFound {
                name: ExtName::BasicConstraints,
            }),
        }
    }
}

/// The first extension with this OID, given by its contents octets.
fn first_with<'a>(extensions: &'a [Extension], oid: &[u8]) -> Option<&'a Extension>
    ensures { MatchOption result
        (NoneHas oid.now extensions.now)
        (λ extension. IsFirstWith oid.now extensions.now extension.now) }
{
    let mut rest = extensions;
    while let Some((extension, others)) = rest.split_first() {
        if is_same(extension.extn_id().as_bytes(), oid) {
            return Some(extension);
        }
        rest = others;
    }
    None
}
