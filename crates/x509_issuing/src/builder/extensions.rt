//! The extensions of the certificate, in their order (RFC 5280 4.2.1).

ghost use Rattle.std.specs.Prelude.{◌≡◌, ◌↔◌, ◌++◌, true, false, IsTrue, IfOk, OnOk, List, option_to_list};
ghost use Rattle.asn1_types.specs.declared.oids.TheConstants.{CE_SUBJECT_KEY_IDENTIFIER, CE_KEY_USAGE, CE_SUBJECT_ALT_NAME, CE_ISSUER_ALT_NAME, CE_AUTHORITY_KEY_IDENTIFIER, CE_EXT_KEY_USAGE};
ghost use Rattle.extension_types.specs.AuthorityKeyIdentifier.{key_of_identifier};
ghost use Rattle.x509_types.specs.Extension.{IsPlainExtension, extension_id, extension_value, is_critical};
ghost use Rattle.x509_types.specs.declared.extension.Extension.{Extension};
ghost use Rattle.x509_types.specs.declared.extension.view.ExtensionView.TheVariants as views;
ghost use Rattle.x509_issuing.specs.BuiltCertificate.{authority_of};
ghost use Rattle.x509_issuing.specs.MadeExtensions.{AreBuilt, AreWanted, HasUses, IsConstraints, IsForSignatures, wanted_keys, wanted_names, where_given};

use super::inheriting::push_others;
use super::{CertificateBuilder, IssuerInfos};
use der_core::Structure;
use names_core::GeneralNames;
use std::alloc::{AllocError, Global};
use x509_types::{Extension, Extensions, RawGeneralNames};

impl CertificateBuilder<'_> {
    /// The extensions: the builder's own, and the inherited ones with an OID that isn't there yet.
    pub(super) fn extensions(
        &self,
        alloc: Global,
        issuer: &IssuerInfos<'_>,
        own: &[u8],
    ) -> Result<Extensions, AllocError>
        ensures { IfOk result (AreBuilt self.now issuer.now own.now
            (authority_of issuer.now.self_signed self.now.authority_key_identifier own.now)) }
    {
        let mut extensions = self.uses(alloc)?;
        self.push_names(alloc, &mut extensions)?;
        push_keys(alloc, &mut extensions, own, self.authority(issuer, own))?;
        push_others(alloc, &mut extensions, self.inherited(issuer))?;
        Ok(extensions)
    }

    /// The authority key identifier.
    fn authority<'x>(&'x self, issuer: &IssuerInfos<'_>, own: &'x [u8]) -> &'x [u8]
        ensures { result.now ≡ authority_of issuer.now.self_signed self.now.authority_key_identifier
            own.now }
    {
        if issuer.self_signed {
            return own;
        }
        match &self.authority_key_identifier {
            Some(key) => key.as_slice(),
            None => own,
        }
    }

    /// The basic constraints and the key usages.
    fn uses(&self, alloc: Global) -> Result<Extensions, AllocError>
        ensures { IfOk result (HasUses self.now) }
    {
        let mut extensions = Extensions::new(alloc);
        extensions.push(self.constraints(alloc)?)?;
        push_option(&mut extensions, self.usage(alloc)?)?;
        push_option(&mut extensions, self.purposes(alloc)?)?;
        Ok(extensions)
    }

    /// The basic constraints, critical exactly if the key usage is for signatures.
    fn constraints(&self, alloc: Global) -> Result<Extension, AllocError>
        ensures { IfOk result (IsConstraints self.now) }
    {
        match Extension::new_basic_constraints(alloc, self.ca, self.pathlen) {
            Ok(extension) => Ok(flagged(extension, self.is_for_signatures())),
            Err(_) => Err(AllocError),
        }
    }

    /// Whether the key usage names signatures other than those on certificates and CRLs (RFC 5280
    /// 4.2.1.3).
    fn is_for_signatures(&self) -> bool
        ensures { IsTrue result ↔ IsForSignatures self.now.key_usage }
    {
        match &self.key_usage {
            Some(usage) => usage.digital_signature(),
            None => false,
        }
    }

    /// The key usage, if given.
    fn usage(&self, alloc: Global) -> Result<Option<Extension>, AllocError>
        ensures { IfOk result
            (λ made. AreWanted (where_given CE_KEY_USAGE.now true views.KeyUsage self.now.key_usage)
            (option_to_list made)) }
    {
        let Some(usage) = &self.key_usage else {
            return Ok(None);
        };
        match Extension::new_key_usage(alloc, usage.try_clone(alloc)?) {
            Ok(extension) => Ok(Some(flagged(extension, true))),
            Err(_) => Err(AllocError),
        }
    }

    /// The extended key usage, if given.
    fn purposes(&self, alloc: Global) -> Result<Option<Extension>, AllocError>
        ensures { IfOk result (λ made. AreWanted
            (where_given CE_EXT_KEY_USAGE.now false views.ExtendedKeyUsage
            self.now.extended_key_usage)
            (option_to_list made)) }
    {
        let Some(usage) = &self.extended_key_usage else {
            return Ok(None);
        };
        match Extension::new_extended_key_usage(alloc, usage.try_clone(alloc)?) {
            Ok(extension) => Ok(Some(extension)),
            Err(_) => Err(AllocError),
        }
    }

    /// Appends the alternative names of the subject and of the issuer, if given.
    fn push_names(&self, alloc: Global, extensions: &mut Extensions) -> Result<(), AllocError>
        ensures { OnOk result ((made : List Extension) × AreWanted (wanted_names self.now) made
            × (extensions.new ≡ extensions.old ++ made)) }
    {
        push_option(extensions, self.subject_names(alloc)?)?;
        push_option(extensions, self.issuer_names(alloc)?)
    }

    /// The subject alternative names, if given.
    fn subject_names(&self, alloc: Global) -> Result<Option<Extension>, AllocError>
        ensures { IfOk result (λ made. AreWanted
            (where_given CE_SUBJECT_ALT_NAME.now false views.SubjectAltName
            self.now.subject_alt_name)
            (option_to_list made)) }
    {
        let Some(names) = &self.subject_alt_name else {
            return Ok(None);
        };
        match Extension::new_subject_alt_name(alloc, copied(alloc, names)?) {
            Ok(extension) => Ok(Some(extension)),
            Err(_) => Err(AllocError),
        }
    }

    /// The issuer alternative names, if given.
    fn issuer_names(&self, alloc: Global) -> Result<Option<Extension>, AllocError>
        ensures { IfOk result (λ made. AreWanted
            (where_given CE_ISSUER_ALT_NAME.now false views.IssuerAltName
            self.now.issuer_alt_name)
            (option_to_list made)) }
    {
        let Some(names) = &self.issuer_alt_name else {
            return Ok(None);
        };
        match Extension::new_issuer_alt_name(alloc, copied(alloc, names)?) {
            Ok(extension) => Ok(Some(extension)),
            Err(_) => Err(AllocError),
        }
    }
}

/// The names in the form that the extension stores.
fn copied(alloc: Global, names: &GeneralNames) -> Result<RawGeneralNames, AllocError>
    ensures { IfOk result (λ raw. raw ≡ names.now) }
{
    Ok(RawGeneralNames::from(names.try_clone(alloc)?))
}

/// The extension, critical or not.
fn flagged(extension: Extension, critical: bool) -> Extension
    ensures { (extension_id result ≡ extension_id extension) × (is_critical result ≡ critical)
        × (extension_value result ≡ extension_value extension) }
{
    if critical {
        extension.into_critical()
    } else {
        extension.into_non_critical()
    }
}

/// Appends an extension, if there is one.
fn push_option(extensions: &mut Extensions, given: Option<Extension>) -> Result<(), AllocError>
    ensures { OnOk result (extensions.new ≡ extensions.old ++ option_to_list given) }
{
    match given {
        Some(extension) => extensions.push(extension),
        None => Ok(()),
    }
}

/// Appends the subject key identifier and the authority key identifier.
fn push_keys(
    alloc: Global,
    extensions: &mut Extensions,
    own: &[u8],
    authority: &[u8],
) -> Result<(), AllocError>
    ensures { OnOk result
        ((made : List Extension) × AreWanted (wanted_keys own.now authority.now) made
        × (extensions.new ≡ extensions.old ++ made)) }
{
    extensions.push(key_identifier(alloc, own)?)?;
    extensions.push(authority_key_identifier(alloc, authority)?)
}

/// The subject key identifier extension.
fn key_identifier(alloc: Global, key: &[u8]) -> Result<Extension, AllocError>
    ensures { IfOk result (λ e. IsPlainExtension e CE_SUBJECT_KEY_IDENTIFIER.now
        (views.SubjectKeyIdentifier key.now)) }
{
    match Extension::new_subject_key_identifier(alloc, key) {
        Ok(extension) => Ok(extension),
        Err(_) => Err(AllocError),
    }
}

/// The authority key identifier extension.
fn authority_key_identifier(alloc: Global, key: &[u8]) -> Result<Extension, AllocError>
    ensures { IfOk result (λ e. IsPlainExtension e CE_AUTHORITY_KEY_IDENTIFIER.now
        (views.AuthorityKeyIdentifier (key_of_identifier key.now))) }
{
    match Extension::new_authority_key_identifier(alloc, key) {
        Ok(extension) => Ok(extension),
        Err(_) => Err(AllocError),
    }
}
