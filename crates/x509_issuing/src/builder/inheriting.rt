//! Extensions that a certificate inherits from a request.

ghost use Rattle.std.specs.Prelude.{◌≡◌, OnOk, bytes_eq};
ghost use Rattle.std.specs.List.{list_any};
ghost use Rattle.asn1_types.specs.Values.{identifier_contents};
ghost use Rattle.x509_issuing.specs.Inherited.{has_one, with_one, with_others};
ghost use Rattle.x509_issuing.specs.MadeExtensions.{inherited};

use super::{CertificateBuilder, IssuerInfos, SubjectInfos};
use der_core::Structure;
use std::alloc::{AllocError, Global};
use x509_types::{Extension, Extensions};

impl CertificateBuilder<'_> {
    /// The inherited extensions: those that the subject's request asks for, if that is set and the
    /// issuer isn't the subject.
    pub(super) fn inherited(&self, issuer: &IssuerInfos<'_>) -> &[Extension]
        ensures { result.now ≡ inherited issuer.now.self_signed self.now.inherits
            self.now.subject_infos }
    {
        if issuer.self_signed {
            return &[];
        }
        if !self.inherits {
            return &[];
        }
        match &self.subject_infos {
            Some(SubjectInfos::Request(csr)) => csr.asked_extensions(),
            Some(SubjectInfos::Named(_, _)) => &[],
            None => &[],
        }
    }
}

/// Appends the other extensions in order, except those with an OID that is there already.
pub(super) fn push_others(
    alloc: Global,
    extensions: &mut Extensions,
    others: &[Extension],
) -> Result<(), AllocError>
    ensures { OnOk result (extensions.new ≡ with_others extensions.old others.now) }
{
    let mut rest = others;
    while let Some((extension, after)) = rest.split_first() {
        push_one(alloc, extensions, extension)?;
        rest = after;
    }
    Ok(())
}

/// Appends an extension, unless its OID is there already.
fn push_one(
    alloc: Global,
    extensions: &mut Extensions,
    extension: &Extension,
) -> Result<(), AllocError>
    ensures { OnOk result (extensions.new ≡ with_one extensions.old extension.now) }
{
    if has_one(extensions.as_slice(), extension.extn_id().as_bytes()) {
        return Ok(());
    }
    extensions.push(extension.try_clone(alloc)?)
}

/// Whether one of the extensions has this OID, given by its contents octets.
fn has_one(extensions: &[Extension], oid: &[u8]) -> bool
    ensures { result ≡ has_one extensions.now oid.now }
{
    extensions
        .iter()
        .any(|extension| extension.extn_id().as_bytes() == oid)
}
