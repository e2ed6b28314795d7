//! The values of extensions, and their kinds.

ghost use Rattle.std.specs.Prelude.{◌≡◌, ◌↔◌, false, bytes_eq, IfOk, IsTrue, MatchOption, MatchResult};
ghost use Rattle.der_core.specs.Borrowed.{AreDer};
ghost use Rattle.der_core.specs.Refusals.{RefusesShape, RefusesInner};
ghost use Rattle.der_core.specs.Structure.{IsWithin};
ghost use Rattle.der_core.specs.declared.error.DerError.TheVariants as errors;
ghost use Rattle.name_types.specs.GeneralName.{AreGeneralNames};
ghost use Rattle.x509_types.specs.ExtensionView.{named_kind, kind_of_view, value_octets, inner_value, HoldsNoNames, IsValueOf};
ghost use Rattle.x509_types.specs.Facts.ExtensionViews.{TellsKind, RefusesKind};
ghost use Rattle.x509_types.specs.declared.extension.view.ExtensionView.{ExtensionView};

use asn1_types::oids::{
    CE_AUTHORITY_KEY_IDENTIFIER, CE_BASIC_CONSTRAINTS, CE_EXT_KEY_USAGE, CE_ISSUER_ALT_NAME,
    CE_KEY_USAGE, CE_SUBJECT_ALT_NAME, CE_SUBJECT_KEY_IDENTIFIER,
};
use der_core::{DerError, Octets, Structure, has_within, is_same, read_within, write_within};
use extension_types::{AuthorityKeyIdentifier, BasicConstraints, ExtendedKeyUsage, KeyUsage};
use name_types::RawGeneralNames;
use std::alloc::{AllocError, Global};

/// A kind of extensions.
#[derive(Clone, Copy, Debug, PartialEq, Eq)]
pub enum ExtensionKind {
    /// Subject key identifier (RFC 5280 4.2.1.2).
    SubjectKeyIdentifier,
    /// Key usage: what the key may be used for, as bits (RFC 5280 4.2.1.3).
    KeyUsage,
    /// Alternative names of the subject (RFC 5280 4.2.1.6).
    SubjectAltName,
    /// Alternative names of the issuer (RFC 5280 4.2.1.7).
    IssuerAltName,
    /// Basic constraints: whether the subject is a CA (RFC 5280 4.2.1.9).
    BasicConstraints,
    /// Authority key identifier: the key that signed the certificate (RFC 5280 4.2.1.1).
    AuthorityKeyIdentifier,
    /// Extended key usage: what the key may be used for, as OIDs (RFC 5280 4.2.1.12).
    ExtendedKeyUsage,
    /// Any other kind.
    Other,
}

impl ExtensionKind {
    /// The kind that an OID, given as contents octets, identifies.
    pub fn named(oid: &[u8]) -> ExtensionKind
        ensures { result ≡ named_kind oid.now }
    {
        if is_named(oid, CE_SUBJECT_KEY_IDENTIFIER) {
            return ExtensionKind::SubjectKeyIdentifier;
        }
        if is_named(oid, CE_KEY_USAGE) {
            return ExtensionKind::KeyUsage;
        }
        if is_named(oid, CE_SUBJECT_ALT_NAME) {
            return ExtensionKind::SubjectAltName;
        }
        if is_named(oid, CE_ISSUER_ALT_NAME) {
            return ExtensionKind::IssuerAltName;
        }
        if is_named(oid, CE_BASIC_CONSTRAINTS) {
            return ExtensionKind::BasicConstraints;
        }
        if is_named(oid, CE_AUTHORITY_KEY_IDENTIFIER) {
            return ExtensionKind::AuthorityKeyIdentifier;
        }
        if is_named(oid, CE_EXT_KEY_USAGE) {
            return ExtensionKind::ExtendedKeyUsage;
        }
        ExtensionKind::Other
    }
}

/// Whether these are the contents octets of the known OID.
#[inline(always)]
fn is_named(oid: &[u8], known: &[u8]) -> bool
    ensures { result ≡ bytes_eq oid.now known.now }
{
    is_same(oid, known)
}

/// The value of an extension, by the extension's OID (RFC 5280 4.2).
#[derive(Debug, Drop)]
pub enum ExtensionView {
    /// Subject key identifier (RFC 5280 4.2.1.2).
    SubjectKeyIdentifier(Octets),
    /// Key usage: what the key may be used for, as bits (RFC 5280 4.2.1.3).
    KeyUsage(KeyUsage),
    /// Alternative names of the subject (RFC 5280 4.2.1.6).
    SubjectAltName(RawGeneralNames),
    /// Alternative names of the issuer (RFC 5280 4.2.1.7).
    IssuerAltName(RawGeneralNames),
    /// Basic constraints: whether the subject is a CA (RFC 5280 4.2.1.9).
    BasicConstraints(BasicConstraints),
    /// Authority key identifier: the key that signed the certificate (RFC 5280 4.2.1.1).
    AuthorityKeyIdentifier(AuthorityKeyIdentifier),
    /// Extended key usage: what the key may be used for, as OIDs (RFC 5280 4.2.1.12).
    ExtendedKeyUsage(ExtendedKeyUsage),
    /// The raw octets of any other extension, or of alternative names that don't parse.
    Raw(Octets),
}

impl ExtensionView {
    /// The kind of extensions that have such a value; `Other` for raw octets.
    pub fn kind(&self) -> ExtensionKind
        ensures { result ≡ kind_of_view self.now }
    {
        match self {
            ExtensionView::SubjectKeyIdentifier(_) => ExtensionKind::SubjectKeyIdentifier,
            ExtensionView::KeyUsage(_) => ExtensionKind::KeyUsage,
            ExtensionView::SubjectAltName(_) => ExtensionKind::SubjectAltName,
            ExtensionView::IssuerAltName(_) => ExtensionKind::IssuerAltName,
            ExtensionView::BasicConstraints(_) => ExtensionKind::BasicConstraints,
            ExtensionView::AuthorityKeyIdentifier(_) => ExtensionKind::AuthorityKeyIdentifier,
            ExtensionView::ExtendedKeyUsage(_) => ExtensionKind::ExtendedKeyUsage,
            ExtensionView::Raw(_) => ExtensionKind::Other,
        }
    }

    /// Whether the octets encode a value of the kind. Any octets do if the kind may be raw.
    pub(crate) fn has_value(kind: ExtensionKind, octets: &[u8]) -> bool
        ensures fits { IsTrue result → (view : ExtensionView) × IsValueOf kind octets.now view }
        ensures unfit { result ≡ false → (view : ExtensionView) → IsValueOf kind octets.now view
            → ⊥ }
    {
        fits_kind(kind, octets)
    }

    /// The value of the kind that the octets encode.
    pub(crate) fn read(
        alloc: Global,
        kind: ExtensionKind,
        octets: &[u8],
    ) -> Result<ExtensionView, DerError>
        ensures { MatchResult result (IsValueOf kind octets.now)
            (RefusesShape (IsValueOf kind octets.now)) }
    {
        read_kind(alloc, kind, octets)
    }

    /// The octets of the value.
    pub(crate) fn write(&self, alloc: Global) -> Result<Vec<u8>, DerError>
        ensures { MatchResult result
            (λ octets. (octets.items ≡ value_octets self.now) × AreDer (inner_value self.now))
            (RefusesInner (inner_value self.now)) }
    {
        match self {
            ExtensionView::SubjectKeyIdentifier(key) => write_within(alloc, key),
            ExtensionView::KeyUsage(usage) => write_within(alloc, usage),
            ExtensionView::SubjectAltName(names) => write_within(alloc, names),
            ExtensionView::IssuerAltName(names) => write_within(alloc, names),
            ExtensionView::BasicConstraints(constraints) => write_within(alloc, constraints),
            ExtensionView::AuthorityKeyIdentifier(key) => write_within(alloc, key),
            ExtensionView::ExtendedKeyUsage(usage) => write_within(alloc, usage),
            ExtensionView::Raw(octets) => Ok(Vec::from_slice(alloc, octets.as_slice())?),
        }
    }

    /// A copy of the value.
    pub fn try_clone(&self, alloc: Global) -> Result<ExtensionView, AllocError>
        ensures { IfOk result (λ copy. copy ≡ self.now) }
    {
        Ok(match self {
            ExtensionView::SubjectKeyIdentifier(key) => {
                ExtensionView::SubjectKeyIdentifier(key.try_clone(alloc)?)
            }
            ExtensionView::KeyUsage(usage) => ExtensionView::KeyUsage(usage.try_clone(alloc)?),
            ExtensionView::SubjectAltName(names) => {
                ExtensionView::SubjectAltName(names.try_clone(alloc)?)
            }
            ExtensionView::IssuerAltName(names) => {
                ExtensionView::IssuerAltName(names.try_clone(alloc)?)
            }
            ExtensionView::BasicConstraints(constraints) => {
                ExtensionView::BasicConstraints(*constraints)
            }
            ExtensionView::AuthorityKeyIdentifier(key) => {
                ExtensionView::AuthorityKeyIdentifier(key.try_clone(alloc)?)
            }
            ExtensionView::ExtendedKeyUsage(usage) => {
                ExtensionView::ExtendedKeyUsage(usage.try_clone(alloc)?)
            }
            ExtensionView::Raw(octets) => ExtensionView::Raw(octets.try_clone(alloc)?),
        })
    }

    /// Whether the values are the same.
    fn has_same_value(&self, other: &ExtensionView) -> bool
        ensures { IsTrue result ↔ (self.now ≡ other.now) }
    {
        match (self, other) {
            (ExtensionView::SubjectKeyIdentifier(a), ExtensionView::SubjectKeyIdentifier(b)) => *a
                == *b,
            (ExtensionView::KeyUsage(a), ExtensionView::KeyUsage(b)) => *a == *b,
            (ExtensionView::SubjectAltName(a), ExtensionView::SubjectAltName(b)) => *a == *b,
            (ExtensionView::IssuerAltName(a), ExtensionView::IssuerAltName(b)) => *a == *b,
            (ExtensionView::BasicConstraints(a), ExtensionView::BasicConstraints(b)) => *a == *b,
            (ExtensionView::AuthorityKeyIdentifier(a), ExtensionView::AuthorityKeyIdentifier(b)) =>
                *a == *b,
            (ExtensionView::ExtendedKeyUsage(a), ExtensionView::ExtendedKeyUsage(b)) => *a == *b,
            (ExtensionView::Raw(a), ExtensionView::Raw(b)) => *a == *b,
            _ => false,
        }
    }
}

/// Whether the octets encode a value of the kind's own structure. Alternative names that don't
/// parse are raw.
fn fits_kind(kind: ExtensionKind, octets: &[u8]) -> bool
    ensures { TellsKind kind octets.now result }
{
    match kind {
        ExtensionKind::SubjectKeyIdentifier => has_within::<Octets>(octets),
        ExtensionKind::KeyUsage => has_within::<KeyUsage>(octets),
        ExtensionKind::SubjectAltName | ExtensionKind::IssuerAltName => true,
        ExtensionKind::BasicConstraints => has_within::<BasicConstraints>(octets),
        ExtensionKind::AuthorityKeyIdentifier => has_within::<AuthorityKeyIdentifier>(octets),
        ExtensionKind::ExtendedKeyUsage => has_within::<ExtendedKeyUsage>(octets),
        ExtensionKind::Other => true,
    }
}

/// The value of the kind that the octets encode.
fn read_kind(alloc: Global, kind: ExtensionKind, octets: &[u8]) -> Result<ExtensionView, DerError>
    ensures { MatchResult result (IsValueOf kind octets.now) (RefusesKind kind octets.now) }
{
    match kind {
        ExtensionKind::SubjectKeyIdentifier => Ok(ExtensionView::SubjectKeyIdentifier(read_within(
            alloc, octets,
        )?)),
        ExtensionKind::KeyUsage => Ok(ExtensionView::KeyUsage(read_within(alloc, octets)?)),
        ExtensionKind::SubjectAltName => match read_names(alloc, octets)? {
            Some(names) => Ok(ExtensionView::SubjectAltName(names)),
            None => Ok(ExtensionView::Raw(Octets::from_slice(alloc, octets)?)),
        },
        ExtensionKind::IssuerAltName => match read_names(alloc, octets)? {
            Some(names) => Ok(ExtensionView::IssuerAltName(names)),
            None => Ok(ExtensionView::Raw(Octets::from_slice(alloc, octets)?)),
        },
        ExtensionKind::BasicConstraints => {
            Ok(ExtensionView::BasicConstraints(read_within(alloc, octets)?))
        }
        ExtensionKind::AuthorityKeyIdentifier => Ok(ExtensionView::AuthorityKeyIdentifier(
            read_within(alloc, octets)?,
        )),
        ExtensionKind::ExtendedKeyUsage => {
            Ok(ExtensionView::ExtendedKeyUsage(read_within(alloc, octets)?))
        }
        ExtensionKind::Other => Ok(ExtensionView::Raw(Octets::from_slice(alloc, octets)?)),
    }
}

/// The general names that the octets encode, `None` if they encode none.
fn read_names(alloc: Global, octets: &[u8]) -> Result<Option<RawGeneralNames>, DerError>
    ensures { MatchResult result
        (λ names. MatchOption names (HoldsNoNames octets.now) (IsWithin AreGeneralNames octets.now))
        (λ e. e ≡ errors.Memory) }
{
    if has_within::<RawGeneralNames>(octets) {
        Ok(Some(read_within(alloc, octets)?))
    } else {
        Ok(None)
    }
}

/// Values are equal exactly if their kinds and their octets are.
impl PartialEq for ExtensionView {
    ghost use Rattle.std.specs.Ordering.{on};
    ghost use Rattle.std.specs.Cmp.Lexicographic.{nat_list_eq_equiv};
    ghost use Rattle.std.specs.Cmp.{on_per, partial_equiv_from_equiv};
    ghost use Rattle.x509_types.specs.ExtensionView.{view_octets};

    ghost eq = { on (λ value. view_octets value) bytes_eq };

    ghost laws = { on_per (λ value. view_octets value)
        (partial_equiv_from_equiv nat_list_eq_equiv) };

    fn eq(&self, other: &ExtensionView) -> bool
        ensures octets { result ≡ bytes_eq (view_octets self.now) (view_octets other.now) }
        ensures same { IsTrue result ↔ (self.now ≡ other.now) }
    {
        self.has_same_value(other)
    }
}

impl Eq for ExtensionView {
    ghost use Rattle.std.specs.Cmp.Lexicographic.{nat_list_eq_equiv};
    ghost use Rattle.std.specs.Cmp.{on_equiv};
    ghost use Rattle.x509_types.specs.ExtensionView.{view_octets};

    ghost laws = { on_equiv (λ value. view_octets value) nat_list_eq_equiv };
}
