//! Extensions of certificates (RFC 5280 4.1.2.9, 4.2).

ghost use Rattle.std.specs.Prelude.{◌≡◌, ◌↔◌, true, false, Some, Err, IfOk, IsTrue, MatchResult};
ghost use Rattle.der_core.specs.declared.error.DerError.TheVariants as errors;
ghost use Rattle.asn1_types.specs.Values.{identifier_contents};
ghost use Rattle.asn1_types.specs.KnownIdentifiers.{is_known};
ghost use Rattle.asn1_types.specs.declared.oids.TheConstants.{CE_SUBJECT_KEY_IDENTIFIER, CE_KEY_USAGE, CE_SUBJECT_ALT_NAME, CE_ISSUER_ALT_NAME, CE_BASIC_CONSTRAINTS, CE_AUTHORITY_KEY_IDENTIFIER, CE_EXT_KEY_USAGE};
ghost use Rattle.x509_types.specs.ExtensionView.{named_kind, IsOfKind};
ghost use Rattle.x509_types.specs.Facts.ExtensionViews.{IsOfKind-prop};

pub(crate) mod fields;
pub(crate) mod first;
pub(crate) mod parts;
pub(crate) mod purposes;
pub(crate) mod view;

use crate::extension::fields::{ExtensionFields, kind_at};
use crate::extension::view::{ExtensionKind, ExtensionView};
use asn1_types::ObjectIdentifier;
use asn1_types::oids::{
    CE_AUTHORITY_KEY_IDENTIFIER, CE_BASIC_CONSTRAINTS, CE_EXT_KEY_USAGE, CE_ISSUER_ALT_NAME,
    CE_KEY_USAGE, CE_SUBJECT_ALT_NAME, CE_SUBJECT_KEY_IDENTIFIER,
};
use der_core::tag::{OCTET_STRING, SEQUENCE};
use der_core::{DerError, Elem, ListOf, NewKids, Octets, Structure, Tree, write_boolean};
use extension_types::{AuthorityKeyIdentifier, BasicConstraints, ExtendedKeyUsage, KeyUsage};
use name_types::RawGeneralNames;
use std::alloc::{AllocError, Global};

/// Extensions in order (RFC 5280 4.1).
pub type Extensions = ListOf<Extension>;

/// An extension: its OID, whether it is critical, and its value, whose kind the OID determines (RFC
/// 5280 4.1, 4.2). An extension of a known kind whose value doesn't parse is refused as `Shape`;
/// only alternative names that don't parse are raw.
#[derive(Debug, Drop)]
pub struct Extension {
    extn_id: ObjectIdentifier,
    critical: bool,
    extn_value: ExtensionView,
    pub ghost agrees: { IsOfKind (named_kind (identifier_contents extn_id)) extn_value } by { IsOfKind-prop (named_kind (identifier_contents extn_id)) extn_value },
}

impl Extension {
    ghost use Rattle.extension_types.specs.AuthorityKeyIdentifier.{key_of_identifier};
    ghost use Rattle.extension_types.specs.BasicConstraints.{constraints_with};
    ghost use Rattle.der_core.specs.Refusals.{RefusesShape};
    ghost use Rattle.x509_types.specs.Extension.{IsPlainExtension, IsNamedValue, IsRawExtension};
    ghost use Rattle.x509_types.specs.declared.extension.view.ExtensionView.{ExtensionView};
    ghost use Rattle.x509_types.specs.declared.extension.view.ExtensionView.TheVariants as views;

    /// Basic constraints, not critical: whether the subject is a CA, and the path length (RFC 5280
    /// 4.2.1.9). The flag is written even if it is false. Fails only with `Memory`.
    pub fn new_basic_constraints(
        alloc: Global,
        ca: bool,
        pathlen: Option<u8>,
    ) -> Result<Extension, DerError>
        ensures { MatchResult result
            (λ e. IsPlainExtension e CE_BASIC_CONSTRAINTS.now
            (views.BasicConstraints (constraints_with (Some ca) pathlen)))
            (λ e. e ≡ errors.Memory) }
    {
        let constraints = BasicConstraints::new(Some(ca), pathlen);
        let value = ExtensionView::BasicConstraints(constraints);
        Ok(Extension::plain(alloc, CE_BASIC_CONSTRAINTS, value)?)
    }

    /// Key usage, not critical: what the key may be used for, as bits (RFC 5280 4.2.1.3). Fails
    /// only with `Memory`.
    pub fn new_key_usage(alloc: Global, usage: KeyUsage) -> Result<Extension, DerError>
        ensures { MatchResult result
            (λ e. IsPlainExtension e CE_KEY_USAGE.now (views.KeyUsage usage))
            (λ e. e ≡ errors.Memory) }
    {
        let value = ExtensionView::KeyUsage(usage);
        Ok(Extension::plain(alloc, CE_KEY_USAGE, value)?)
    }

    /// Extended key usage, not critical: what the key may be used for, as OIDs (RFC 5280 4.2.1.12).
    /// Fails only with `Memory`.
    pub fn new_extended_key_usage(
        alloc: Global,
        usage: ExtendedKeyUsage,
    ) -> Result<Extension, DerError>
        ensures { MatchResult result
            (λ e. IsPlainExtension e CE_EXT_KEY_USAGE.now (views.ExtendedKeyUsage usage))
            (λ e. e ≡ errors.Memory) }
    {
        let value = ExtensionView::ExtendedKeyUsage(usage);
        Ok(Extension::plain(alloc, CE_EXT_KEY_USAGE, value)?)
    }

    /// Alternative names of the subject, not critical (RFC 5280 4.2.1.6). Fails only with `Memory`.
    pub fn new_subject_alt_name(
        alloc: Global,
        names: RawGeneralNames,
    ) -> Result<Extension, DerError>
        ensures { MatchResult result
            (λ e. IsPlainExtension e CE_SUBJECT_ALT_NAME.now (views.SubjectAltName names))
            (λ e. e ≡ errors.Memory) }
    {
        let value = ExtensionView::SubjectAltName(names);
        Ok(Extension::plain(alloc, CE_SUBJECT_ALT_NAME, value)?)
    }

    /// Alternative names of the issuer, not critical (RFC 5280 4.2.1.7). Fails only with `Memory`.
    pub fn new_issuer_alt_name(alloc: Global, names: RawGeneralNames) -> Result<Extension, DerError>
        ensures { MatchResult result
            (λ e. IsPlainExtension e CE_ISSUER_ALT_NAME.now (views.IssuerAltName names))
            (λ e. e ≡ errors.Memory) }
    {
        let value = ExtensionView::IssuerAltName(names);
        Ok(Extension::plain(alloc, CE_ISSUER_ALT_NAME, value)?)
    }

    /// The subject key identifier with these octets, not critical (RFC 5280 4.2.1.2). Fails only
    /// with `Memory`.
    pub fn new_subject_key_identifier(alloc: Global, key: &[u8]) -> Result<Extension, DerError>
        ensures { MatchResult result
            (λ e. IsPlainExtension e CE_SUBJECT_KEY_IDENTIFIER.now
            (views.SubjectKeyIdentifier key.now))
            (λ e. e ≡ errors.Memory) }
    {
        let value = ExtensionView::SubjectKeyIdentifier(Octets::from_slice(alloc, key)?);
        Ok(Extension::plain(alloc, CE_SUBJECT_KEY_IDENTIFIER, value)?)
    }

    /// The authority key identifier with this keyIdentifier alone, not critical (RFC 5280 4.2.1.1).
    /// Fails only with `Memory`.
    pub fn new_authority_key_identifier(alloc: Global, key: &[u8]) -> Result<Extension, DerError>
        ensures { MatchResult result
            (λ e. IsPlainExtension e CE_AUTHORITY_KEY_IDENTIFIER.now
            (views.AuthorityKeyIdentifier (key_of_identifier key.now)))
            (λ e. e ≡ errors.Memory) }
    {
        let identifier = AuthorityKeyIdentifier::from_key_identifier(alloc, key)?;
        let value = ExtensionView::AuthorityKeyIdentifier(identifier);
        Ok(Extension::plain(alloc, CE_AUTHORITY_KEY_IDENTIFIER, value)?)
    }

    /// The extension with a known OID and a value of its kind, not critical.
    fn plain(alloc: Global, oid: &[u8], extn_value: ExtensionView) -> Result<Extension, AllocError>
        requires { IsTrue (is_known oid.now) × IsOfKind (named_kind oid.now) extn_value }
        ensures { IfOk result (λ e. IsPlainExtension e oid.now extn_value) }
    {
        let extn_id = ObjectIdentifier::from_known(alloc, oid)?;
        Ok(Extension {
            extn_id,
            critical: false,
            extn_value,
        })
    }

    /// The extension with this OID and with these octets in its OCTET STRING, not critical. The
    /// octets are parsed if the OID is of a known kind, and refused as `Shape` if that fails;
    /// alternative names that don't parse are raw.
    pub fn new_raw(
        alloc: Global,
        oid: ObjectIdentifier,
        value: &[u8],
    ) -> Result<Extension, DerError>
        ensures made { MatchResult result
            (λ e. IsRawExtension e oid value.now)
            (RefusesShape (IsNamedValue oid value.now)) }
        // Even if memory runs out.
        ensures shapeless { ((view : ExtensionView) → IsNamedValue oid value.now view → ⊥)
            → result ≡ Err errors.Shape }
    {
        let kind = ExtensionKind::named(oid.as_bytes());
        if !ExtensionView::has_value(kind, value) {
            return Err(DerError::Shape);
        }
        let extn_value = ExtensionView::read(alloc, kind, value)?;
        Ok(Extension {
            extn_id: oid,
            critical: false,
            extn_value,
        })
    }

    /// Whether the OIDs and the flags are the same.
    fn has_same_id_and_flag(&self, other: &Extension) -> bool
        ensures { IsTrue result
            ↔ ((self.now.extn_id ≡ other.now.extn_id) × (self.now.critical ≡ other.now.critical)) }
    {
        self.extn_id == other.extn_id && self.critical == other.critical
    }

    /// The extension, critical: a system that doesn't recognize it must reject the certificate (RFC
    /// 5280 4.2).
    pub fn into_critical(self) -> Extension
        ensures { (result.extn_id ≡ self.extn_id) × (result.critical ≡ true)
            × (result.extn_value ≡ self.extn_value) }
    {
        let Extension {
            extn_id,
            extn_value,
            ..
        } = self;
        Extension {
            extn_id,
            critical: true,
            extn_value,
        }
    }

    /// The extension, not critical.
    pub fn into_non_critical(self) -> Extension
        ensures { (result.extn_id ≡ self.extn_id) × (result.critical ≡ false)
            × (result.extn_value ≡ self.extn_value) }
    {
        let Extension {
            extn_id,
            extn_value,
            ..
        } = self;
        Extension {
            extn_id,
            critical: false,
            extn_value,
        }
    }

    /// The OID of the extension.
    pub fn extn_id(&self) -> &ObjectIdentifier
        ensures { result.now ≡ self.now.extn_id }
    {
        &self.extn_id
    }

    /// Whether the extension is critical.
    pub fn critical(&self) -> bool
        ensures { result ≡ self.now.critical }
    {
        self.critical
    }

    /// The value of the extension.
    pub fn extn_value(&self) -> &ExtensionView
        ensures { result.now ≡ self.now.extn_value }
    {
        &self.extn_value
    }
}

impl Structure for Extension {
    ghost use Rattle.x509_types.specs.ExtensionView.{inner_value};
    ghost use Rattle.x509_types.specs.Extension.{extension, IsExtension};
    ghost use Rattle.x509_types.specs.Facts.Extensions.{all_extensions};

    ghost written = { extension };

    ghost spells = { IsExtension };

    ghost inner = { λ e. inner_value e.extn_value };

    fn has_shape(elem: Elem<'_>) -> bool {
        let Some(fields) = ExtensionFields::of(elem) else {
            return false;
        };
        match kind_at(fields.oid) {
            Some(kind) => ExtensionView::has_value(kind, fields.value),
            None => false,
        }
    }

    fn read_at(alloc: Global, elem: Elem<'_>) -> Result<Extension, DerError> {
        let Some(fields) = ExtensionFields::of(elem) else {
            return Err(DerError::Shape);
        };
        let extn_id = ObjectIdentifier::read_at(alloc, fields.oid)?;
        let kind = ExtensionKind::named(extn_id.as_bytes());
        let extn_value = ExtensionView::read(alloc, kind, fields.value)?;
        Ok(Extension {
            extn_id,
            critical: fields.critical,
            extn_value,
        })
    }

    fn write(&self, alloc: Global) -> Result<Tree, DerError> {
        let mut kids = NewKids::new(alloc);
        kids.push(self.extn_id.write(alloc)?)?;
        if self.critical {
            kids.push(write_boolean(alloc, true)?)?;
        }
        let value = self.extn_value.write(alloc)?;
        kids.push(Tree::leaf(OCTET_STRING, Octets::from(value)))?;
        Ok(kids.into_branch(SEQUENCE))
    }

    fn try_clone(&self, alloc: Global) -> Result<Extension, AllocError> {
        Ok(Extension {
            extn_id: self.extn_id.try_clone(alloc)?,
            critical: self.critical,
            extn_value: self.extn_value.try_clone(alloc)?,
        })
    }

    ghost grammar = { all_extensions };
}

/// Extensions are equal exactly if the kinds of their values and their encodings are; if both can
/// be written, the encodings alone decide.
impl PartialEq for Extension {
    ghost use Rattle.std.specs.Ordering.{on};
    ghost use Rattle.std.specs.Cmp.Lexicographic.{nat_list_eq_equiv};
    ghost use Rattle.std.specs.Cmp.{on_per, partial_equiv_from_equiv};
    ghost use Rattle.std.specs.Prelude.{bytes_eq};
    ghost use Rattle.der_core.specs.Equality.{same_octets};
    ghost use Rattle.der_core.specs.Borrowed.{AreDer};
    ghost use Rattle.x509_types.specs.ExtensionView.{inner_value};
    ghost use Rattle.x509_types.specs.Extension.{extension, extension_octets};

    ghost eq = { on (λ e. extension_octets e) bytes_eq };

    ghost laws = { on_per (λ e. extension_octets e) (partial_equiv_from_equiv nat_list_eq_equiv) };

    fn eq(&self, other: &Extension) -> bool
        ensures octets { AreDer (inner_value self.now.extn_value)
            → AreDer (inner_value other.now.extn_value)
            → result ≡ same_octets extension self.now other.now }
        ensures compared { result ≡ bytes_eq (extension_octets self.now)
            (extension_octets other.now) }
        ensures same { IsTrue result ↔ (self.now ≡ other.now) }
    {
        self.has_same_id_and_flag(other) && self.extn_value == other.extn_value
    }
}

impl Eq for Extension {
    ghost use Rattle.std.specs.Cmp.Lexicographic.{nat_list_eq_equiv};
    ghost use Rattle.std.specs.Cmp.{on_equiv};
    ghost use Rattle.x509_types.specs.Extension.{extension_octets};

    ghost laws = { on_equiv (λ e. extension_octets e) nat_list_eq_equiv };
}
