//! Signers.

ghost use Rattle.std.specs.Prelude.{◌≡◌, ◌↔◌, IsTrue};

pub(crate) mod fields;
pub(crate) mod identifier;
pub(crate) mod issuer_and_serial;
mod parts;
pub(crate) mod signed_attributes;
pub(crate) mod view;

use crate::list_fields::push_list;
use crate::shapes::is_signer_info;
use crate::signer_info::fields::{SignerFields, UNSIGNED_ATTRIBUTES};
use crate::signer_info::identifier::SignerIdentifier;
use crate::signer_info::parts::{SignatureFields, SignedBy, join};
use crate::signer_info::signed_attributes::SignedAttributes;
use crate::unsigned_attribute::UnsignedAttributeList;
use crate::version::CmsVersion;
use der_core::tag::SEQUENCE;
use der_core::{DerError, Elem, NewKids, Octets, Structure, Tree, push_value};
use key_types::AlgorithmIdentifier;
use std::alloc::{AllocError, Global};

/// A signer: the identifier of its certificate, what it signs and how, and its signature (RFC 5652
/// 5.3).
#[derive(Debug, Drop)]
pub struct SignerInfo {
    pub version: CmsVersion,
    pub sid: SignerIdentifier,
    pub digest_algorithm: AlgorithmIdentifier,
    pub signed_attrs: Option<SignedAttributes>,
    pub signature_algorithm: AlgorithmIdentifier,
    pub signature: Octets,
    pub unsigned_attrs: Option<UnsignedAttributeList>,
}

impl SignerFields<'_> {
    ghost use Rattle.std.specs.Prelude.{MatchResult};
    ghost use Rattle.der_core.specs.Refusals.{RefusesShape};
    ghost use Rattle.cms_types.specs.Borrowed.{signer_at};
    ghost use Rattle.cms_types.specs.SignerInfo.{AreFieldsOf};

    /// Reads the value from the fields.
    fn read(&self, alloc: Global) -> Result<SignerInfo, DerError>
        ensures { MatchResult result
            (AreFieldsOf (signer_at self.now))
            (RefusesShape (AreFieldsOf (signer_at self.now))) }
    {
        let version = CmsVersion::read_at(alloc, self.version)?;
        let signed = SignatureFields::read(alloc, self)?;
        let by = SignedBy::read(alloc, self)?;
        Ok(join(version, by, signed))
    }
}

impl SignerInfo {
    /// Whether the attributes are the same, signed and unsigned.
    fn has_same_attributes(&self, other: &SignerInfo) -> bool
        ensures { IsTrue result
            ↔ (self.now.signed_attrs ≡ other.now.signed_attrs)
            × (self.now.unsigned_attrs ≡ other.now.unsigned_attrs) }
    {
        are_same_signed(&self.signed_attrs, &other.signed_attrs)
            && are_same_unsigned(&self.unsigned_attrs, &other.unsigned_attrs)
    }

    /// Whether the signatures are the same, with both algorithms.
    fn has_same_signature(&self, other: &SignerInfo) -> bool
        ensures { IsTrue result
            ↔ (self.now.digest_algorithm ≡ other.now.digest_algorithm)
            × ((self.now.signature_algorithm ≡ other.now.signature_algorithm)
            × (self.now.signature ≡ other.now.signature)) }
    {
        self.digest_algorithm == other.digest_algorithm
            && self.signature_algorithm == other.signature_algorithm
            && self.signature == other.signature
    }

    /// Whether each field is the same.
    fn is_same(&self, other: &SignerInfo) -> bool
        ensures { IsTrue result ↔ (self.now ≡ other.now) }
    {
        self.has_same_attributes(other)
            && self.has_same_signature(other)
            && self.version == other.version
            && self.sid == other.sid
    }
}

/// Whether the signed attributes are the same, present or absent.
fn are_same_signed(a: &Option<SignedAttributes>, b: &Option<SignedAttributes>) -> bool
    ensures { IsTrue result ↔ (a.now ≡ b.now) }
{
    a == b
}

/// Whether the unsigned attributes are the same, present or absent.
fn are_same_unsigned(a: &Option<UnsignedAttributeList>, b: &Option<UnsignedAttributeList>) -> bool
    ensures { IsTrue result ↔ (a.now ≡ b.now) }
{
    a == b
}

impl Structure for SignerInfo {
    ghost use Rattle.cms_types.specs.SignerInfo.{signer_info};
    ghost use Rattle.cms_types.specs.Facts.SignerInfos.{signer_infos};

    ghost written = { signer_info };

    ghost spells = { λ element value. element ≡ signer_info value };

    fn has_shape(elem: Elem<'_>) -> bool {
        is_signer_info(elem)
    }

    fn read_at(alloc: Global, elem: Elem<'_>) -> Result<SignerInfo, DerError> {
        match SignerFields::of(elem) {
            Some(fields) => fields.read(alloc),
            None => Err(DerError::Shape),
        }
    }

    fn write(&self, alloc: Global) -> Result<Tree, DerError> {
        let mut kids = NewKids::new(alloc);
        push_value(alloc, &mut kids, &self.version)?;
        push_value(alloc, &mut kids, &self.sid)?;
        push_value(alloc, &mut kids, &self.digest_algorithm)?;
        if let Some(attributes) = &self.signed_attrs {
            push_value(alloc, &mut kids, attributes)?;
        }
        push_value(alloc, &mut kids, &self.signature_algorithm)?;
        push_value(alloc, &mut kids, &self.signature)?;
        push_list(alloc, &mut kids, UNSIGNED_ATTRIBUTES, &self.unsigned_attrs)?;
        Ok(kids.into_branch(SEQUENCE))
    }

    fn try_clone(&self, alloc: Global) -> Result<SignerInfo, AllocError> {
        let signed = SignatureFields::copy(alloc, self)?;
        let by = SignedBy::copy(alloc, self)?;
        Ok(join(self.version, by, signed))
    }

    ghost grammar = { signer_infos };
}

/// Signers are equal exactly where they are written as the same element.
impl PartialEq for SignerInfo {
    ghost use Rattle.der_core.specs.Equality.{same_octets};
    ghost use Rattle.der_core.specs.Facts.Equality.{same_octets_per};
    ghost use Rattle.cms_types.specs.SignerInfo.{signer_info};

    ghost eq = { same_octets signer_info };

    ghost laws = { same_octets_per signer_info };

    fn eq(&self, other: &SignerInfo) -> bool
        ensures octets { result ≡ same_octets signer_info self.now other.now }
        ensures same { IsTrue result ↔ (self.now ≡ other.now) }
        ensures written { IsTrue result ↔ (signer_info self.now ≡ signer_info other.now) }
    {
        self.is_same(other)
    }
}

impl Eq for SignerInfo {
    ghost use Rattle.der_core.specs.Facts.Equality.{same_octets_equiv};
    ghost use Rattle.cms_types.specs.SignerInfo.{signer_info};

    ghost laws = { same_octets_equiv signer_info };
}
