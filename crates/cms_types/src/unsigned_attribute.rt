//! Unsigned attributes of signers.

pub(crate) mod kind;
pub(crate) mod raw;
pub(crate) mod signer_values;
pub(crate) mod token_values;

use crate::levels::UnsignedFields;
use crate::shapes::{are_pkcs7s, are_signer_infos, is_unsigned_attribute};
use crate::unsigned_attribute::kind::UnsignedKind;
use crate::unsigned_attribute::raw::{RawUnsignedAttribute, write_attribute};
use crate::unsigned_attribute::signer_values::SignerValues;
use crate::unsigned_attribute::token_values::TokenValues;
use asn1_types::ObjectIdentifier;
use asn1_types::oids::{COUNTERSIGNATURE, RFC3161_COUNTER_SIGN};
use der_core::{DerError, Elem, ListOf, Structure, Tree, read_each};
use std::alloc::{AllocError, Global};

/// Unsigned attributes in order.
pub type UnsignedAttributeList = ListOf<UnsignedAttribute>;

/// An unsigned attribute of a signer (RFC 5652 5.3): its values are of the kind that its OID names,
/// and stored raw. An attribute of a known kind whose values aren't all of that kind is refused as
/// `Shape`.
#[derive(Debug, Drop)]
pub enum UnsignedAttribute {
    /// Counter-signatures (RFC 5652 11.4).
    CounterSign(SignerValues),
    /// Signed data over the signature, Microsoft's form of a counter-signature.
    MsCounterSign(TokenValues),
    /// Any other attribute.
    Raw(RawUnsignedAttribute),
}

impl Structure for UnsignedAttribute {
    ghost use Rattle.std.specs.Prelude.{◌≡◌};
    ghost use Rattle.cms_types.specs.UnsignedAttribute.{unsigned_attribute};
    ghost use Rattle.cms_types.specs.Facts.UnsignedAttributes.{unsigned_attributes};

    ghost written = { unsigned_attribute };

    ghost spells = { λ element value. element ≡ unsigned_attribute value };

    fn has_shape(elem: Elem<'_>) -> bool {
        is_unsigned_attribute(elem)
    }

    fn read_at(alloc: Global, elem: Elem<'_>) -> Result<UnsignedAttribute, DerError> {
        let Some(fields) = UnsignedFields::of(elem) else {
            return Err(DerError::Shape);
        };
        let items = read_each(alloc, fields.values)?;
        match fields.kind {
            UnsignedKind::CounterSign => {
                if !are_signer_infos(fields.values) {
                    return Err(DerError::Shape);
                }
                Ok(UnsignedAttribute::CounterSign(SignerValues { items }))
            }
            UnsignedKind::MsCounterSign => {
                if !are_pkcs7s(fields.values) {
                    return Err(DerError::Shape);
                }
                Ok(UnsignedAttribute::MsCounterSign(TokenValues { items }))
            }
            UnsignedKind::Other => {
                let ty = ObjectIdentifier::read_at(alloc, fields.ty)?;
                let values = items;
                Ok(UnsignedAttribute::Raw(RawUnsignedAttribute { ty, values }))
            }
        }
    }

    fn write(&self, alloc: Global) -> Result<Tree, DerError> {
        match self {
            UnsignedAttribute::CounterSign(values) => {
                write_attribute(alloc, COUNTERSIGNATURE, &values.items)
            }
            UnsignedAttribute::MsCounterSign(values) => {
                write_attribute(alloc, RFC3161_COUNTER_SIGN, &values.items)
            }
            UnsignedAttribute::Raw(attribute) => {
                write_attribute(alloc, attribute.ty.as_bytes(), &attribute.values)
            }
        }
    }

    fn try_clone(&self, alloc: Global) -> Result<UnsignedAttribute, AllocError> {
        Ok(match self {
            UnsignedAttribute::CounterSign(values) => {
                UnsignedAttribute::CounterSign(values.try_clone(alloc)?)
            }
            UnsignedAttribute::MsCounterSign(values) => {
                UnsignedAttribute::MsCounterSign(values.try_clone(alloc)?)
            }
            UnsignedAttribute::Raw(attribute) => {
                UnsignedAttribute::Raw(attribute.try_clone(alloc)?)
            }
        })
    }

    ghost grammar = { unsigned_attributes };
}

impl UnsignedAttribute {
    ghost use Rattle.std.specs.Prelude.{◌≡◌, ◌↔◌, IsTrue};

    /// Whether each is of the same kind, with the same values.
    fn is_same(&self, other: &UnsignedAttribute) -> bool
        ensures { IsTrue result ↔ (self.now ≡ other.now) }
    {
        match (self, other) {
            (UnsignedAttribute::CounterSign(a), UnsignedAttribute::CounterSign(b)) => a.is_same(b),
            (UnsignedAttribute::MsCounterSign(a), UnsignedAttribute::MsCounterSign(b)) => {
                a.is_same(b)
            }
            (UnsignedAttribute::Raw(a), UnsignedAttribute::Raw(b)) => a.is_same(b),
            _ => false,
        }
    }
}

/// Attributes are equal exactly where they are written as the same element.
impl PartialEq for UnsignedAttribute {
    ghost use Rattle.std.specs.Prelude.{◌≡◌, ◌↔◌, IsTrue};
    ghost use Rattle.der_core.specs.Equality.{same_octets};
    ghost use Rattle.der_core.specs.Facts.Equality.{same_octets_per};
    ghost use Rattle.cms_types.specs.UnsignedAttribute.{unsigned_attribute};

    ghost eq = { same_octets unsigned_attribute };

    ghost laws = { same_octets_per unsigned_attribute };

    fn eq(&self, other: &UnsignedAttribute) -> bool
        ensures octets { result ≡ same_octets unsigned_attribute self.now other.now }
        ensures same { IsTrue result ↔ (self.now ≡ other.now) }
        ensures written { IsTrue result
            ↔ (unsigned_attribute self.now ≡ unsigned_attribute other.now) }
    {
        self.is_same(other)
    }
}

impl Eq for UnsignedAttribute {
    ghost use Rattle.der_core.specs.Facts.Equality.{same_octets_equiv};
    ghost use Rattle.cms_types.specs.UnsignedAttribute.{unsigned_attribute};

    ghost laws = { same_octets_equiv unsigned_attribute };
}
