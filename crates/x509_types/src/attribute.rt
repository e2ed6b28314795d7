//! Attributes of requests and of signed data (RFC 2986 4.1, RFC 5652 5.3).

ghost use Rattle.std.specs.Prelude.{◌≡◌, ◌≢◌, ◌↔◌, ◌∷◌, [], IfOk, IsTrue, MatchOption};
ghost use Rattle.asn1_types.specs.Values.{identifier_contents};
ghost use Rattle.asn1_types.specs.declared.oids.TheConstants.{EXTENSION_REQUEST};
ghost use Rattle.x509_types.specs.AttributeKind.{named_attribute};
ghost use Rattle.x509_types.specs.AttributeValues.{kind_of_values};
ghost use Rattle.x509_types.specs.Facts.AttributeKinds.{same_attribute_kinds};

pub(crate) mod kind;
pub(crate) mod values;

use crate::attribute::kind::AttributeKind;
use crate::attribute::values::AttributeValues;
use crate::extension::Extensions;
use asn1_types::ObjectIdentifier;
use asn1_types::oids::EXTENSION_REQUEST;
use der_core::tag::SEQUENCE;
use der_core::{DerError, Elem, ListOf, NewKids, Structure, Tree, two_kids};
use std::alloc::{AllocError, Global};

/// Attributes in order.
pub type AttributeList = ListOf<Attribute>;

/// An attribute: its OID, and its values, whose kind the OID determines (RFC 2986 4.1, RFC 5652
/// 5.3). An attribute of a known kind with a value that doesn't parse is refused as `Shape`.
#[derive(Debug, Drop)]
pub struct Attribute {
    pub ty: ObjectIdentifier,
    pub value: AttributeValues,
    pub ghost fits: { kind_of_values value ≡ named_attribute (identifier_contents ty) } by { same_attribute_kinds (kind_of_values value)
        (named_attribute (identifier_contents ty)) },
}

impl Attribute {
    ghost use Rattle.x509_types.specs.declared.attribute.values.AttributeValues.TheVariants as values;

    /// The attribute with this OID and these values, `None` exactly if the OID is that of another
    /// kind.
    pub fn new(ty: ObjectIdentifier, value: AttributeValues) -> Option<Attribute>
        ensures { MatchOption result
            (kind_of_values value ≢ named_attribute (identifier_contents ty))
            (λ attribute. (attribute.ty ≡ ty) × (attribute.value ≡ value)) }
    {
        if value.kind() == AttributeKind::named(ty.as_bytes()) {
            Some(Attribute { ty, value })
        } else {
            None
        }
    }

    /// The attribute by which a request asks for these extensions (RFC 2985 5.4.2).
    pub fn new_extension_request(
        alloc: Global,
        extensions: Extensions,
    ) -> Result<Attribute, AllocError>
        ensures { IfOk result
            (λ attribute. (identifier_contents attribute.ty ≡ EXTENSION_REQUEST.now)
            × (attribute.value ≡ values.Extensions (extensions ∷ []))) }
    {
        let ty = ObjectIdentifier::from_known(alloc, EXTENSION_REQUEST)?;
        let mut requests = ListOf::new(alloc);
        requests.push(extensions)?;
        Ok(Attribute {
            ty,
            value: AttributeValues::Extensions(requests),
        })
    }
}

impl Structure for Attribute {
    ghost use Rattle.x509_types.specs.AttributeValues.{inner_values};
    ghost use Rattle.x509_types.specs.Attribute.{attribute, IsAttribute};
    ghost use Rattle.x509_types.specs.Facts.Attributes.{attributes};

    ghost written = { attribute };

    ghost spells = { IsAttribute };

    ghost inner = { λ a. inner_values a.value };

    fn has_shape(elem: Elem<'_>) -> bool {
        let Some((ty, values)) = two_kids(elem, SEQUENCE) else {
            return false;
        };
        match AttributeKind::at(ty) {
            Some(kind) => AttributeValues::has_shape_of(kind, values),
            None => false,
        }
    }

    fn read_at(alloc: Global, elem: Elem<'_>) -> Result<Attribute, DerError> {
        let Some((ty, values)) = two_kids(elem, SEQUENCE) else {
            return Err(DerError::Shape);
        };
        let ty = ObjectIdentifier::read_at(alloc, ty)?;
        let kind = AttributeKind::named(ty.as_bytes());
        let value = AttributeValues::read_at(alloc, kind, values)?;
        Ok(Attribute { ty, value })
    }

    fn write(&self, alloc: Global) -> Result<Tree, DerError> {
        let mut kids = NewKids::new(alloc);
        kids.push(self.ty.write(alloc)?)?;
        kids.push(self.value.write(alloc)?)?;
        Ok(kids.into_branch(SEQUENCE))
    }

    fn try_clone(&self, alloc: Global) -> Result<Attribute, AllocError> {
        Ok(Attribute {
            ty: self.ty.try_clone(alloc)?,
            value: self.value.try_clone(alloc)?,
        })
    }

    ghost grammar = { attributes };
}

/// Attributes are equal exactly if the kinds of the extension values in them and their encodings
/// are; if both can be written, the encodings alone decide.
impl PartialEq for Attribute {
    ghost use Rattle.std.specs.Ordering.{on};
    ghost use Rattle.std.specs.Cmp.Lexicographic.{nat_list_eq_equiv};
    ghost use Rattle.std.specs.Cmp.{on_per, partial_equiv_from_equiv};
    ghost use Rattle.std.specs.Prelude.{bytes_eq};
    ghost use Rattle.der_core.specs.Equality.{same_octets};
    ghost use Rattle.der_core.specs.Borrowed.{AreDer};
    ghost use Rattle.x509_types.specs.AttributeValues.{inner_values};
    ghost use Rattle.x509_types.specs.Attribute.{attribute, attribute_octets};

    ghost eq = { on (λ a. attribute_octets a) bytes_eq };

    ghost laws = { on_per (λ a. attribute_octets a) (partial_equiv_from_equiv nat_list_eq_equiv) };

    fn eq(&self, other: &Attribute) -> bool
        ensures octets { AreDer (inner_values self.now.value)
            → AreDer (inner_values other.now.value)
            → result ≡ same_octets attribute self.now other.now }
        ensures compared { result ≡ bytes_eq (attribute_octets self.now)
            (attribute_octets other.now) }
        ensures same { IsTrue result ↔ (self.now ≡ other.now) }
    {
        self.ty == other.ty && self.value == other.value
    }
}

impl Eq for Attribute {
    ghost use Rattle.std.specs.Cmp.Lexicographic.{nat_list_eq_equiv};
    ghost use Rattle.std.specs.Cmp.{on_equiv};
    ghost use Rattle.x509_types.specs.Attribute.{attribute_octets};

    ghost laws = { on_equiv (λ a. attribute_octets a) nat_list_eq_equiv };
}
