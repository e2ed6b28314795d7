//! Attribute types in names.

ghost use Rattle.std.specs.Prelude.{◌≡◌, ◌↔◌, IsTrue, [], ◌∷◌, IfOk, IfSome, Some, Contains, length};
ghost use Rattle.asn1_types.specs.ObjectIdentifier.{contents_of};
ghost use Rattle.asn1_types.specs.Values.{arcs_of};
ghost use Rattle.name_types.specs.declared.name_attr.NameAttr.{NameAttr};
ghost use Rattle.name_types.specs.declared.name_attr.TheConstants.NameAttr as attributes;
ghost use Rattle.name_types.specs.NameAttr.{attribute_arc, attribute_arcs, attribute_descriptor};

use asn1_types::{ObjectIdentifier, oids};
use der_core::is_same;
use std::alloc::{AllocError, Global};

/// An attribute type of names, under id-at of X.520 (RFC 5280 A.1).
#[derive(Clone, Copy, PartialEq, Eq, Debug)]
pub enum NameAttr {
    CommonName,
    Surname,
    SerialNumber,
    CountryName,
    LocalityName,
    StateOrProvinceName,
    StreetName,
    OrganizationName,
    OrganizationalUnitName,
    GivenName,
}

impl NameAttr {
    /// Every attribute type.
    pub const ALL: [NameAttr; 10] = [
        NameAttr::CommonName,
        NameAttr::Surname,
        NameAttr::SerialNumber,
        NameAttr::CountryName,
        NameAttr::LocalityName,
        NameAttr::StateOrProvinceName,
        NameAttr::StreetName,
        NameAttr::OrganizationName,
        NameAttr::OrganizationalUnitName,
        NameAttr::GivenName,
    ];

    /// The attribute type whose OID has these contents octets, `None` if there is none.
    pub fn from_contents(contents: &[u8]) -> Option<NameAttr>
        ensures named { (attr : NameAttr) → contents_of (attribute_arcs attr) ≡ contents.now
            → result ≡ Some attr }
        ensures name { IfSome result (λ attr. contents_of (attribute_arcs attr) ≡ contents.now) }
    {
        for attr in NameAttr::ALL {
            if attr.oid_contents() == contents {
                return Some(attr);
            }
        }
        None
    }

    /// Whether the OID is that of the attribute type.
    pub fn is_type(self, ty: &ObjectIdentifier) -> bool
        ensures { IsTrue result ↔ (arcs_of ty.now ≡ attribute_arcs self) }
    {
        is_same(ty.as_bytes(), self.oid_contents())
    }

    /// The contents octets of the OID.
    pub fn oid_contents(self) -> &'static [u8]
        ensures { result.now ≡ contents_of (attribute_arcs self) }
    {
        self.row().0
    }

    /// The descriptor that the type prints as.
    pub fn descriptor(self) -> &'static str
        ensures { result.now ≡ attribute_descriptor self }
    {
        self.row().1
    }

    /// The contents octets of the OID, and the descriptor.
    fn row(self) -> (&'static [u8], &'static str)
        ensures octets { result.0.now ≡ 0x55 ∷ 0x04 ∷ attribute_arc self ∷ [] }
        ensures descriptor { result.1.now ≡ attribute_descriptor self }
    {
        match self {
            NameAttr::CommonName => (oids::AT_COMMON_NAME, "CN"),
            NameAttr::Surname => (oids::AT_SURNAME, "SN"),
            NameAttr::SerialNumber => (oids::AT_SERIAL_NUMBER, "SERIALNUMBER"),
            NameAttr::CountryName => (oids::AT_COUNTRY_NAME, "C"),
            NameAttr::LocalityName => (oids::AT_LOCALITY_NAME, "L"),
            NameAttr::StateOrProvinceName => (oids::AT_STATE_OR_PROVINCE_NAME, "ST"),
            NameAttr::StreetName => (oids::AT_STREET_ADDRESS, "STREET"),
            NameAttr::OrganizationName => (oids::AT_ORGANIZATION_NAME, "O"),
            NameAttr::OrganizationalUnitName => (oids::AT_ORGANIZATIONAL_UNIT_NAME, "OU"),
            NameAttr::GivenName => (oids::AT_GIVEN_NAME, "GN"),
        }
    }

    /// The OID of the attribute type.
    pub fn to_oid(self, alloc: Global) -> Result<ObjectIdentifier, AllocError>
        ensures { IfOk result (λ identifier. arcs_of identifier ≡ attribute_arcs self) }
    {
        ObjectIdentifier::from_known(alloc, self.oid_contents())
    }
}

/// `NameAttr::ALL` has each attribute type, once.
pub fn list_has_each_attribute_type()
    ensures each { (attr : NameAttr) → Contains attributes.ALL attr }
    ensures once { length attributes.ALL ≡ 10 }
{}
