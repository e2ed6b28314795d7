//! General names (RFC 5280 4.2.1.6).

ghost use Rattle.std.specs.Prelude.{◌≡◌, ◌≢◌, ◌↔◌, ◌∷◌, [], List, false, IsTrue, MatchResult};
ghost use Rattle.der_core.specs.Refusals.{RefusesShape, RefusesInner};
ghost use Rattle.der_core.specs.Encoding.{IsWellFormed};
ghost use Rattle.der_core.specs.Elements.{explicit};
ghost use Rattle.name_types.specs.Name.{name};
ghost use Rattle.name_types.specs.declared.attribute.AttributeTypeAndValue.{AttributeTypeAndValue};

use crate::edi_party_name::{EDI_PARTY_NAME, EdiPartyName};
use crate::name::Name;
use crate::other_name::{OTHER_NAME, OtherName};
use crate::tagging::{has_identifier, has_text, read_identifier, read_text};
use asn1_types::{Ia5String, ObjectIdentifier};
use der_core::{DerError, Elem, Octets, Structure, Tree, explicit, explicit_at, leaf};
use std::alloc::{AllocError, Global};

const RFC822_NAME: u8 = 0x81;

const DNS_NAME: u8 = 0x82;

const DIRECTORY_NAME: u8 = 0xA4;

const URI: u8 = 0x86;

const IP_ADDRESS: u8 = 0x87;

const REGISTERED_ID: u8 = 0x88;

/// A name in one of eight of the nine forms (RFC 5280 4.2.1.6), all but the x400Address. A reader
/// doesn't check the syntax of texts and addresses.
#[derive(Debug, Drop)]
pub enum RawGeneralName {
    OtherName(OtherName),
    /// An email address (RFC 5280 4.2.1.6, RFC 2821 4.1.2).
    Rfc822Name(Ia5String),
    DnsName(Ia5String),
    DirectoryName(Name),
    EdiPartyName(EdiPartyName),
    Uri(Ia5String),
    IpAddress(Octets),
    RegisteredId(ObjectIdentifier),
}

impl Structure for RawGeneralName {
    ghost use Rattle.name_types.specs.GeneralName.{general_name};
    ghost use Rattle.name_types.specs.Facts.GeneralNames.{general_name_forms};

    ghost written = { general_name };

    ghost spells = { λ element name. element ≡ general_name name };

    fn has_shape(elem: Elem<'_>) -> bool {
        match elem.tag {
            OTHER_NAME => OtherName::has_shape(elem),
            RFC822_NAME => has_text(elem, RFC822_NAME),
            DNS_NAME => has_text(elem, DNS_NAME),
            DIRECTORY_NAME => has_directory_name(elem),
            EDI_PARTY_NAME => EdiPartyName::has_shape(elem),
            URI => has_text(elem, URI),
            IP_ADDRESS => true,
            REGISTERED_ID => has_identifier(elem, REGISTERED_ID),
            _ => false,
        }
    }

    fn read_at(alloc: Global, elem: Elem<'_>) -> Result<RawGeneralName, DerError> {
        match elem.tag {
            OTHER_NAME => Ok(RawGeneralName::OtherName(OtherName::read_at(alloc, elem)?)),
            RFC822_NAME => Ok(RawGeneralName::Rfc822Name(read_text(alloc, elem, RFC822_NAME)?)),
            DNS_NAME => Ok(RawGeneralName::DnsName(read_text(alloc, elem, DNS_NAME)?)),
            DIRECTORY_NAME => Ok(RawGeneralName::DirectoryName(read_directory_name(alloc, elem)?)),
            EDI_PARTY_NAME => Ok(RawGeneralName::EdiPartyName(EdiPartyName::read_at(alloc, elem)?)),
            URI => Ok(RawGeneralName::Uri(read_text(alloc, elem, URI)?)),
            IP_ADDRESS => Ok(RawGeneralName::IpAddress(Octets::from_slice(alloc, elem.content)?)),
            REGISTERED_ID => Ok(RawGeneralName::RegisteredId(read_identifier(
                alloc,
                elem,
                REGISTERED_ID,
            )?)),
            _ => Err(DerError::Shape),
        }
    }

    fn write(&self, alloc: Global) -> Result<Tree, DerError> {
        match self {
            RawGeneralName::OtherName(name) => name.write(alloc),
            RawGeneralName::Rfc822Name(text) => {
                Ok(leaf(alloc, RFC822_NAME, text.as_str().as_bytes())?)
            }
            RawGeneralName::DnsName(text) => Ok(leaf(alloc, DNS_NAME, text.as_str().as_bytes())?),
            RawGeneralName::DirectoryName(name) => {
                Ok(explicit(alloc, DIRECTORY_NAME, name.write(alloc)?)?)
            }
            RawGeneralName::EdiPartyName(name) => name.write(alloc),
            RawGeneralName::Uri(text) => Ok(leaf(alloc, URI, text.as_str().as_bytes())?),
            RawGeneralName::IpAddress(address) => {
                Ok(leaf(alloc, IP_ADDRESS, address.as_slice())?)
            }
            RawGeneralName::RegisteredId(id) => Ok(leaf(alloc, REGISTERED_ID, id.as_bytes())?),
        }
    }

    fn try_clone(&self, alloc: Global) -> Result<RawGeneralName, AllocError> {
        Ok(match self {
            RawGeneralName::OtherName(name) => RawGeneralName::OtherName(name.try_clone(alloc)?),
            RawGeneralName::Rfc822Name(text) => {
                RawGeneralName::Rfc822Name(Structure::try_clone(text, alloc)?)
            }
            RawGeneralName::DnsName(text) => {
                RawGeneralName::DnsName(Structure::try_clone(text, alloc)?)
            }
            RawGeneralName::DirectoryName(name) => {
                RawGeneralName::DirectoryName(name.try_clone(alloc)?)
            }
            RawGeneralName::EdiPartyName(name) => {
                RawGeneralName::EdiPartyName(name.try_clone(alloc)?)
            }
            RawGeneralName::Uri(text) => RawGeneralName::Uri(Structure::try_clone(text, alloc)?),
            RawGeneralName::IpAddress(address) => {
                RawGeneralName::IpAddress(address.try_clone(alloc)?)
            }
            RawGeneralName::RegisteredId(id) => {
                RawGeneralName::RegisteredId(Structure::try_clone(id, alloc)?)
            }
        })
    }

    ghost grammar = { general_name_forms };
}

/// Whether the element is a Name under its explicit tag.
fn has_directory_name(elem: Elem<'_>) -> bool
    ensures fits { IsTrue result
        → (sets : List (List AttributeTypeAndValue))
        × (elem.entry.is.0 ≡ explicit 0xA4 (name sets)) }
    ensures unfit { result ≡ false → (sets : List (List AttributeTypeAndValue))
        → elem.entry.is.0 ≢ explicit 0xA4 (name sets) }
{
    match explicit_at(elem, DIRECTORY_NAME) {
        Some(name) => Name::has_shape(name),
        None => false,
    }
}

/// The Name under its explicit tag.
fn read_directory_name(alloc: Global, elem: Elem<'_>) -> Result<Name, DerError>
    ensures { MatchResult result (λ sets. elem.entry.is.0 ≡ explicit 0xA4 (name sets))
        (RefusesShape (λ (sets : List (List AttributeTypeAndValue)). elem.entry.is.0 ≡ explicit 0xA4
        (name sets))) }
{
    match explicit_at(elem, DIRECTORY_NAME) {
        Some(name) => Name::read_at(alloc, name),
        None => Err(DerError::Shape),
    }
}

/// Whether the names have the same form and the same value.
fn is_same(one: &RawGeneralName, other: &RawGeneralName) -> bool
    ensures { IsTrue result ↔ (one.now ≡ other.now) }
{
    match (one, other) {
        (RawGeneralName::OtherName(a), RawGeneralName::OtherName(b)) => *a == *b,
        (RawGeneralName::Rfc822Name(a), RawGeneralName::Rfc822Name(b)) => *a == *b,
        (RawGeneralName::DnsName(a), RawGeneralName::DnsName(b)) => *a == *b,
        (RawGeneralName::DirectoryName(a), RawGeneralName::DirectoryName(b)) => *a == *b,
        (RawGeneralName::EdiPartyName(a), RawGeneralName::EdiPartyName(b)) => *a == *b,
        (RawGeneralName::Uri(a), RawGeneralName::Uri(b)) => *a == *b,
        (RawGeneralName::IpAddress(a), RawGeneralName::IpAddress(b)) => *a == *b,
        (RawGeneralName::RegisteredId(a), RawGeneralName::RegisteredId(b)) => *a == *b,
        _ => false,
    }
}

/// Names are equal exactly if their encodings are.
impl PartialEq for RawGeneralName {
    ghost use Rattle.der_core.specs.Equality.{same_octets};
    ghost use Rattle.der_core.specs.Facts.Equality.{same_octets_per};
    ghost use Rattle.name_types.specs.GeneralName.{general_name};

    ghost eq = { same_octets general_name };

    ghost laws = { same_octets_per general_name };

    fn eq(&self, other: &RawGeneralName) -> bool
        ensures octets { result ≡ same_octets general_name self.now other.now }
        ensures same { IsTrue result ↔ (self.now ≡ other.now) }
    {
        is_same(self, other)
    }
}

impl Eq for RawGeneralName {
    ghost use Rattle.der_core.specs.Facts.Equality.{same_octets_equiv};
    ghost use Rattle.name_types.specs.GeneralName.{general_name};

    ghost laws = { same_octets_equiv general_name };
}
