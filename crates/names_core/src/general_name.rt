//! General names.

ghost use Rattle.std.specs.Prelude.{◌≡◌, ◌↔◌, IsTrue, IfOk, Err, MatchResult};
ghost use Rattle.asn1_types.specs.Ia5String.{IsIa5, RefusesCharSet};
ghost use Rattle.asn1_types.specs.declared.error.CharSetError.TheVariants as char_set;
ghost use Rattle.names_core.specs.GeneralName.{raw_name, IsOfText};
ghost use Rattle.names_core.specs.declared.general_name.GeneralName.TheVariants as forms;

use crate::name::DirectoryName;
use asn1_types::{CharSetError, Ia5String, ObjectIdentifier};
use der_core::{Octets, Structure};
use name_types::{DirectoryString, EdiPartyName, OtherName, RawGeneralName};
use std::alloc::{AllocError, Global};

/// A name in one of eight of the nine forms (RFC 5280 4.2.1.6), all but the x400Address, with a
/// directory name that can be searched and extended. The syntax of texts and addresses isn't
/// checked.
#[derive(Debug, Drop)]
pub enum GeneralName {
    /// A name of a form that an OID identifies.
    OtherName(OtherName),
    /// An email address (RFC 5280 4.2.1.6, RFC 2821 4.1.2).
    RFC822Name(Ia5String),
    DNSName(Ia5String),
    DirectoryName(DirectoryName),
    /// The name of a party in electronic data interchange, and who assigned it.
    EDIPartyName {
        name_assigner: Option<DirectoryString>,
        party_name: DirectoryString,
    },
    URI(Ia5String),
    /// Four octets of an IPv4 address, sixteen of an IPv6 address; any number is accepted.
    IpAddress(Octets),
    RegisteredId(ObjectIdentifier),
}

impl GeneralName {
    /// The email address with this text, `CharSet` exactly if one of its octets is above 127.
    pub fn new_rfc822_name(alloc: Global, name: &str) -> Result<GeneralName, CharSetError>
        ensures made { MatchResult result
            (IsOfText forms.RFC822Name name.now)
            (RefusesCharSet (IsIa5 name.now)) }
        // A refusal comes before memory is allocated.
        ensures refused { (IsIa5 name.now → ⊥) → result ≡ Err char_set.CharSet }
    {
        Ok(GeneralName::RFC822Name(Ia5String::from_string(alloc, name)?))
    }

    /// The DNS name with this text, `CharSet` exactly if one of its octets is above 127.
    pub fn new_dns_name(alloc: Global, name: &str) -> Result<GeneralName, CharSetError>
        ensures made { MatchResult result
            (IsOfText forms.DNSName name.now)
            (RefusesCharSet (IsIa5 name.now)) }
        // A refusal comes before memory is allocated.
        ensures refused { (IsIa5 name.now → ⊥) → result ≡ Err char_set.CharSet }
    {
        Ok(GeneralName::DNSName(Ia5String::from_string(alloc, name)?))
    }

    /// The URI with this text, `CharSet` exactly if one of its octets is above 127.
    pub fn new_uri(alloc: Global, uri: &str) -> Result<GeneralName, CharSetError>
        ensures made { MatchResult result
            (IsOfText forms.URI uri.now)
            (RefusesCharSet (IsIa5 uri.now)) }
        // A refusal comes before memory is allocated.
        ensures refused { (IsIa5 uri.now → ⊥) → result ≡ Err char_set.CharSet }
    {
        Ok(GeneralName::URI(Ia5String::from_string(alloc, uri)?))
    }

    /// A directory name.
    pub fn new_directory_name(name: DirectoryName) -> GeneralName
        ensures { result ≡ forms.DirectoryName name }
    {
        GeneralName::DirectoryName(name)
    }

    /// The name of a party, and who assigned it.
    pub fn new_edi_party_name(
        party_name: DirectoryString,
        name_assigner: Option<DirectoryString>,
    ) -> GeneralName
        ensures { result ≡ forms.EDIPartyName name_assigner party_name }
    {
        GeneralName::EDIPartyName {
            name_assigner,
            party_name,
        }
    }

    /// The IP address with these octets.
    pub fn new_ip_address(alloc: Global, address: &[u8]) -> Result<GeneralName, AllocError>
        ensures { IfOk result (λ name. name ≡ forms.IpAddress address.now) }
    {
        Ok(GeneralName::IpAddress(Octets::from_slice(alloc, address)?))
    }

    /// The name that is registered under an OID.
    pub fn new_registered_id(oid: ObjectIdentifier) -> GeneralName
        ensures { result ≡ forms.RegisteredId oid }
    {
        GeneralName::RegisteredId(oid)
    }

    /// A copy of the name.
    pub fn try_clone(&self, alloc: Global) -> Result<GeneralName, AllocError>
        ensures { IfOk result (λ copy. copy ≡ self.now) }
    {
        Ok(match self {
            GeneralName::OtherName(name) => GeneralName::OtherName(name.try_clone(alloc)?),
            GeneralName::RFC822Name(text) => GeneralName::RFC822Name(copy_of(alloc, text)?),
            GeneralName::DNSName(text) => GeneralName::DNSName(copy_of(alloc, text)?),
            GeneralName::DirectoryName(name) => {
                GeneralName::DirectoryName(copy_of(alloc, name)?)
            }
            GeneralName::EDIPartyName {
                name_assigner,
                party_name,
            } => GeneralName::EDIPartyName {
                name_assigner: match name_assigner {
                    Some(assigner) => Some(assigner.try_clone(alloc)?),
                    None => None,
                },
                party_name: party_name.try_clone(alloc)?,
            },
            GeneralName::URI(text) => GeneralName::URI(copy_of(alloc, text)?),
            GeneralName::IpAddress(address) => GeneralName::IpAddress(address.try_clone(alloc)?),
            GeneralName::RegisteredId(id) => GeneralName::RegisteredId(copy_of(alloc, id)?),
        })
    }
}

/// A copy of a value whose type has its own `try_clone`, too.
fn copy_of<T: Structure>(alloc: Global, value: &T) -> Result<T, AllocError>
    ensures { IfOk result (λ copy. copy ≡ value.now) }
{
    Structure::try_clone(value, alloc)
}

impl From<RawGeneralName> for GeneralName {
    ghost from_gives = { λ raw name. raw ≡ raw_name name };

    fn from(raw: RawGeneralName) -> GeneralName {
        match raw {
            RawGeneralName::OtherName(name) => GeneralName::OtherName(name),
            RawGeneralName::Rfc822Name(text) => GeneralName::RFC822Name(text),
            RawGeneralName::DnsName(text) => GeneralName::DNSName(text),
            RawGeneralName::DirectoryName(name) => {
                GeneralName::DirectoryName(DirectoryName::from(name))
            }
            RawGeneralName::EdiPartyName(party) => GeneralName::EDIPartyName {
                name_assigner: party.name_assigner,
                party_name: party.party_name,
            },
            RawGeneralName::Uri(text) => GeneralName::URI(text),
            RawGeneralName::IpAddress(address) => GeneralName::IpAddress(address),
            RawGeneralName::RegisteredId(id) => GeneralName::RegisteredId(id),
        }
    }
}

impl From<GeneralName> for RawGeneralName {
    ghost from_gives = { λ name raw. raw ≡ raw_name name };

    fn from(name: GeneralName) -> RawGeneralName {
        match name {
            GeneralName::OtherName(name) => RawGeneralName::OtherName(name),
            GeneralName::RFC822Name(text) => RawGeneralName::Rfc822Name(text),
            GeneralName::DNSName(text) => RawGeneralName::DnsName(text),
            GeneralName::DirectoryName(name) => RawGeneralName::DirectoryName(name.into()),
            GeneralName::EDIPartyName {
                name_assigner,
                party_name,
            } => RawGeneralName::EdiPartyName(EdiPartyName {
                name_assigner,
                party_name,
            }),
            GeneralName::URI(text) => RawGeneralName::Uri(text),
            GeneralName::IpAddress(address) => RawGeneralName::IpAddress(address),
            GeneralName::RegisteredId(id) => RawGeneralName::RegisteredId(id),
        }
    }
}

/// Whether the names have the same form and the same value.
fn is_same(one: &GeneralName, other: &GeneralName) -> bool
    ensures { IsTrue result ↔ (one.now ≡ other.now) }
{
    match (one, other) {
        (GeneralName::OtherName(a), GeneralName::OtherName(b)) => *a == *b,
        (GeneralName::RFC822Name(a), GeneralName::RFC822Name(b)) => *a == *b,
        (GeneralName::DNSName(a), GeneralName::DNSName(b)) => *a == *b,
        (GeneralName::DirectoryName(a), GeneralName::DirectoryName(b)) => *a == *b,
        (
            GeneralName::EDIPartyName {
                name_assigner: a,
                party_name: p,
            },
            GeneralName::EDIPartyName {
                name_assigner: b,
                party_name: q,
            },
        ) => is_same_assigner(a, b) && *p == *q,
        (GeneralName::URI(a), GeneralName::URI(b)) => *a == *b,
        (GeneralName::IpAddress(a), GeneralName::IpAddress(b)) => *a == *b,
        (GeneralName::RegisteredId(a), GeneralName::RegisteredId(b)) => *a == *b,
        _ => false,
    }
}

/// Whether both are absent, or are the same string.
fn is_same_assigner(one: &Option<DirectoryString>, other: &Option<DirectoryString>) -> bool
    ensures { IsTrue result ↔ (one.now ≡ other.now) }
{
    match (one, other) {
        (Some(a), Some(b)) => *a == *b,
        (None, None) => true,
        _ => false,
    }
}

/// Names are equal exactly if their encodings are.
impl PartialEq for GeneralName {
    ghost use Rattle.der_core.specs.Equality.{same_octets};
    ghost use Rattle.der_core.specs.Facts.Equality.{same_octets_per};
    ghost use Rattle.names_core.specs.GeneralName.{named_element};

    ghost eq = { same_octets named_element };

    ghost laws = { same_octets_per named_element };

    fn eq(&self, other: &GeneralName) -> bool
        ensures octets { result ≡ same_octets named_element self.now other.now }
        ensures same { IsTrue result ↔ (self.now ≡ other.now) }
    {
        is_same(self, other)
    }
}

impl Eq for GeneralName {
    ghost use Rattle.der_core.specs.Facts.Equality.{same_octets_equiv};
    ghost use Rattle.names_core.specs.GeneralName.{named_element};

    ghost laws = { same_octets_equiv named_element };
}
