//! Extended key usages (RFC 5280 4.2.1.12).

ghost use Rattle.std.specs.Prelude.{◌≡◌, ◌↔◌, IfOk, IsTrue, bytes_eq};
ghost use Rattle.std.specs.List.{list_any};
ghost use Rattle.asn1_types.specs.Values.{identifier_contents};

use asn1_types::ObjectIdentifier;
use der_core::tag::SEQUENCE;
use der_core::{
    DerError, Elem, ListOf, Structure, Tree, copy_each, has_list, read_list, write_list,
};
use std::alloc::{AllocError, Global};

/// OIDs in order.
pub type OidList = ListOf<ObjectIdentifier>;

/// What a key may be used for, as OIDs, its KeyPurposeIds (RFC 5280 4.2.1.12). An empty list is
/// accepted, too.
#[derive(Debug, Drop)]
pub struct ExtendedKeyUsage {
    purposes: OidList,
}

impl ExtendedKeyUsage {
    /// The extended key usage with these KeyPurposeIds.
    pub fn new(list: OidList) -> ExtendedKeyUsage
        ensures { result.purposes ≡ list }
    {
        ExtendedKeyUsage { purposes: list }
    }

    /// The KeyPurposeIds in order.
    pub fn as_slice(&self) -> &[ObjectIdentifier]
        ensures { result.now ≡ self.now.purposes }
    {
        self.purposes.as_slice()
    }

    /// Whether this KeyPurposeId, given as contents octets, is in the list.
    pub fn contains(&self, oid: &[u8]) -> bool
        ensures { result ≡ list_any (λ purpose. bytes_eq (identifier_contents purpose) oid.now)
            self.now.purposes }
    {
        self.as_slice()
            .iter()
            .any(|purpose| purpose.as_bytes() == oid)
    }
}

impl Structure for ExtendedKeyUsage {
    ghost use Rattle.extension_types.specs.ExtendedKeyUsage.{extended_key_usage};
    ghost use Rattle.extension_types.specs.Facts.Usages.{extended_key_usages};

    ghost written = { extended_key_usage };

    ghost spells = { λ element usage. element ≡ extended_key_usage usage };

    fn has_shape(elem: Elem<'_>) -> bool {
        has_list::<ObjectIdentifier>(elem, SEQUENCE)
    }

    fn read_at(alloc: Global, elem: Elem<'_>) -> Result<ExtendedKeyUsage, DerError> {
        Ok(ExtendedKeyUsage {
            purposes: read_list(alloc, elem, SEQUENCE)?,
        })
    }

    fn write(&self, alloc: Global) -> Result<Tree, DerError> {
        write_list(alloc, &self.purposes, SEQUENCE)
    }

    fn try_clone(&self, alloc: Global) -> Result<ExtendedKeyUsage, AllocError> {
        Ok(ExtendedKeyUsage {
            purposes: copy_each(alloc, &self.purposes)?,
        })
    }

    ghost grammar = { extended_key_usages };
}

/// Extended key usages are equal exactly if their encodings are.
impl PartialEq for ExtendedKeyUsage {
    ghost use Rattle.der_core.specs.Equality.{same_octets};
    ghost use Rattle.der_core.specs.Facts.Equality.{same_octets_per};
    ghost use Rattle.extension_types.specs.ExtendedKeyUsage.{extended_key_usage};

    ghost eq = { same_octets extended_key_usage };

    ghost laws = { same_octets_per extended_key_usage };

    fn eq(&self, other: &ExtendedKeyUsage) -> bool
        ensures octets { result ≡ same_octets extended_key_usage self.now other.now }
        ensures same { IsTrue result ↔ (self.now ≡ other.now) }
    {
        self.purposes == other.purposes
    }
}

impl Eq for ExtendedKeyUsage {
    ghost use Rattle.der_core.specs.Facts.Equality.{same_octets_equiv};
    ghost use Rattle.extension_types.specs.ExtendedKeyUsage.{extended_key_usage};

    ghost laws = { same_octets_equiv extended_key_usage };
}
