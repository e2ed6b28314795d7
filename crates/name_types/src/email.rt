//! The attribute type emailAddress (RFC 2985 5.2.1).

ghost use Rattle.std.specs.Prelude.{◌≡◌, ◌↔◌, IfOk, IsTrue};
ghost use Rattle.asn1_types.specs.Values.{arcs_of};
ghost use Rattle.name_types.specs.NameText.{email_address};

use asn1_types::ObjectIdentifier;
use asn1_types::oids::EMAIL_ADDRESS;
use der_core::is_same;
use std::alloc::{AllocError, Global};

/// The OID of emailAddress.
pub fn email_address_oid(alloc: Global) -> Result<ObjectIdentifier, AllocError>
    ensures { IfOk result (λ identifier. arcs_of identifier ≡ email_address) }
{
    ObjectIdentifier::from_known(alloc, EMAIL_ADDRESS)
}

/// Whether the OID is emailAddress.
pub fn is_email_address(ty: &ObjectIdentifier) -> bool
    ensures { IsTrue result ↔ (arcs_of ty.now ≡ email_address) }
{
    is_same(ty.as_bytes(), EMAIL_ADDRESS)
}
