//! The fields of a borrowed AuthorityKeyIdentifier.

ghost use Rattle.std.specs.Prelude.{List, ℕ, Option, MatchOption};
ghost use Rattle.std.specs.Option.{option_copied};
ghost use Rattle.der_core.specs.DerElement.{DerElement};
ghost use Rattle.der_core.specs.BorrowedOption.{at_option};
ghost use Rattle.extension_types.specs.AuthorityKeyIdentifier.{IsAuthorityKeyOf};

use der_core::tag::SEQUENCE;
use der_core::{Elem, Kids};

/// The tag of the keyIdentifier.
pub(crate) const KEY_IDENTIFIER: u8 = 0x80;

/// The tag of the authorityCertIssuer.
pub(crate) const ISSUER: u8 = 0xA1;

/// The tag of the authorityCertSerialNumber.
pub(crate) const SERIAL_NUMBER: u8 = 0x82;

/// The fields of an AuthorityKeyIdentifier, the issuer's names as any element with their tag.
#[derive(Clone, Copy)]
pub(crate) struct AuthorityKeyFields<'a> {
    pub key_identifier: Option<&'a [u8]>,
    pub issuer: Option<Elem<'a>>,
    pub serial_number: Option<&'a [u8]>,
}

impl<'a> AuthorityKeyFields<'a> {
    /// The fields of the element.
    pub fn of(elem: Elem<'a>) -> Option<AuthorityKeyFields<'a>>
        ensures { MatchOption result
            ((key serial : Option (List ℕ)) (issuer : Option DerElement)
            → IsAuthorityKeyOf elem.entry.is.0 key issuer serial → ⊥)
            (λ f. IsAuthorityKeyOf elem.entry.is.0 (option_copied f.key_identifier)
            (at_option f.issuer) (option_copied f.serial_number)) }
    {
        let mut kids = Kids::of(elem, SEQUENCE)?;
        let key_identifier = kids.next_leaf(KEY_IDENTIFIER);
        let issuer = kids.next_tagged(ISSUER);
        let serial_number = kids.next_leaf(SERIAL_NUMBER);
        kids.end()?;
        Some(AuthorityKeyFields {
            key_identifier,
            issuer,
            serial_number,
        })
    }
}
