//! Authority key identifiers (RFC 5280 4.2.1.1).

ghost use Rattle.std.specs.Prelude.{◌≡◌, ◌↔◌, IfOk, IsTrue};
ghost use Rattle.std.specs.Option.{option_copied};
ghost use Rattle.der_core.specs.BorrowedOption.{at_option, kept_option};
ghost use Rattle.extension_types.specs.AuthorityIssuer.{HasIssuerTag};
ghost use Rattle.extension_types.specs.Facts.Issuers.{HasIssuerTag-prop};

use crate::authority_key_fields::{AuthorityKeyFields, KEY_IDENTIFIER, SERIAL_NUMBER};
use der_core::tag::SEQUENCE;
use der_core::{
    DerError, Elem, NewKids, Octets, Raw, Structure, Tree, copy_octets, copy_option, push_leaf,
};
use std::alloc::{AllocError, Global};

/// The key that signed a certificate: its key identifier, or the issuer and serial number of the
/// CA's certificate (RFC 5280 4.2.1.1). The issuer is a raw element with the tag [1], the serial
/// number contents octets of any length.
#[derive(Debug, Drop)]
pub struct AuthorityKeyIdentifier {
    key_identifier: Option<Octets>,
    issuer: Option<Raw>,
    serial_number: Option<Octets>,
    pub ghost tagged: { HasIssuerTag (kept_option issuer) } by { HasIssuerTag-prop (kept_option issuer) },
}

impl AuthorityKeyIdentifier {
    ghost use Rattle.extension_types.specs.AuthorityKeyIdentifier.{key_of_identifier};

    /// The authority key identifier with this keyIdentifier alone.
    pub fn from_key_identifier(
        alloc: Global,
        key_identifier: &[u8],
    ) -> Result<AuthorityKeyIdentifier, AllocError>
        ensures { IfOk result (λ a. a ≡ key_of_identifier key_identifier.now) }
    {
        Ok(AuthorityKeyIdentifier {
            key_identifier: Some(Octets::from_slice(alloc, key_identifier)?),
            issuer: None,
            serial_number: None,
        })
    }

    /// The octets of the keyIdentifier, `None` if it is absent.
    pub fn key_identifier(&self) -> Option<&[u8]>
        ensures { option_copied result ≡ self.now.key_identifier }
    {
        self.key_identifier.as_ref().map(Octets::as_slice)
    }

    /// The raw element of the issuer of the CA's certificate, with the tag [1], `None` if it is
    /// absent.
    pub fn issuer(&self) -> Option<&Raw>
        ensures { option_copied result ≡ self.now.issuer }
    {
        self.issuer.as_ref()
    }

    /// The contents octets of the serial number of the CA's certificate, `None` if it is absent.
    pub fn serial_number(&self) -> Option<&[u8]>
        ensures { option_copied result ≡ self.now.serial_number }
    {
        self.serial_number.as_ref().map(Octets::as_slice)
    }
}

/// A copy of an element that may be absent.
fn keep_elem(alloc: Global, elem: Option<Elem<'_>>) -> Result<Option<Raw>, AllocError>
    ensures { IfOk result (λ kept. kept_option kept ≡ at_option elem.entry) }
{
    Ok(match elem {
        Some(elem) => Some(Raw::from_elem(alloc, elem)?),
        None => None,
    })
}

impl Structure for AuthorityKeyIdentifier {
    ghost use Rattle.extension_types.specs.AuthorityKeyIdentifier.{authority_key_identifier};
    ghost use Rattle.extension_types.specs.Facts.AuthorityKeys.{authority_key_identifiers};

    ghost written = { authority_key_identifier };

    ghost spells = { λ element a. element ≡ authority_key_identifier a };

    fn has_shape(elem: Elem<'_>) -> bool {
        AuthorityKeyFields::of(elem).is_some()
    }

    fn read_at(alloc: Global, elem: Elem<'_>) -> Result<AuthorityKeyIdentifier, DerError> {
        let Some(fields) = AuthorityKeyFields::of(elem) else {
            return Err(DerError::Shape);
        };
        let key_identifier = copy_octets(alloc, fields.key_identifier)?;
        let issuer = keep_elem(alloc, fields.issuer)?;
        let serial_number = copy_octets(alloc, fields.serial_number)?;
        Ok(AuthorityKeyIdentifier {
            key_identifier,
            issuer,
            serial_number,
        })
    }

    fn write(&self, alloc: Global) -> Result<Tree, DerError> {
        let mut kids = NewKids::new(alloc);
        push_leaf(alloc, &mut kids, KEY_IDENTIFIER, &self.key_identifier)?;
        if let Some(issuer) = &self.issuer {
            kids.push(issuer.write(alloc)?)?;
        }
        push_leaf(alloc, &mut kids, SERIAL_NUMBER, &self.serial_number)?;
        Ok(kids.into_branch(SEQUENCE))
    }

    fn try_clone(&self, alloc: Global) -> Result<AuthorityKeyIdentifier, AllocError> {
        let key_identifier = copy_octets(alloc, self.key_identifier())?;
        let issuer = copy_option(alloc, &self.issuer)?;
        let serial_number = copy_octets(alloc, self.serial_number())?;
        Ok(AuthorityKeyIdentifier {
            key_identifier,
            issuer,
            serial_number,
        })
    }

    ghost grammar = { authority_key_identifiers };
}

/// Authority key identifiers are equal exactly if their encodings are.
impl PartialEq for AuthorityKeyIdentifier {
    ghost use Rattle.der_core.specs.Equality.{same_octets};
    ghost use Rattle.der_core.specs.Facts.Equality.{same_octets_per};
    ghost use Rattle.extension_types.specs.AuthorityKeyIdentifier.{authority_key_identifier};

    ghost eq = { same_octets authority_key_identifier };

    ghost laws = { same_octets_per authority_key_identifier };

    fn eq(&self, other: &AuthorityKeyIdentifier) -> bool
        ensures octets { result ≡ same_octets authority_key_identifier self.now other.now }
        ensures same { IsTrue result ↔ (self.now ≡ other.now) }
    {
        self.key_identifier == other.key_identifier
            && self.issuer == other.issuer
            && self.serial_number == other.serial_number
    }
}

impl Eq for AuthorityKeyIdentifier {
    ghost use Rattle.der_core.specs.Facts.Equality.{same_octets_equiv};
    ghost use Rattle.extension_types.specs.AuthorityKeyIdentifier.{authority_key_identifier};

    ghost laws = { same_octets_equiv authority_key_identifier };
}
