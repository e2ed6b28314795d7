//! Certificates by issuer and serial number.

use asn1_types::IntegerAsn1;
use der_core::tag::SEQUENCE;
use der_core::{DerError, Elem, NewKids, Structure, Tree, push_value, two_kids};
use std::alloc::{AllocError, Global};
use x509_types::Name;

/// The issuer and the serial number of a certificate, which identify it (RFC 5652 10.2.4).
#[derive(Debug, Drop)]
pub struct IssuerAndSerialNumber {
    pub issuer: Name,
    pub serial_number: IntegerAsn1,
}

impl Structure for IssuerAndSerialNumber {
    ghost use Rattle.std.specs.Prelude.{◌≡◌};
    ghost use Rattle.cms_types.specs.SignerIdentifier.{issuer_and_serial_number};
    ghost use Rattle.cms_types.specs.Facts.SignerIdentifiers.{issuers_and_serials};

    ghost written = { issuer_and_serial_number };

    ghost spells = { λ element value. element ≡ issuer_and_serial_number value };

    fn has_shape(elem: Elem<'_>) -> bool {
        match two_kids(elem, SEQUENCE) {
            Some((issuer, serial_number)) => {
                Name::has_shape(issuer) && IntegerAsn1::has_shape(serial_number)
            }
            None => false,
        }
    }

    fn read_at(alloc: Global, elem: Elem<'_>) -> Result<IssuerAndSerialNumber, DerError> {
        let Some((issuer, serial_number)) = two_kids(elem, SEQUENCE) else {
            return Err(DerError::Shape);
        };
        let issuer = Name::read_at(alloc, issuer)?;
        let serial_number = IntegerAsn1::read_at(alloc, serial_number)?;
        Ok(IssuerAndSerialNumber {
            issuer,
            serial_number,
        })
    }

    fn write(&self, alloc: Global) -> Result<Tree, DerError> {
        let mut kids = NewKids::new(alloc);
        push_value(alloc, &mut kids, &self.issuer)?;
        push_value(alloc, &mut kids, &self.serial_number)?;
        Ok(kids.into_branch(SEQUENCE))
    }

    fn try_clone(&self, alloc: Global) -> Result<IssuerAndSerialNumber, AllocError> {
        Ok(IssuerAndSerialNumber {
            issuer: self.issuer.try_clone(alloc)?,
            serial_number: self.serial_number.try_clone(alloc)?,
        })
    }

    ghost grammar = { issuers_and_serials };
}

/// Values are equal exactly where their encodings are.
impl PartialEq for IssuerAndSerialNumber {
    ghost use Rattle.std.specs.Prelude.{◌≡◌, ◌↔◌, IsTrue};
    ghost use Rattle.der_core.specs.Equality.{same_octets};
    ghost use Rattle.der_core.specs.Facts.Equality.{same_octets_per};
    ghost use Rattle.cms_types.specs.SignerIdentifier.{issuer_and_serial_number};

    ghost eq = { same_octets issuer_and_serial_number };

    ghost laws = { same_octets_per issuer_and_serial_number };

    fn eq(&self, other: &IssuerAndSerialNumber) -> bool
        ensures octets { result ≡ same_octets issuer_and_serial_number self.now other.now }
        ensures same { IsTrue result ↔ (self.now ≡ other.now) }
    {
        self.issuer == other.issuer && self.serial_number == other.serial_number
    }
}

impl Eq for IssuerAndSerialNumber {
    ghost use Rattle.der_core.specs.Facts.Equality.{same_octets_equiv};
    ghost use Rattle.cms_types.specs.SignerIdentifier.{issuer_and_serial_number};

    ghost laws = { same_octets_equiv issuer_and_serial_number };
}
