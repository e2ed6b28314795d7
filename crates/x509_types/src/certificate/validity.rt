//! The validity period of a certificate.

ghost use Rattle.std.specs.Prelude.{◌≡◌, ◌↔◌, IsTrue};

use asn1_types::Time;
use der_core::tag::SEQUENCE;
use der_core::{DerError, Elem, NewKids, Structure, Tree, two_kids};
use std::alloc::{AllocError, Global};

/// The period in which a certificate is valid, both times included (RFC 5280 4.1.2.5). The first
/// may be later than the second.
#[derive(Debug, Drop)]
pub struct Validity {
    pub not_before: Time,
    pub not_after: Time,
}

impl Structure for Validity {
    ghost use Rattle.x509_types.specs.Validity.{validity};
    ghost use Rattle.x509_types.specs.Facts.Validities.{validities};

    ghost written = { validity };

    ghost spells = { λ element value. element ≡ validity value };

    fn has_shape(elem: Elem<'_>) -> bool {
        match two_kids(elem, SEQUENCE) {
            Some((not_before, not_after)) => Time::has_shape(not_before)
                && Time::has_shape(not_after),
            None => false,
        }
    }

    fn read_at(alloc: Global, elem: Elem<'_>) -> Result<Validity, DerError> {
        let Some((not_before, not_after)) = two_kids(elem, SEQUENCE) else {
            return Err(DerError::Shape);
        };
        let not_before = Time::read_at(alloc, not_before)?;
        let not_after = Time::read_at(alloc, not_after)?;
        Ok(Validity {
            not_before,
            not_after,
        })
    }

    fn write(&self, alloc: Global) -> Result<Tree, DerError> {
        let mut kids = NewKids::new(alloc);
        kids.push(self.not_before.write(alloc)?)?;
        kids.push(self.not_after.write(alloc)?)?;
        Ok(kids.into_branch(SEQUENCE))
    }

    fn try_clone(&self, alloc: Global) -> Result<Validity, AllocError> {
        Ok(Validity {
            not_before: self.not_before.try_clone(alloc)?,
            not_after: self.not_after.try_clone(alloc)?,
        })
    }

    ghost grammar = { validities };
}

/// Validities are equal exactly if their encodings are.
impl PartialEq for Validity {
    ghost use Rattle.x509_types.specs.Validity.{validity};
    ghost use Rattle.der_core.specs.Equality.{same_octets};
    ghost use Rattle.der_core.specs.Facts.Equality.{same_octets_per};

    ghost eq = { same_octets validity };

    ghost laws = { same_octets_per validity };

    fn eq(&self, other: &Validity) -> bool
        ensures octets { result ≡ same_octets validity self.now other.now }
        ensures same { IsTrue result ↔ (self.now ≡ other.now) }
    {
        self.not_before == other.not_before && self.not_after == other.not_after
    }
}

impl Eq for Validity {
    ghost use Rattle.x509_types.specs.Validity.{validity};
    ghost use Rattle.der_core.specs.Facts.Equality.{same_octets_equiv};

    ghost laws = { same_octets_equiv validity };
}
