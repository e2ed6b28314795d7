//! Signed data with its type.

ghost use Rattle.std.specs.Prelude.{◌≡◌, [], MatchResult};
ghost use Rattle.der_core.specs.Elements.{explicit};
ghost use Rattle.der_core.specs.Encoding.{IsWellFormed};
ghost use Rattle.der_core.specs.Refusals.{RefusesInner};
ghost use Rattle.cms_types.specs.SignedData.{signed_data};

use crate::levels::{SIGNED, signed_data_in};
use crate::shapes::is_pkcs7;
use crate::signed_data::SignedData;
use asn1_types::oids::SIGNED_DATA;
use der_core::tag::{OBJECT_IDENTIFIER, SEQUENCE};
use der_core::{DerError, Elem, NewKids, Structure, Tree, explicit, leaf};
use std::alloc::{AllocError, Global};

/// Signed data with its type, on its own (RFC 5652 3, RFC 2315 7).
#[derive(Debug, Drop)]
pub struct Pkcs7Certificate {
    pub signed_data: SignedData,
}

/// The element of the content, which is signed data.
fn write_content(alloc: Global, value: &SignedData) -> Result<Tree, DerError>
    ensures { MatchResult result
        (λ tree. (tree ≡ explicit 0xA0 (signed_data value.now)) × IsWellFormed tree)
        (RefusesInner []) }
{
    Ok(explicit(alloc, SIGNED, value.write(alloc)?)?)
}

impl Structure for Pkcs7Certificate {
    ghost use Rattle.cms_types.specs.Pkcs7.{pkcs7};
    ghost use Rattle.cms_types.specs.Facts.SignedDatas.{pkcs7s};

    ghost written = { pkcs7 };

    ghost spells = { λ element value. element ≡ pkcs7 value };

    fn has_shape(elem: Elem<'_>) -> bool {
        is_pkcs7(elem)
    }

    fn read_at(alloc: Global, elem: Elem<'_>) -> Result<Pkcs7Certificate, DerError> {
        let Some(inner) = signed_data_in(elem) else {
            return Err(DerError::Shape);
        };
        let signed_data = SignedData::read_at(alloc, inner)?;
        Ok(Pkcs7Certificate { signed_data })
    }

    fn write(&self, alloc: Global) -> Result<Tree, DerError> {
        let mut kids = NewKids::new(alloc);
        kids.push(leaf(alloc, OBJECT_IDENTIFIER, SIGNED_DATA)?)?;
        kids.push(write_content(alloc, &self.signed_data)?)?;
        Ok(kids.into_branch(SEQUENCE))
    }

    fn try_clone(&self, alloc: Global) -> Result<Pkcs7Certificate, AllocError> {
        Ok(Pkcs7Certificate {
            signed_data: self.signed_data.try_clone(alloc)?,
        })
    }

    ghost grammar = { pkcs7s };
}

/// Values are equal exactly where they are written as the same element.
impl PartialEq for Pkcs7Certificate {
    ghost use Rattle.std.specs.Prelude.{◌↔◌, IsTrue};
    ghost use Rattle.der_core.specs.Equality.{same_octets};
    ghost use Rattle.der_core.specs.Facts.Equality.{same_octets_per};
    ghost use Rattle.cms_types.specs.Pkcs7.{pkcs7};

    ghost eq = { same_octets pkcs7 };

    ghost laws = { same_octets_per pkcs7 };

    fn eq(&self, other: &Pkcs7Certificate) -> bool
        ensures octets { result ≡ same_octets pkcs7 self.now other.now }
        ensures same { IsTrue result ↔ (self.now ≡ other.now) }
        ensures written { IsTrue result ↔ (pkcs7 self.now ≡ pkcs7 other.now) }
    {
        self.signed_data == other.signed_data
    }
}

impl Eq for Pkcs7Certificate {
    ghost use Rattle.der_core.specs.Facts.Equality.{same_octets_equiv};
    ghost use Rattle.cms_types.specs.Pkcs7.{pkcs7};

    ghost laws = { same_octets_equiv pkcs7 };
}
