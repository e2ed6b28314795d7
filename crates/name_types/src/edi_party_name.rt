//! Names of parties in electronic data interchange.

ghost use Rattle.std.specs.Prelude.{◌≡◌, ◌≢◌, ◌↔◌, IsTrue, Option, MatchOption};
ghost use Rattle.der_core.specs.DerElement.{DerElement};
ghost use Rattle.der_core.specs.BorrowedOption.{at_option};
ghost use Rattle.name_types.specs.GeneralName.{edi_party_name_of};

use crate::directory_string::DirectoryString;
use der_core::{DerError, Elem, Kids, NewKids, Structure, Tree, explicit, explicit_at};
use std::alloc::{AllocError, Global};

pub(crate) const EDI_PARTY_NAME: u8 = 0xA5;

const NAME_ASSIGNER: u8 = 0xA0;

const PARTY_NAME: u8 = 0xA1;

/// The name of a party, and who assigned it (RFC 5280 4.2.1.6). Its element is the alternative
/// \[5\] of GeneralName.
#[derive(Debug, Drop)]
pub struct EdiPartyName {
    pub name_assigner: Option<DirectoryString>,
    pub party_name: DirectoryString,
}

/// The strings in the element, each as any element.
fn fields_of<'a>(elem: Elem<'a>) -> Option<(Option<Elem<'a>>, Elem<'a>)>
    ensures { MatchOption result
        ((assigner : Option DerElement) (party : DerElement)
        → elem.entry.is.0 ≢ edi_party_name_of assigner party)
        (λ fields. elem.entry.is.0 ≡ edi_party_name_of (at_option fields.0) fields.1.is.0) }
{
    let mut kids = Kids::of(elem, EDI_PARTY_NAME)?;
    let assigner = kids.next_explicit(NAME_ASSIGNER)?;
    let party = explicit_at(kids.next()?, PARTY_NAME)?;
    kids.end()?;
    Some((assigner, party))
}

impl Structure for EdiPartyName {
    ghost use Rattle.name_types.specs.GeneralName.{edi_party_name};
    ghost use Rattle.name_types.specs.Facts.GeneralNames.{edi_party_names};

    ghost written = { edi_party_name };

    ghost spells = { λ element name. element ≡ edi_party_name name };

    fn has_shape(elem: Elem<'_>) -> bool {
        match fields_of(elem) {
            Some((Some(assigner), party)) => {
                DirectoryString::has_shape(assigner) && DirectoryString::has_shape(party)
            }
            Some((None, party)) => DirectoryString::has_shape(party),
            None => false,
        }
    }

    fn read_at(alloc: Global, elem: Elem<'_>) -> Result<EdiPartyName, DerError> {
        let Some((assigner, party)) = fields_of(elem) else {
            return Err(DerError::Shape);
        };
        let name_assigner = match assigner {
            Some(assigner) => Some(DirectoryString::read_at(alloc, assigner)?),
            None => None,
        };
        let party_name = DirectoryString::read_at(alloc, party)?;
        Ok(EdiPartyName {
            name_assigner,
            party_name,
        })
    }

    fn write(&self, alloc: Global) -> Result<Tree, DerError> {
        let mut kids = NewKids::new(alloc);
        if let Some(assigner) = &self.name_assigner {
            kids.push(explicit(alloc, NAME_ASSIGNER, assigner.write(alloc)?)?)?;
        }
        kids.push(explicit(alloc, PARTY_NAME, self.party_name.write(alloc)?)?)?;
        Ok(kids.into_branch(EDI_PARTY_NAME))
    }

    fn try_clone(&self, alloc: Global) -> Result<EdiPartyName, AllocError> {
        let name_assigner = match &self.name_assigner {
            Some(assigner) => Some(assigner.try_clone(alloc)?),
            None => None,
        };
        Ok(EdiPartyName {
            name_assigner,
            party_name: self.party_name.try_clone(alloc)?,
        })
    }

    ghost grammar = { edi_party_names };
}

/// Names are equal exactly if their encodings are.
impl PartialEq for EdiPartyName {
    ghost use Rattle.der_core.specs.Equality.{same_octets};
    ghost use Rattle.der_core.specs.Facts.Equality.{same_octets_per};
    ghost use Rattle.name_types.specs.GeneralName.{edi_party_name};

    ghost eq = { same_octets edi_party_name };

    ghost laws = { same_octets_per edi_party_name };

    fn eq(&self, other: &EdiPartyName) -> bool
        ensures octets { result ≡ same_octets edi_party_name self.now other.now }
        ensures same { IsTrue result ↔ (self.now ≡ other.now) }
    {
        self.name_assigner == other.name_assigner && self.party_name == other.party_name
    }
}

impl Eq for EdiPartyName {
    ghost use Rattle.der_core.specs.Facts.Equality.{same_octets_equiv};
    ghost use Rattle.name_types.specs.GeneralName.{edi_party_name};

    ghost laws = { same_octets_equiv edi_party_name };
}
