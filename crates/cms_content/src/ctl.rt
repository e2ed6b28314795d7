//! Trust lists.

ghost use Rattle.std.specs.Prelude.{◌≡◌, ◌↔◌, ◌∷◌, IsTrue, List, MatchOption};
ghost use Rattle.der_core.specs.Structure.{Fits};
ghost use Rattle.cms_content.specs.Ctl.{IsCtl, IsTime, AreEntries, FirstNot};
ghost use Rattle.cms_content.specs.declared.ctl_entry.CTLEntry.{CTLEntry};

use crate::ctl_entry::CTLEntry;
use asn1_types::{IntegerAsn1, ObjectIdentifier};
use der_core::tag::{GENERALIZED_TIME, SEQUENCE, UTC_TIME};
use der_core::{DerError, Elem, Kids, ListOf, Octets, Raw, Structure, Tree, read_list};
use key_types::AlgorithmIdentifier;
use std::alloc::{AllocError, Global};

const EXTENSIONS: u8 = 0xA0;

/// A trust list (Microsoft, wincrypt.h: CTL_INFO). It is stored raw; its entries are decoded.
#[derive(Debug, Drop)]
pub struct Ctl {
    element: Raw,
    entries: ListOf<CTLEntry>,
    pub ghost are: { ∥ IsCtl element.element entries ∥₁ },
}

impl Ctl {
    /// The element of the list.
    pub fn element(&self) -> &Raw
        ensures { result.now ≡ self.now.element }
    {
        &self.element
    }

    /// The entries in order.
    pub fn entries(&self) -> &[CTLEntry]
        ensures { result.now ≡ self.now.entries }
    {
        self.entries.as_slice()
    }
}

/// The element of the entries of a trust list.
fn entries_at<'a>(elem: Elem<'a>) -> Option<Elem<'a>>
    ensures { MatchOption result ((entries : List CTLEntry) → IsCtl elem.entry.is.0 entries → ⊥)
        (λ found. Fits AreEntries found.is.0
        × ((entries : List CTLEntry) → AreEntries found.is.0 entries
        → IsCtl elem.entry.is.0 entries)) }
{
    let mut kids = Kids::of(elem, SEQUENCE)?;
    let _version = kids.next_as::<IntegerAsn1>();
    let _usage = kids.next_as::<ListOf<ObjectIdentifier>>()?;
    let _list_identifier = kids.next_as::<Octets>();
    let _sequence_number = kids.next_as::<IntegerAsn1>();
    let _this_update = next_time(&mut kids)?;
    let _next_update = next_time(&mut kids);
    let _algorithm = kids.next_as::<AlgorithmIdentifier>()?;
    let entries = kids.next_as::<ListOf<CTLEntry>>()?;
    let _extensions = kids.next_tagged(EXTENSIONS);
    kids.end()?;
    Some(entries)
}

/// The next element if its tag is that of a time; another one isn't consumed.
fn next_time<'a>(kids: &mut Kids<'a>) -> Option<Elem<'a>>
    ensures { MatchOption result
        ((kids.new.are.0 ≡ kids.old.are.0) × FirstNot IsTime kids.old.are.0)
        (λ elem. (kids.old.are.0 ≡ elem.is.0 ∷ kids.new.are.0) × IsTime elem.is.0) }
{
    let mut ahead = *kids;
    let elem = ahead.next()?;
    if elem.tag < UTC_TIME || elem.tag > GENERALIZED_TIME {
        return None;
    }
    *kids = ahead;
    Some(elem)
}

impl Structure for Ctl {
    ghost use Rattle.cms_content.specs.CtlElement.{ctl};
    ghost use Rattle.cms_content.specs.Facts.Ctls.{ctls};

    ghost written = { ctl };

    ghost spells = { λ element value. element ≡ ctl value };

    fn has_shape(elem: Elem<'_>) -> bool {
        match entries_at(elem) {
            Some(_) => true,
            None => false,
        }
    }

    fn read_at(alloc: Global, elem: Elem<'_>) -> Result<Ctl, DerError> {
        let Some(entries) = entries_at(elem) else {
            return Err(DerError::Shape);
        };
        let entries = read_list(alloc, entries, SEQUENCE)?;
        let element = Raw::from_elem(alloc, elem)?;
        Ok(Ctl { element, entries })
    }

    fn write(&self, alloc: Global) -> Result<Tree, DerError> {
        Ok(self.element.tree(alloc)?)
    }

    fn try_clone(&self, alloc: Global) -> Result<Ctl, AllocError> {
        Ok(Ctl {
            element: self.element.try_clone(alloc)?,
            entries: self.entries.try_clone(alloc)?,
        })
    }

    ghost grammar = { ctls };
}

/// Trust lists are equal exactly where their encodings are.
impl PartialEq for Ctl {
    ghost use Rattle.der_core.specs.Equality.{same_octets};
    ghost use Rattle.der_core.specs.Facts.Equality.{same_octets_per};
    ghost use Rattle.cms_content.specs.CtlElement.{ctl};

    ghost eq = { same_octets ctl };

    ghost laws = { same_octets_per ctl };

    fn eq(&self, other: &Ctl) -> bool
        ensures octets { result ≡ same_octets ctl self.now other.now }
        ensures same { IsTrue result ↔ (self.now ≡ other.now) }
    {
        self.element == other.element
    }
}

impl Eq for Ctl {
    ghost use Rattle.der_core.specs.Facts.Equality.{same_octets_equiv};
    ghost use Rattle.cms_content.specs.CtlElement.{ctl};

    ghost laws = { same_octets_equiv ctl };
}
