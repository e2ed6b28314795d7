//! Links of Authenticode.

ghost use Rattle.std.specs.Prelude.{◌≡◌, ◌↔◌, IsTrue};

use der_core::{DerError, Elem, Octets, Structure, Tree, leaf, leaf_at};
use std::alloc::{AllocError, Global};

const URL: u8 = 0x80;

/// A link to more information about a program: an SpcLink of the form `url` (Windows Authenticode
/// Portable Executable Signature Format). Any octets are read. The forms `moniker` and `file` are
/// not read.
#[derive(Debug, Drop)]
pub struct SpcLink {
    pub url: Octets,
}

impl Structure for SpcLink {
    ghost use Rattle.cms_types.specs.SpcLink.{spc_link};
    ghost use Rattle.cms_types.specs.Facts.SpcLinks.{spc_links};

    ghost written = { spc_link };

    ghost spells = { λ element link. element ≡ spc_link link };

    fn has_shape(elem: Elem<'_>) -> bool {
        match leaf_at(elem, URL) {
            Some(_) => true,
            None => false,
        }
    }

    fn read_at(alloc: Global, elem: Elem<'_>) -> Result<SpcLink, DerError> {
        match leaf_at(elem, URL) {
            Some(content) => Ok(SpcLink {
                url: Octets::from_slice(alloc, content)?,
            }),
            None => Err(DerError::Shape),
        }
    }

    fn write(&self, alloc: Global) -> Result<Tree, DerError> {
        Ok(leaf(alloc, URL, self.url.as_slice())?)
    }

    fn try_clone(&self, alloc: Global) -> Result<SpcLink, AllocError> {
        Ok(SpcLink {
            url: self.url.try_clone(alloc)?,
        })
    }

    ghost grammar = { spc_links };
}

/// Links are equal exactly where their encodings are.
impl PartialEq for SpcLink {
    ghost use Rattle.der_core.specs.Equality.{same_octets};
    ghost use Rattle.der_core.specs.Facts.Equality.{same_octets_per};
    ghost use Rattle.cms_types.specs.SpcLink.{spc_link};

    ghost eq = { same_octets spc_link };

    ghost laws = { same_octets_per spc_link };

    fn eq(&self, other: &SpcLink) -> bool
        ensures octets { result ≡ same_octets spc_link self.now other.now }
        ensures same { IsTrue result ↔ (self.now ≡ other.now) }
    {
        self.url == other.url
    }
}

impl Eq for SpcLink {
    ghost use Rattle.der_core.specs.Facts.Equality.{same_octets_equiv};
    ghost use Rattle.cms_types.specs.SpcLink.{spc_link};

    ghost laws = { same_octets_equiv spc_link };
}
