//! Versions of signed data and of signers.

ghost use Rattle.std.specs.Prelude.{◌≡◌, ◌≢◌, ◌↔◌, IsTrue, MatchOption};
ghost use Rattle.cms_types.specs.CmsVersion.{cms_version, cms_version_number};

use der_core::tag::INTEGER;
use der_core::{DerError, Elem, Structure, Tree, leaf, leaf_at};
use std::alloc::{AllocError, Global};

/// The version of signed data or of a signer (RFC 5652 5.1, 5.3, 10.2.5).
#[derive(Clone, Copy, Debug)]
pub enum CmsVersion {
    V0,
    V1,
    V2,
    V3,
    V4,
    V5,
}

impl CmsVersion {
    ghost use Rattle.cms_types.specs.declared.version.CmsVersion.{CmsVersion};

    /// The number of the version.
    pub fn number(self) -> u8
        ensures { result ≡ cms_version_number self }
    {
        match self {
            CmsVersion::V0 => 0,
            CmsVersion::V1 => 1,
            CmsVersion::V2 => 2,
            CmsVersion::V3 => 3,
            CmsVersion::V4 => 4,
            CmsVersion::V5 => 5,
        }
    }

    /// The version in an element. It doesn't allocate.
    pub(crate) fn at(elem: Elem<'_>) -> Option<CmsVersion>
        ensures { MatchOption result
            ((value : CmsVersion) → elem.entry.is.0 ≢ cms_version value)
            (λ value. elem.entry.is.0 ≡ cms_version value) }
    {
        match leaf_at(elem, INTEGER)? {
            [0] => Some(CmsVersion::V0),
            [1] => Some(CmsVersion::V1),
            [2] => Some(CmsVersion::V2),
            [3] => Some(CmsVersion::V3),
            [4] => Some(CmsVersion::V4),
            [5] => Some(CmsVersion::V5),
            _ => None,
        }
    }
}

impl Structure for CmsVersion {
    ghost use Rattle.cms_types.specs.Facts.Versions.{versions};

    ghost written = { cms_version };

    ghost spells = { λ element value. element ≡ cms_version value };

    fn has_shape(elem: Elem<'_>) -> bool {
        CmsVersion::at(elem).is_some()
    }

    fn read_at(_alloc: Global, elem: Elem<'_>) -> Result<CmsVersion, DerError> {
        CmsVersion::at(elem).ok_or(DerError::Shape)
    }

    fn write(&self, alloc: Global) -> Result<Tree, DerError> {
        Ok(leaf(alloc, INTEGER, &[self.number()])?)
    }

    fn try_clone(&self, _alloc: Global) -> Result<CmsVersion, AllocError> {
        Ok(*self)
    }

    ghost grammar = { versions };
}

/// Versions are equal exactly where their encodings are.
impl PartialEq for CmsVersion {
    ghost use Rattle.der_core.specs.Equality.{same_octets};
    ghost use Rattle.der_core.specs.Facts.Equality.{same_octets_per};

    ghost eq = { same_octets cms_version };

    ghost laws = { same_octets_per cms_version };

    fn eq(&self, other: &CmsVersion) -> bool
        ensures octets { result ≡ same_octets cms_version self.now other.now }
        ensures same { IsTrue result ↔ (self.now ≡ other.now) }
    {
        self.number() == other.number()
    }
}

impl Eq for CmsVersion {
    ghost use Rattle.der_core.specs.Facts.Equality.{same_octets_equiv};

    ghost laws = { same_octets_equiv cms_version };
}
