//! Versions of certificates.

ghost use Rattle.std.specs.Prelude.{◌≡◌, ◌≢◌, ◌↔◌, IsTrue, MatchOption};
ghost use Rattle.x509_types.specs.Version.{version, version_number};

use der_core::tag::INTEGER;
use der_core::{DerError, Elem, Structure, Tree, leaf, leaf_at};
use std::alloc::{AllocError, Global};

/// The version of a certificate (RFC 5280 4.1.2.1).
#[derive(Clone, Copy, Debug)]
pub enum Version {
    /// Without unique identifiers and extensions.
    V1,
    /// With unique identifiers.
    V2,
    /// With extensions.
    V3,
}

impl Version {
    ghost use Rattle.x509_types.specs.declared.certificate.version.Version.{Version};

    /// The number that encodes the version, one less than in its name.
    pub fn number(self) -> u8
        ensures { result ≡ version_number self }
    {
        match self {
            Version::V1 => 0,
            Version::V2 => 1,
            Version::V3 => 2,
        }
    }

    /// The version that the element encodes. It doesn't allocate.
    fn at(elem: Elem<'_>) -> Option<Version>
        ensures { MatchOption result
            ((value : Version) → elem.entry.is.0 ≢ version value)
            (λ value. elem.entry.is.0 ≡ version value) }
    {
        match leaf_at(elem, INTEGER)? {
            [0] => Some(Version::V1),
            [1] => Some(Version::V2),
            [2] => Some(Version::V3),
            _ => None,
        }
    }
}

impl Structure for Version {
    ghost use Rattle.x509_types.specs.Facts.Versions.{versions};

    ghost written = { version };

    ghost spells = { λ element value. element ≡ version value };

    fn has_shape(elem: Elem<'_>) -> bool {
        Version::at(elem).is_some()
    }

    fn read_at(_alloc: Global, elem: Elem<'_>) -> Result<Version, DerError> {
        Version::at(elem).ok_or(DerError::Shape)
    }

    fn write(&self, alloc: Global) -> Result<Tree, DerError> {
        Ok(leaf(alloc, INTEGER, &[self.number()])?)
    }

    fn try_clone(&self, _alloc: Global) -> Result<Version, AllocError> {
        Ok(*self)
    }

    ghost grammar = { versions };
}

/// Versions are equal exactly if their encodings are.
impl PartialEq for Version {
    ghost use Rattle.der_core.specs.Equality.{same_octets};
    ghost use Rattle.der_core.specs.Facts.Equality.{same_octets_per};

    ghost eq = { same_octets version };

    ghost laws = { same_octets_per version };

    fn eq(&self, other: &Version) -> bool
        ensures octets { result ≡ same_octets version self.now other.now }
        ensures same { IsTrue result ↔ (self.now ≡ other.now) }
    {
        self.number() == other.number()
    }
}

impl Eq for Version {
    ghost use Rattle.der_core.specs.Facts.Equality.{same_octets_equiv};

    ghost laws = { same_octets_equiv version };
}
