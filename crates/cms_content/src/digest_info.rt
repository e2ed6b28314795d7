//! Digests with their algorithms.

ghost use Rattle.std.specs.Prelude.{◌≡◌, ◌↔◌, IsTrue};

use der_core::tag::SEQUENCE;
use der_core::{DerError, Elem, NewKids, Octets, Structure, Tree, two_kids};
use key_types::AlgorithmIdentifier;
use std::alloc::{AllocError, Global};

/// A digest and its algorithm (RFC 2315 9.4). The size of the digest isn't checked.
#[derive(Debug, Drop)]
pub struct DigestInfo {
    pub oid: AlgorithmIdentifier,
    pub digest: Octets,
}

impl Structure for DigestInfo {
    ghost use Rattle.cms_content.specs.DigestInfo.{digest_info};
    ghost use Rattle.cms_content.specs.Facts.DigestInfos.{digest_infos};

    ghost written = { digest_info };

    ghost spells = { λ element info. element ≡ digest_info info };

    fn has_shape(elem: Elem<'_>) -> bool {
        match two_kids(elem, SEQUENCE) {
            Some((oid, digest)) => {
                AlgorithmIdentifier::has_shape(oid) && Octets::has_shape(digest)
            }
            None => false,
        }
    }

    fn read_at(alloc: Global, elem: Elem<'_>) -> Result<DigestInfo, DerError> {
        let Some((oid, digest)) = two_kids(elem, SEQUENCE) else {
            return Err(DerError::Shape);
        };
        let oid = AlgorithmIdentifier::read_at(alloc, oid)?;
        let digest = Octets::read_at(alloc, digest)?;
        Ok(DigestInfo { oid, digest })
    }

    fn write(&self, alloc: Global) -> Result<Tree, DerError> {
        let mut kids = NewKids::new(alloc);
        kids.push(self.oid.write(alloc)?)?;
        kids.push(self.digest.write(alloc)?)?;
        Ok(kids.into_branch(SEQUENCE))
    }

    fn try_clone(&self, alloc: Global) -> Result<DigestInfo, AllocError> {
        Ok(DigestInfo {
            oid: self.oid.try_clone(alloc)?,
            digest: self.digest.try_clone(alloc)?,
        })
    }

    ghost grammar = { digest_infos };
}

/// Digests with their algorithms are equal exactly where their encodings are.
impl PartialEq for DigestInfo {
    ghost use Rattle.der_core.specs.Equality.{same_octets};
    ghost use Rattle.der_core.specs.Facts.Equality.{same_octets_per};
    ghost use Rattle.cms_content.specs.DigestInfo.{digest_info};

    ghost eq = { same_octets digest_info };

    ghost laws = { same_octets_per digest_info };

    fn eq(&self, other: &DigestInfo) -> bool
        ensures octets { result ≡ same_octets digest_info self.now other.now }
        ensures same { IsTrue result ↔ (self.now ≡ other.now) }
    {
        self.oid == other.oid && self.digest == other.digest
    }
}

impl Eq for DigestInfo {
    ghost use Rattle.der_core.specs.Facts.Equality.{same_octets_equiv};
    ghost use Rattle.cms_content.specs.DigestInfo.{digest_info};

    ghost laws = { same_octets_equiv digest_info };
}
