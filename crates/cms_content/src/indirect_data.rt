//! What an Authenticode signature signs.

ghost use Rattle.std.specs.Prelude.{◌≡◌, ◌↔◌, IsTrue};

use crate::digest_info::DigestInfo;
use crate::spc_attribute::SpcAttributeTypeAndOptionalValue;
use der_core::tag::SEQUENCE;
use der_core::{DerError, Elem, NewKids, Structure, Tree, two_kids};
use std::alloc::{AllocError, Global};

/// What an Authenticode signature signs instead of a file: the kind of the file, and its digest
/// (Windows Authenticode Portable Executable Signature Format). Whether the value fits its type
/// isn't checked.
#[derive(Debug, Drop)]
pub struct SpcIndirectDataContent {
    pub image: SpcAttributeTypeAndOptionalValue,
    pub message_digest: DigestInfo,
}

impl Structure for SpcIndirectDataContent {
    ghost use Rattle.cms_content.specs.IndirectData.{indirect_data_content};
    ghost use Rattle.cms_content.specs.Facts.IndirectDatas.{indirect_data_contents};

    ghost written = { indirect_data_content };

    ghost spells = { λ element content. element ≡ indirect_data_content content };

    fn has_shape(elem: Elem<'_>) -> bool {
        match two_kids(elem, SEQUENCE) {
            Some((image, digest)) => {
                SpcAttributeTypeAndOptionalValue::has_shape(image) && DigestInfo::has_shape(digest)
            }
            None => false,
        }
    }

    fn read_at(alloc: Global, elem: Elem<'_>) -> Result<SpcIndirectDataContent, DerError> {
        let Some((image, digest)) = two_kids(elem, SEQUENCE) else {
            return Err(DerError::Shape);
        };
        let image = SpcAttributeTypeAndOptionalValue::read_at(alloc, image)?;
        let message_digest = DigestInfo::read_at(alloc, digest)?;
        Ok(SpcIndirectDataContent {
            image,
            message_digest,
        })
    }

    fn write(&self, alloc: Global) -> Result<Tree, DerError> {
        let mut kids = NewKids::new(alloc);
        kids.push(self.image.write(alloc)?)?;
        kids.push(self.message_digest.write(alloc)?)?;
        Ok(kids.into_branch(SEQUENCE))
    }

    fn try_clone(&self, alloc: Global) -> Result<SpcIndirectDataContent, AllocError> {
        Ok(SpcIndirectDataContent {
            image: self.image.try_clone(alloc)?,
            message_digest: self.message_digest.try_clone(alloc)?,
        })
    }

    ghost grammar = { indirect_data_contents };
}

/// Contents are equal exactly where their encodings are.
impl PartialEq for SpcIndirectDataContent {
    ghost use Rattle.der_core.specs.Equality.{same_octets};
    ghost use Rattle.der_core.specs.Facts.Equality.{same_octets_per};
    ghost use Rattle.cms_content.specs.IndirectData.{indirect_data_content};

    ghost eq = { same_octets indirect_data_content };

    ghost laws = { same_octets_per indirect_data_content };

    fn eq(&self, other: &SpcIndirectDataContent) -> bool
        ensures octets { result ≡ same_octets indirect_data_content self.now other.now }
        ensures same { IsTrue result ↔ (self.now ≡ other.now) }
    {
        self.image == other.image && self.message_digest == other.message_digest
    }
}

impl Eq for SpcIndirectDataContent {
    ghost use Rattle.der_core.specs.Facts.Equality.{same_octets_equiv};
    ghost use Rattle.cms_content.specs.IndirectData.{indirect_data_content};

    ghost laws = { same_octets_equiv indirect_data_content };
}
