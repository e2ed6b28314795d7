//! What a signature says about its program.

ghost use Rattle.std.specs.Prelude.{◌≡◌, ◌≢◌, ◌↔◌, IsTrue, Option, MatchOption};
ghost use Rattle.der_core.specs.DerElement.{DerElement};
ghost use Rattle.der_core.specs.BorrowedOption.{at_option};
ghost use Rattle.cms_types.specs.OpusInfo.{opus_info, opus_info_of};

pub(crate) mod spc_link;
pub(crate) mod spc_string;

use crate::opus_info::spc_link::SpcLink;
use crate::opus_info::spc_string::SpcString;
use der_core::tag::SEQUENCE;
use der_core::{
    DerError, Elem, Kids, NewKids, Structure, Tree, copy_option, has_option, push_explicit,
    read_option,
};
use std::alloc::{AllocError, Global};

const PROGRAM_NAME: u8 = 0xA0;

const MORE_INFO: u8 = 0xA1;

/// What a signature says about its program: its name, and a link to more information, each optional
/// (Windows Authenticode Portable Executable Signature Format).
#[derive(Debug, Drop)]
pub struct SpcSpOpusInfo {
    pub program_name: Option<SpcString>,
    pub more_info: Option<SpcLink>,
}

/// The fields, borrowed, each any element.
#[derive(Clone, Copy)]
struct Fields<'a> {
    program_name: Option<Elem<'a>>,
    more_info: Option<Elem<'a>>,
}

impl<'a> Fields<'a> {
    /// The fields of the element.
    fn of(elem: Elem<'a>) -> Option<Fields<'a>>
        ensures { MatchOption result
            ((program_name more_info : Option DerElement)
            → elem.entry.is.0 ≢ opus_info_of program_name more_info)
            (λ f. elem.entry.is.0 ≡ opus_info_of (at_option f.program_name)
            (at_option f.more_info)) }
    {
        let mut kids = Kids::of(elem, SEQUENCE)?;
        let program_name = kids.next_explicit(PROGRAM_NAME)?;
        let more_info = kids.next_explicit(MORE_INFO)?;
        kids.end()?;
        Some(Fields {
            program_name,
            more_info,
        })
    }
}

impl Structure for SpcSpOpusInfo {
    ghost use Rattle.cms_types.specs.Facts.OpusInfos.{opus_infos};

    ghost written = { opus_info };

    ghost spells = { λ element info. element ≡ opus_info info };

    fn has_shape(elem: Elem<'_>) -> bool {
        match Fields::of(elem) {
            Some(fields) => {
                has_option::<SpcString>(fields.program_name)
                    && has_option::<SpcLink>(fields.more_info)
            }
            None => false,
        }
    }

    fn read_at(alloc: Global, elem: Elem<'_>) -> Result<SpcSpOpusInfo, DerError> {
        let Some(fields) = Fields::of(elem) else {
            return Err(DerError::Shape);
        };
        Ok(SpcSpOpusInfo {
            program_name: read_option(alloc, fields.program_name)?,
            more_info: read_option(alloc, fields.more_info)?,
        })
    }

    fn write(&self, alloc: Global) -> Result<Tree, DerError> {
        let mut kids = NewKids::new(alloc);
        push_explicit(alloc, &mut kids, PROGRAM_NAME, &self.program_name)?;
        push_explicit(alloc, &mut kids, MORE_INFO, &self.more_info)?;
        Ok(kids.into_branch(SEQUENCE))
    }

    fn try_clone(&self, alloc: Global) -> Result<SpcSpOpusInfo, AllocError> {
        Ok(SpcSpOpusInfo {
            program_name: copy_option(alloc, &self.program_name)?,
            more_info: copy_option(alloc, &self.more_info)?,
        })
    }

    ghost grammar = { opus_infos };
}

/// Values are equal exactly where their encodings are.
impl PartialEq for SpcSpOpusInfo {
    ghost use Rattle.der_core.specs.Equality.{same_octets};
    ghost use Rattle.der_core.specs.Facts.Equality.{same_octets_per};

    ghost eq = { same_octets opus_info };

    ghost laws = { same_octets_per opus_info };

    fn eq(&self, other: &SpcSpOpusInfo) -> bool
        ensures octets { result ≡ same_octets opus_info self.now other.now }
        ensures same { IsTrue result ↔ (self.now ≡ other.now) }
    {
        self.program_name == other.program_name && self.more_info == other.more_info
    }
}

impl Eq for SpcSpOpusInfo {
    ghost use Rattle.der_core.specs.Facts.Equality.{same_octets_equiv};

    ghost laws = { same_octets_equiv opus_info };
}
