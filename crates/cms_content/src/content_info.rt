//! Contents with their types.

ghost use Rattle.std.specs.Prelude.{◌≡◌, ◌≢◌, ◌↔◌, IsTrue, Option, MatchOption};
ghost use Rattle.der_core.specs.DerElement.{DerElement};
ghost use Rattle.der_core.specs.BorrowedOption.{at_option};
ghost use Rattle.asn1_types.specs.Values.{identifier_contents};
ghost use Rattle.cms_content.specs.ContentKind.{named_content};
ghost use Rattle.cms_content.specs.ContentValue.{HasKind};
ghost use Rattle.cms_content.specs.ContentInfoElements.{content_info_of};
ghost use Rattle.cms_content.specs.Facts.ContentKinds.{HasKind-prop};

use crate::content_kind::ContentKind;
use crate::content_value::ContentValue;
use asn1_types::ObjectIdentifier;
use der_core::tag::SEQUENCE;
use der_core::{DerError, Elem, Kids, NewKids, Structure, Tree, explicit};
use std::alloc::{AllocError, Global};

/// The tag around a content (RFC 5652 3, 5.2).
pub const CONTENT: u8 = 0xA0;

/// A content with its type, or a type without a content (RFC 5652 5.2; RFC 2315 7). The content is
/// of the kind that the type names. A content of a known kind that can't be read as such is refused
/// as `Shape`.
#[derive(Debug, Drop)]
pub struct EncapsulatedContentInfo {
    pub content_type: ObjectIdentifier,
    pub content: Option<ContentValue>,
    pub ghost fits: { HasKind (named_content (identifier_contents content_type)) content } by { HasKind-prop (named_content (identifier_contents content_type)) content },
}

/// The fields, borrowed, each any element.
#[derive(Clone, Copy)]
pub(crate) struct Fields<'a> {
    pub content_type: Elem<'a>,
    pub content: Option<Elem<'a>>,
}

impl<'a> Fields<'a> {
    /// The fields of the element.
    pub fn of(elem: Elem<'a>) -> Option<Fields<'a>>
        ensures { MatchOption result
            ((content_type : DerElement) (content : Option DerElement)
            → elem.entry.is.0 ≢ content_info_of content_type content)
            (λ f. elem.entry.is.0 ≡ content_info_of f.content_type.is.0 (at_option f.content)) }
    {
        let mut kids = Kids::of(elem, SEQUENCE)?;
        let content_type = kids.next()?;
        let content = kids.next_explicit(CONTENT)?;
        kids.end()?;
        Some(Fields {
            content_type,
            content,
        })
    }
}

impl EncapsulatedContentInfo {
    ghost use Rattle.std.specs.Prelude.{Some};

    /// A content with its type. None exactly where the type names contents of another kind.
    pub fn new(
        content_type: ObjectIdentifier,
        content: Option<ContentValue>,
    ) -> Option<EncapsulatedContentInfo>
        ensures { MatchOption result
            (HasKind (named_content (identifier_contents content_type)) content → ⊥)
            (λ info. (info.content_type ≡ content_type) × (info.content ≡ content)) }
    {
        let kind = ContentKind::named(content_type.as_bytes());
        if has_kind(kind, &content) {
            Some(EncapsulatedContentInfo {
                content_type,
                content,
            })
        } else {
            None
        }
    }
}

/// Whether the content, if any, is of the kind.
fn has_kind(kind: ContentKind, content: &Option<ContentValue>) -> bool
    ensures { IsTrue result ↔ HasKind kind content.now }
{
    match content {
        Some(content) => content.kind() == kind,
        None => true,
    }
}

impl Structure for EncapsulatedContentInfo {
    ghost use Rattle.cms_content.specs.ContentInfo.{content_info};
    ghost use Rattle.cms_content.specs.Facts.ContentInfos.{content_infos};

    ghost written = { content_info };

    ghost spells = { λ element info. element ≡ content_info info };

    fn has_shape(elem: Elem<'_>) -> bool {
        let Some(fields) = Fields::of(elem) else {
            return false;
        };
        match ContentKind::at(fields.content_type) {
            Some(kind) => ContentValue::has_option_of(kind, fields.content),
            None => false,
        }
    }

    fn read_at(alloc: Global, elem: Elem<'_>) -> Result<EncapsulatedContentInfo, DerError> {
        let Some(fields) = Fields::of(elem) else {
            return Err(DerError::Shape);
        };
        let content_type = ObjectIdentifier::read_at(alloc, fields.content_type)?;
        let kind = ContentKind::named(content_type.as_bytes());
        let content = ContentValue::read_option_of(alloc, kind, fields.content)?;
        Ok(EncapsulatedContentInfo {
            content_type,
            content,
        })
    }

    fn write(&self, alloc: Global) -> Result<Tree, DerError> {
        let mut kids = NewKids::new(alloc);
        kids.push(self.content_type.write(alloc)?)?;
        if let Some(content) = &self.content {
            kids.push(explicit(alloc, CONTENT, content.write(alloc)?)?)?;
        }
        Ok(kids.into_branch(SEQUENCE))
    }

    fn try_clone(&self, alloc: Global) -> Result<EncapsulatedContentInfo, AllocError> {
        let content = match &self.content {
            Some(content) => Some(content.try_clone(alloc)?),
            None => None,
        };
        Ok(EncapsulatedContentInfo {
            content_type: self.content_type.try_clone(alloc)?,
            content,
        })
    }

    ghost grammar = { content_infos };
}

/// Contents with their types are equal exactly where their encodings are.
impl PartialEq for EncapsulatedContentInfo {
    ghost use Rattle.der_core.specs.Equality.{same_octets};
    ghost use Rattle.der_core.specs.Facts.Equality.{same_octets_per};
    ghost use Rattle.cms_content.specs.ContentInfo.{content_info};

    ghost eq = { same_octets content_info };

    ghost laws = { same_octets_per content_info };

    fn eq(&self, other: &EncapsulatedContentInfo) -> bool
        ensures octets { result ≡ same_octets content_info self.now other.now }
        ensures same { IsTrue result ↔ (self.now ≡ other.now) }
    {
        self.content_type == other.content_type && self.content == other.content
    }
}

impl Eq for EncapsulatedContentInfo {
    ghost use Rattle.der_core.specs.Facts.Equality.{same_octets_equiv};
    ghost use Rattle.cms_content.specs.ContentInfo.{content_info};

    ghost laws = { same_octets_equiv content_info };
}
