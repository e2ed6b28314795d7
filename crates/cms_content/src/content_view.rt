//! Contents with their types, borrowed.

ghost use Rattle.der_core.specs.BorrowedOption.{at_option};
ghost use Rattle.cms_content.specs.BorrowedContent.{HasContent};

use crate::content_info::{EncapsulatedContentInfo, Fields};
use der_core::tag::OBJECT_IDENTIFIER;
use der_core::{Elem, Structure, leaf_at};

/// A borrowed content with its type (RFC 5652 5.2). It doesn't allocate.
#[derive(Clone, Copy)]
pub struct ContentView<'a> {
    content_type: &'a [u8],
    content: Option<Elem<'a>>,
    ghost fits: { ∥ HasContent content_type.now (at_option content) ∥₁ },
}

impl<'a> ContentView<'a> {
    ghost use Rattle.std.specs.Prelude.{◌≡◌, ◌≢◌, MatchOption};
    ghost use Rattle.cms_content.specs.ContentInfo.{content_info};
    ghost use Rattle.cms_content.specs.ContentView.{IsContentView};
    ghost use Rattle.cms_content.specs.BorrowedContent.{lent_content};
    ghost use Rattle.cms_content.specs.declared.content_info.EncapsulatedContentInfo.{EncapsulatedContentInfo};

    /// The view of an element, None if it encodes no content with its type.
    pub fn read(elem: Elem<'a>) -> Option<ContentView<'a>>
        ensures { MatchOption result
            ((info : EncapsulatedContentInfo) → elem.entry.is.0 ≢ content_info info)
            (IsContentView elem.entry.is.0) }
    {
        let fields = Fields::of(elem)?;
        let content_type = leaf_at(fields.content_type, OBJECT_IDENTIFIER)?;
        if !EncapsulatedContentInfo::has_shape(elem) {
            return None;
        }
        Some(ContentView {
            content_type,
            content: fields.content,
        })
    }

    /// The view of an element that is known to encode a content with its type. Only tags and
    /// lengths are read; nothing is tested again.
    pub fn of_known(elem: Elem<'a>) -> ContentView<'a>
        requires { ∥ ((info : EncapsulatedContentInfo) × (elem.is.0 ≡ content_info info)) ∥₁ }
        ensures { elem.entry.is.0 ≡ lent_content result.content_type.now
            (at_option result.content) }
    {
        let Some(fields) = Fields::of(elem) else {
            unreachable!();
        };
        let Some(content_type) = leaf_at(fields.content_type, OBJECT_IDENTIFIER) else {
            unreachable!();
        };
        let content = fields.content;
        ContentView {
            content_type,
            content,
        }
    }

    /// The contents octets of the type's OID.
    pub fn content_type(&self) -> &'a [u8]
        ensures { result.now ≡ self.now.content_type.now }
    {
        self.content_type
    }

    /// The content, unless it is absent.
    pub fn content(&self) -> Option<Elem<'a>>
        ensures { at_option result ≡ at_option self.now.content }
    {
        self.content
    }
}
