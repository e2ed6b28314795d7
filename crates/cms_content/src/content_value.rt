//! Contents of all types.

ghost use Rattle.std.specs.Prelude.{◌≡◌, ◌↔◌, [], false, IfOk, IsTrue, MatchResult, Option};
ghost use Rattle.der_core.specs.Encoding.{IsWellFormed};
ghost use Rattle.der_core.specs.BorrowedOption.{at_option};
ghost use Rattle.der_core.specs.Refusals.{RefusesShape, RefusesInner};
ghost use Rattle.der_core.specs.Structure.{Fits};
ghost use Rattle.cms_content.specs.ContentValue.{kind_of_content, content_value, IsContentOf, SpellsContent};
ghost use Rattle.cms_content.specs.declared.content_value.ContentValue.{ContentValue};

use crate::content_kind::ContentKind;
use crate::ctl::Ctl;
use crate::indirect_data::SpcIndirectDataContent;
use der_core::{DerError, Elem, Octets, Raw, Structure, Tree};
use std::alloc::{AllocError, Global};

/// A content, by its type.
#[derive(Debug, Drop)]
pub enum ContentValue {
    /// What Authenticode signs instead of a file (Windows Authenticode Portable Executable
    /// Signature Format).
    SpcIndirectDataContent(SpcIndirectDataContent),
    /// A trust list (Microsoft, wincrypt.h).
    CertificateTrustList(Ctl),
    /// Octets (RFC 5652 4).
    Data(Octets),
    /// A content of any other type, raw.
    Other(Raw),
}

impl ContentValue {
    /// The kind of types that have such a content.
    pub fn kind(&self) -> ContentKind
        ensures { result ≡ kind_of_content self.now }
    {
        match self {
            ContentValue::SpcIndirectDataContent(_) => ContentKind::IndirectData,
            ContentValue::CertificateTrustList(_) => ContentKind::CertificateTrustList,
            ContentValue::Data(_) => ContentKind::Data,
            ContentValue::Other(_) => ContentKind::Other,
        }
    }

    /// Whether an element is a content of the kind.
    fn has_shape_of(kind: ContentKind, elem: Elem<'_>) -> bool
        ensures fits { IsTrue result → Fits (IsContentOf kind) elem.entry.is.0 }
        ensures unfit { result ≡ false → (value : ContentValue)
            → IsContentOf kind elem.entry.is.0 value → ⊥ }
    {
        match kind {
            ContentKind::IndirectData => SpcIndirectDataContent::has_shape(elem),
            ContentKind::CertificateTrustList => Ctl::has_shape(elem),
            ContentKind::Data => Octets::has_shape(elem),
            ContentKind::Other => Raw::has_shape(elem),
        }
    }

    /// Reads a content of the kind.
    fn read_of(alloc: Global, kind: ContentKind, elem: Elem<'_>) -> Result<ContentValue, DerError>
        ensures { MatchResult result (IsContentOf kind elem.entry.is.0)
            (RefusesShape (IsContentOf kind elem.entry.is.0)) }
    {
        match kind {
            ContentKind::IndirectData => {
                let content = SpcIndirectDataContent::read_at(alloc, elem)?;
                Ok(ContentValue::SpcIndirectDataContent(content))
            }
            ContentKind::CertificateTrustList => {
                let list = Ctl::read_at(alloc, elem)?;
                Ok(ContentValue::CertificateTrustList(list))
            }
            ContentKind::Data => Ok(ContentValue::Data(Octets::read_at(alloc, elem)?)),
            ContentKind::Other => Ok(ContentValue::Other(Raw::read_at(alloc, elem)?)),
        }
    }

    /// Whether an element, if any, is a content of the kind.
    pub(crate) fn has_option_of(kind: ContentKind, elem: Option<Elem<'_>>) -> bool
        ensures fits { IsTrue result → Fits (SpellsContent kind) (at_option elem.entry) }
        ensures unfit { result ≡ false → (value : Option ContentValue)
            → SpellsContent kind (at_option elem.entry) value → ⊥ }
    {
        match elem {
            Some(elem) => ContentValue::has_shape_of(kind, elem),
            None => true,
        }
    }

    /// Reads a content of the kind, if there is one.
    pub(crate) fn read_option_of(
        alloc: Global,
        kind: ContentKind,
        elem: Option<Elem<'_>>,
    ) -> Result<Option<ContentValue>, DerError>
        ensures { MatchResult result
            (SpellsContent kind (at_option elem.entry))
            (RefusesShape (SpellsContent kind (at_option elem.entry))) }
    {
        match elem {
            Some(elem) => Ok(Some(ContentValue::read_of(alloc, kind, elem)?)),
            None => Ok(None),
        }
    }

    /// The element of the content.
    pub(crate) fn write(&self, alloc: Global) -> Result<Tree, DerError>
        ensures { MatchResult result
            (λ tree. (tree ≡ content_value self.now) × IsWellFormed tree)
            (RefusesInner []) }
    {
        match self {
            ContentValue::SpcIndirectDataContent(content) => content.write(alloc),
            ContentValue::CertificateTrustList(list) => list.write(alloc),
            ContentValue::Data(octets) => octets.write(alloc),
            ContentValue::Other(element) => element.write(alloc),
        }
    }

    /// A copy of the content.
    pub fn try_clone(&self, alloc: Global) -> Result<ContentValue, AllocError>
        ensures { IfOk result (λ copy. copy ≡ self.now) }
    {
        Ok(match self {
            ContentValue::SpcIndirectDataContent(content) => {
                ContentValue::SpcIndirectDataContent(content.try_clone(alloc)?)
            }
            ContentValue::CertificateTrustList(list) => {
                ContentValue::CertificateTrustList(list.try_clone(alloc)?)
            }
            ContentValue::Data(octets) => ContentValue::Data(octets.try_clone(alloc)?),
            ContentValue::Other(element) => ContentValue::Other(element.try_clone(alloc)?),
        })
    }
}

/// Contents are equal exactly where their kinds and encodings are.
impl PartialEq for ContentValue {
    ghost use Rattle.std.specs.Ordering.{on};
    ghost use Rattle.std.specs.Cmp.Lexicographic.{nat_list_eq_equiv};
    ghost use Rattle.std.specs.Cmp.{on_per, partial_equiv_from_equiv};
    ghost use Rattle.std.specs.Prelude.{bytes_eq};
    ghost use Rattle.cms_content.specs.ContentValue.{content_octets};

    ghost eq = { on (λ content. content_octets content) bytes_eq };

    ghost laws = { on_per (λ content. content_octets content)
        (partial_equiv_from_equiv nat_list_eq_equiv) };

    fn eq(&self, other: &ContentValue) -> bool
        ensures compared { result ≡ bytes_eq (content_octets self.now) (content_octets other.now) }
        ensures same { IsTrue result ↔ (self.now ≡ other.now) }
    {
        match (self, other) {
            (ContentValue::SpcIndirectDataContent(a), ContentValue::SpcIndirectDataContent(b)) => *a
                == *b,
            (ContentValue::CertificateTrustList(a), ContentValue::CertificateTrustList(b)) => *a
                == *b,
            (ContentValue::Data(a), ContentValue::Data(b)) => *a == *b,
            (ContentValue::Other(a), ContentValue::Other(b)) => *a == *b,
            _ => false,
        }
    }
}

impl Eq for ContentValue {
    ghost use Rattle.std.specs.Cmp.Lexicographic.{nat_list_eq_equiv};
    ghost use Rattle.std.specs.Cmp.{on_equiv};
    ghost use Rattle.cms_content.specs.ContentValue.{content_octets};

    ghost laws = { on_equiv (λ content. content_octets content) nat_list_eq_equiv };
}
