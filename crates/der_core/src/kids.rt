//! The elements in a borrowed element.

ghost use Rattle.std.specs.Prelude.{◌≡◌, ◌≢◌, ◌↔◌, IsTrue, [], ◌∷◌, Some, None, MatchOption};
ghost use Rattle.der_core.specs.DerElement.{DerElement, DerElements, Primitive, Constructed, row, tag_of, kids_of};
ghost use Rattle.der_core.specs.Encoding.{form_bit};
ghost use Rattle.der_core.specs.BorrowedOption.{at_option};
ghost use Rattle.der_core.specs.Optional.{TakesExplicit, HasBadTagging};
ghost use Rattle.der_core.specs.Default.{HasBadFlag, TakesDefault};
ghost use Rattle.der_core.specs.Structure.{Fits, BeginsOtherwise, BeginsUnfit, HasMore};
ghost use Rattle.der_core.specs.Borrowed.{HasElems};
ghost use Rattle.der_core.specs.Facts.Borrowed.{HasElems-prop};

use crate::elem::Elem;
use crate::header::{is_constructed, known_head};
use crate::leaves::boolean_at;
use crate::structure::Structure;
use crate::tag::BOOLEAN;
use crate::tagging::explicit_at;

/// Borrowed elements within limits, one after another, that aren't read yet.
#[derive(Clone, Copy, Debug)]
pub struct Kids<'a> {
    pub(crate) rest: &'a [u8],
    pub ghost are: { HasElems rest.now } by { HasElems-prop rest.now },
}

impl<'a> Kids<'a> {
    /// The elements in an element, `None` exactly for a primitive element.
    pub fn within(elem: Elem<'a>) -> Option<Kids<'a>>
        ensures { MatchOption result
            (kids_of elem.entry.is.0 ≡ None)
            (λ kids. kids_of elem.entry.is.0 ≡ Some kids.are.0) }
    {
        if is_constructed(elem.tag) {
            Some(Kids { rest: elem.content })
        } else {
            None
        }
    }

    /// Whether no elements are left.
    pub fn is_empty(&self) -> bool
        ensures { IsTrue result ↔ (self.now.are.0 ≡ []) }
    {
        self.rest.is_empty()
    }

    /// How many elements are left, to reserve capacity: nothing is promised. Only their heads are
    /// read.
    pub(crate) fn room(mut self) -> usize {
        let mut count = 0usize;
        while self.next().is_some() {
            count = count.saturating_add(1);
        }
        count
    }

    /// The next element, `None` if none is left. Only its head is read.
    #[inline(always)]
    pub fn next(&mut self) -> Option<Elem<'a>>
        ensures { MatchOption result
            ((self.old.are.0 ≡ []) × (self.new.are.0 ≡ []))
            (λ elem. self.old.are.0 ≡ elem.is.0 ∷ self.new.are.0) }
    {
        if self.is_empty() {
            return None;
        }
        let head = known_head(self.rest);
        let (whole, _) = self.rest.split_at(self.rest.len() - head.rest.len());
        self.rest = head.rest;
        Some(Elem {
            tag: head.tag,
            whole,
            content: head.contents,
        })
    }

    /// The elements in a constructed element of this tag, `None` for any other element.
    pub fn of(elem: Elem<'a>, tag: u8) -> Option<Kids<'a>>
        ensures { MatchOption result
            ((kids : DerElements) → elem.entry.is.0 ≢ Constructed tag kids)
            (λ kids. elem.entry.is.0 ≡ Constructed tag (row kids.are.0)) }
    {
        if elem.tag != tag {
            return None;
        }
        Kids::within(elem)
    }

    /// The next element if it has this tag, else `None`; then nothing is consumed.
    #[inline(always)]
    pub fn next_tagged(&mut self, tag: u8) -> Option<Elem<'a>>
        ensures { MatchOption result
            ((self.new.are.0 ≡ self.old.are.0) × BeginsOtherwise tag self.old.are.0)
            (λ elem. (self.old.are.0 ≡ elem.is.0 ∷ self.new.are.0) × (tag_of elem.is.0 ≡ tag)) }
    {
        let mut ahead = *self;
        let elem = ahead.next()?;
        if elem.tag != tag {
            return None;
        }
        *self = ahead;
        Some(elem)
    }

    /// The next element if it has the shape of the structure, else `None`; then nothing is
    /// consumed.
    #[inline(always)]
    pub fn next_as<T: Structure>(&mut self) -> Option<Elem<'a>>
        ensures { MatchOption result
            ((self.new.are.0 ≡ self.old.are.0) × BeginsUnfit T.spells self.old.are.0)
            (λ elem. (self.old.are.0 ≡ elem.is.0 ∷ self.new.are.0) × Fits T.spells elem.is.0) }
    {
        let mut ahead = *self;
        let elem = ahead.next()?;
        if !T::has_shape(elem) {
            return None;
        }
        *self = ahead;
        Some(elem)
    }

    /// The flag of a BOOLEAN DEFAULT FALSE, present or absent (X.690 8.2, 11.5). An encoded FALSE
    /// is accepted, too, and any octet but 00 for TRUE. `None` for a BOOLEAN of another length,
    /// which isn't consumed.
    #[inline(always)]
    pub fn next_default_false(&mut self) -> Option<bool>
        ensures { MatchOption result
            ((self.new.are.0 ≡ self.old.are.0) × HasBadFlag self.old.are.0)
            (λ b. TakesDefault self.old.are.0 b self.new.are.0) }
    {
        let mut ahead = *self;
        let Some(elem) = ahead.next_tagged(BOOLEAN) else {
            return Some(false);
        };
        let b = boolean_at(elem)?;
        *self = ahead;
        Some(b)
    }

    /// The contents octets of the next element if it has this tag, which is of primitive elements;
    /// else `None`, and nothing is consumed.
    pub fn next_leaf(&mut self, tag: u8) -> Option<&'a [u8]>
        requires { form_bit tag ≡ 0 }
        ensures { MatchOption result
            ((self.new.are.0 ≡ self.old.are.0) × BeginsOtherwise tag self.old.are.0)
            (λ content. self.old.are.0 ≡ Primitive tag content.now ∷ self.new.are.0) }
    {
        let elem = self.next_tagged(tag)?;
        Some(elem.content)
    }

    /// The element inside the next one if that has this explicit tag; `Some(None)` if the tag is
    /// absent. `None` if it doesn't hold exactly one element; then nothing is consumed.
    pub fn next_explicit(&mut self, tag: u8) -> Option<Option<Elem<'a>>>
        ensures { MatchOption result
            ((self.new.are.0 ≡ self.old.are.0) × HasBadTagging tag self.old.are.0)
            (λ inner. TakesExplicit tag self.old.are.0 (at_option inner) self.new.are.0) }
    {
        let mut ahead = *self;
        let Some(tagged) = ahead.next_tagged(tag) else {
            return Some(None);
        };
        let inner = explicit_at(tagged, tag)?;
        *self = ahead;
        Some(Some(inner))
    }

    /// `Some` if no elements are left.
    pub fn end(&self) -> Option<()>
        ensures { MatchOption result (HasMore self.now.are.0) (λ _. self.now.are.0 ≡ []) }
    {
        if self.is_empty() { Some(()) } else { None }
    }
}

/// The two elements in a constructed element of this tag, `None` for any other element.
#[inline(always)]
pub fn two_kids<'a>(elem: Elem<'a>, tag: u8) -> Option<(Elem<'a>, Elem<'a>)>
    ensures { MatchOption result
        ((first second : DerElement)
        → elem.entry.is.0 ≢ Constructed tag (row (first ∷ second ∷ [])))
        (λ kids. elem.entry.is.0 ≡ Constructed tag (row (kids.0.is.0 ∷ kids.1.is.0 ∷ []))) }
{
    let mut kids = Kids::of(elem, tag)?;
    let first = kids.next()?;
    let second = kids.next()?;
    kids.end()?;
    Some((first, second))
}

/// The three elements in a constructed element of this tag, `None` for any other element.
#[inline(always)]
pub fn three_kids<'a>(elem: Elem<'a>, tag: u8) -> Option<(Elem<'a>, Elem<'a>, Elem<'a>)>
    ensures { MatchOption result
        ((first second third : DerElement)
        → elem.entry.is.0 ≢ Constructed tag (row (first ∷ second ∷ third ∷ [])))
        (λ kids. elem.entry.is.0 ≡ Constructed tag
        (row (kids.0.is.0 ∷ kids.1.is.0 ∷ kids.2.is.0 ∷ []))) }
{
    let mut kids = Kids::of(elem, tag)?;
    let first = kids.next()?;
    let second = kids.next()?;
    let third = kids.next()?;
    kids.end()?;
    Some((first, second, third))
}
