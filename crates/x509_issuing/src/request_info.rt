//! The signed part of a certification request (RFC 2986 4.1).
//!
//! ```text
//! CertificationRequestInfo ::= SEQUENCE {
//!      version       INTEGER { v1(0) } (v1,...),
//!      subject       Name,
//!      subjectPKInfo SubjectPublicKeyInfo{{ PKInfoAlgorithms }},
//!      attributes    [0] Attributes{{ CRIAttributes }}
//! }
//!
//! Attributes { ATTRIBUTE:IOSet } ::= SET OF Attribute{{ IOSet }}
//! ```
//!
//! Only v1 is accepted. `attributes` may be absent.

ghost use Rattle.std.specs.Prelude.{◌≡◌, ◌≢◌, ◌↔◌, ◌++◌, IsTrue, IfOk, MatchOption, MatchResult, Option, List, option_to_list};
ghost use Rattle.std.specs.Option.{option_map};
ghost use Rattle.der_core.specs.DerElement.{DerElement};
ghost use Rattle.der_core.specs.BorrowedOption.{at_option};
ghost use Rattle.der_core.specs.Borrowed.{AreDer};
ghost use Rattle.der_core.specs.Refusals.{RefusesShape, RefusesInner};
ghost use Rattle.der_core.specs.Structure.{Fits};
ghost use Rattle.der_core.specs.Optional.{SpellsOption, inner_option};
ghost use Rattle.x509_issuing.specs.RequestElements.{request_info_of};
ghost use Rattle.x509_types.specs.Attribute.{AreAttributes, attribute_list, inner_attributes};
ghost use Rattle.x509_types.specs.declared.attribute.Attribute.{Attribute};

use der_core::tag::{INTEGER, SEQUENCE};
use der_core::{
    DerError, Elem, Kids, NewKids, Structure, Tree, copy_each, expect, expect_leaf, has_list, leaf,
    read_list, write_list,
};
use key_types::SubjectPublicKeyInfo;
use name_types::Name;
use std::alloc::{AllocError, Global};
use x509_types::{Attribute, AttributeList};

/// The tag of the attributes.
const ATTRIBUTES: u8 = 0xA0;

/// The signed part of a certification request (RFC 2986 4.1), of version 1, the only one. An absent
/// list of attributes and an empty one are different values.
#[derive(Debug, Drop)]
pub struct CertificationRequestInfo {
    pub subject: Name,
    pub subject_public_key_info: SubjectPublicKeyInfo,
    pub attributes: Option<AttributeList>,
}

/// The borrowed fields after the version.
#[derive(Clone, Copy)]
struct RequestFields<'a> {
    subject: Elem<'a>,
    subject_public_key_info: Elem<'a>,
    attributes: Option<Elem<'a>>,
}

impl<'a> RequestFields<'a> {
    /// The fields of the element.
    fn of(elem: Elem<'a>) -> Option<RequestFields<'a>>
        ensures { MatchOption result
            ((subject key : DerElement) (attributes : Option DerElement)
            → elem.entry.is.0 ≢ request_info_of subject key attributes)
            (λ fields. elem.entry.is.0 ≡ request_info_of fields.subject.is.0
            fields.subject_public_key_info.is.0 (at_option fields.attributes)) }
    {
        let mut kids = Kids::of(elem, SEQUENCE)?;
        expect_leaf(kids.next()?, INTEGER, &[0])?;
        let subject = kids.next()?;
        let subject_public_key_info = kids.next()?;
        let attributes = kids.next();
        kids.end()?;
        Some(RequestFields {
            subject,
            subject_public_key_info,
            attributes,
        })
    }
}

/// `Some` if the element encodes attributes or there is none.
fn expect_attributes(elem: Option<Elem<'_>>) -> Option<()>
    ensures { MatchOption result
        ((attributes : Option (List Attribute))
        → SpellsOption AreAttributes (at_option elem.entry) attributes → ⊥)
        (λ _. Fits (SpellsOption AreAttributes) (at_option elem.entry)) }
{
    match elem {
        Some(elem) if !has_list::<Attribute>(elem, ATTRIBUTES) => None,
        _ => Some(()),
    }
}

/// The attributes that the element encodes, if there is one.
fn read_attributes(alloc: Global, elem: Option<Elem<'_>>) -> Result<Option<AttributeList>, DerError>
    ensures { MatchResult result (SpellsOption AreAttributes (at_option elem.entry))
        (RefusesShape (SpellsOption AreAttributes (at_option elem.entry))) }
{
    match elem {
        Some(elem) => Ok(Some(read_list(alloc, elem, ATTRIBUTES)?)),
        None => Ok(None),
    }
}

/// Appends the element of the attributes, if there are any.
fn push_attributes(
    alloc: Global,
    kids: &mut NewKids,
    attributes: &Option<AttributeList>,
) -> Result<(), DerError>
    ensures { MatchResult result
        (λ _. (kids.new.kids ≡ kids.old.kids
        ++ option_to_list (option_map attribute_list attributes.now))
        × AreDer (inner_option inner_attributes attributes.now))
        (RefusesInner (inner_option inner_attributes attributes.now)) }
{
    if let Some(attributes) = attributes {
        kids.push(write_list(alloc, attributes, ATTRIBUTES)?)?;
    }
    Ok(())
}

/// A copy of the attributes, if there are any.
fn copy_attributes(
    alloc: Global,
    attributes: &Option<AttributeList>,
) -> Result<Option<AttributeList>, AllocError>
    ensures { IfOk result (λ copy. copy ≡ attributes.now) }
{
    match attributes {
        Some(attributes) => Ok(Some(copy_each(alloc, attributes)?)),
        None => Ok(None),
    }
}

/// Whether the attributes are the same, each present or absent.
fn are_same_attributes(a: &Option<AttributeList>, b: &Option<AttributeList>) -> bool
    ensures { IsTrue result ↔ (a.now ≡ b.now) }
{
    a == b
}

impl CertificationRequestInfo {
    ghost use Rattle.x509_issuing.specs.RequestInfo.{IsRequestInfo};
    ghost use Rattle.x509_issuing.specs.declared.request_info.CertificationRequestInfo.{CertificationRequestInfo};

    /// `Some` if the element encodes the signed part of a request.
    fn expect_shapes(elem: Elem<'_>) -> Option<()>
        ensures { MatchOption result
            ((info : CertificationRequestInfo) → IsRequestInfo elem.entry.is.0 info → ⊥)
            (λ _. Fits IsRequestInfo elem.entry.is.0) }
    {
        let Some(fields) = RequestFields::of(elem) else {
            return None;
        };
        expect::<Name>(fields.subject)?;
        expect::<SubjectPublicKeyInfo>(fields.subject_public_key_info)?;
        expect_attributes(fields.attributes)?;
        Some(())
    }
}

impl Structure for CertificationRequestInfo {
    ghost use Rattle.x509_issuing.specs.RequestInfo.{request_info, inner_request, IsRequestInfo};
    ghost use Rattle.x509_issuing.specs.Facts.Requests.{request_infos};

    ghost written = { request_info };

    ghost spells = { IsRequestInfo };

    ghost inner = { inner_request };

    fn has_shape(elem: Elem<'_>) -> bool {
        CertificationRequestInfo::expect_shapes(elem).is_some()
    }

    fn read_at(alloc: Global, elem: Elem<'_>) -> Result<CertificationRequestInfo, DerError> {
        let Some(fields) = RequestFields::of(elem) else {
            return Err(DerError::Shape);
        };
        let subject = Name::read_at(alloc, fields.subject)?;
        let key = SubjectPublicKeyInfo::read_at(alloc, fields.subject_public_key_info)?;
        let attributes = read_attributes(alloc, fields.attributes)?;
        Ok(CertificationRequestInfo {
            subject,
            subject_public_key_info: key,
            attributes,
        })
    }

    fn write(&self, alloc: Global) -> Result<Tree, DerError> {
        let mut kids = NewKids::new(alloc);
        kids.push(leaf(alloc, INTEGER, &[0])?)?;
        kids.push(self.subject.write(alloc)?)?;
        kids.push(self.subject_public_key_info.write(alloc)?)?;
        push_attributes(alloc, &mut kids, &self.attributes)?;
        Ok(kids.into_branch(SEQUENCE))
    }

    fn try_clone(&self, alloc: Global) -> Result<CertificationRequestInfo, AllocError> {
        Ok(CertificationRequestInfo {
            subject: self.subject.try_clone(alloc)?,
            subject_public_key_info: self.subject_public_key_info.try_clone(alloc)?,
            attributes: copy_attributes(alloc, &self.attributes)?,
        })
    }

    ghost grammar = { request_infos };
}

/// The signed parts of requests are equal exactly if the kinds of the extension values in them and
/// their encodings are; if both can be written, the encodings alone decide.
impl PartialEq for CertificationRequestInfo {
    ghost use Rattle.std.specs.Ordering.{on};
    ghost use Rattle.std.specs.Cmp.Lexicographic.{nat_list_eq_equiv};
    ghost use Rattle.std.specs.Cmp.{on_per, partial_equiv_from_equiv};
    ghost use Rattle.std.specs.Prelude.{bytes_eq};
    ghost use Rattle.der_core.specs.Equality.{same_octets};
    ghost use Rattle.x509_issuing.specs.RequestInfo.{request_info, inner_request, request_info_octets};

    ghost eq = { on (λ value. request_info_octets value) bytes_eq };

    ghost laws = { on_per (λ value. request_info_octets value)
        (partial_equiv_from_equiv nat_list_eq_equiv) };

    fn eq(&self, other: &CertificationRequestInfo) -> bool
        ensures octets { AreDer (inner_request self.now) → AreDer (inner_request other.now)
            → result ≡ same_octets request_info self.now other.now }
        ensures compared { result ≡ bytes_eq (request_info_octets self.now)
            (request_info_octets other.now) }
        ensures same { IsTrue result ↔ (self.now ≡ other.now) }
    {
        self.subject == other.subject
            && self.subject_public_key_info == other.subject_public_key_info
            && are_same_attributes(&self.attributes, &other.attributes)
    }
}

impl Eq for CertificationRequestInfo {
    ghost use Rattle.std.specs.Cmp.Lexicographic.{nat_list_eq_equiv};
    ghost use Rattle.std.specs.Cmp.{on_equiv};
    ghost use Rattle.x509_issuing.specs.RequestInfo.{request_info_octets};

    ghost laws = { on_equiv (λ value. request_info_octets value) nat_list_eq_equiv };
}
