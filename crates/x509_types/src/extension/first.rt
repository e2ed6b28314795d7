//! Finding borrowed extensions by their OIDs.

ghost use Rattle.std.specs.Prelude.{◌≡◌, ◌∷◌, [], List, ℕ, MatchOption, bytes_eq};
ghost use Rattle.der_core.specs.DerElement.{DerElement};
ghost use Rattle.der_core.specs.BorrowedOption.{at_option};
ghost use Rattle.der_core.specs.Optional.{members_of};
ghost use Rattle.x509_types.specs.FirstExtension.{IsNamed};
ghost use Rattle.x509_types.specs.FoundExtensions.{AreFound, found_or};

use crate::extension::fields::ExtensionFields;
use asn1_types::oids::{
    CE_AUTHORITY_KEY_IDENTIFIER, CE_BASIC_CONSTRAINTS, CE_EXT_KEY_USAGE, CE_SUBJECT_KEY_IDENTIFIER,
};
use der_core::tag::{OBJECT_IDENTIFIER, SEQUENCE};
use der_core::{Elem, Kids, expect_leaf, is_same, leaf_at};

/// The elements in a list of extensions, if it is present.
#[inline(always)]
pub(crate) fn listed<'a>(list: Option<Elem<'a>>) -> Option<Kids<'a>>
    ensures { MatchOption result
        (members_of (at_option list.entry) ≡ [])
        (λ kids. members_of (at_option list.entry) ≡ kids.are.0) }
{
    Kids::within(list?)
}

/// The octets in the element if it is an extension with this OID, given as contents octets.
#[inline(always)]
pub(crate) fn octets_named<'a>(extension: Elem<'a>, oid: &[u8]) -> Option<&'a [u8]>
    ensures { MatchOption result
        ((octets : List ℕ) → IsNamed oid.now extension.entry.is.0 octets → ⊥)
        (λ octets. IsNamed oid.now extension.entry.is.0 octets.now) }
{
    // The OID comes first. Most extensions have another one, and no more of them is read.
    let mut kids = Kids::of(extension, SEQUENCE)?;
    let first = kids.next()?;
    expect_leaf(first, OBJECT_IDENTIFIER, oid)?;
    let fields = ExtensionFields::of(extension)?;
    Some(fields.value)
}

/// The octets in the first extension of each kind that a borrowed certificate has accessors for.
#[derive(Clone, Copy)]
pub(crate) struct FirstExtensions<'a> {
    pub subject_key: Option<&'a [u8]>,
    pub authority_key: Option<&'a [u8]>,
    pub constraints: Option<&'a [u8]>,
    pub purposes: Option<&'a [u8]>,
}

impl<'a> FirstExtensions<'a> {
    /// Those in a list of extensions, which is read once.
    pub fn of(list: Option<Elem<'a>>) -> FirstExtensions<'a>
        ensures { AreFound (members_of (at_option list.entry)) [] result }
    {
        let firsts = FirstExtensions::none();
        match listed(list) {
            Some(kids) => firsts.with_all(kids),
            None => firsts,
        }
    }

    /// Nothing is found yet.
    fn none() -> FirstExtensions<'a>
        ensures { (all : List DerElement) → AreFound all all result }
    {
        FirstExtensions {
            subject_key: None,
            authority_key: None,
            constraints: None,
            purposes: None,
        }
    }

    /// These, and each of the next elements that is the first of its kind.
    fn with_all(mut self, mut kids: Kids<'a>) -> FirstExtensions<'a>
        ensures { (all : List DerElement) → AreFound all kids.entry.are.0 self.entry
            → AreFound all [] result }
    {
        while let Some(kid) = kids.next() {
            self = self.with(kid);
        }
        self
    }

    /// These, and the next element if it is the first of its kind.
    #[inline(always)]
    fn with(self, next: Elem<'a>) -> FirstExtensions<'a>
        ensures { (all rest more : List DerElement) → rest ≡ next.entry.is.0 ∷ more
            → AreFound all rest self.entry → AreFound all more result }
    {
        let Some((oid, octets)) = named(next) else {
            return self;
        };
        FirstExtensions {
            subject_key: first_of(self.subject_key, oid, CE_SUBJECT_KEY_IDENTIFIER, octets),
            authority_key: first_of(self.authority_key, oid, CE_AUTHORITY_KEY_IDENTIFIER, octets),
            constraints: first_of(self.constraints, oid, CE_BASIC_CONSTRAINTS, octets),
            purposes: first_of(self.purposes, oid, CE_EXT_KEY_USAGE, octets),
        }
    }
}

/// The OID of an extension, as contents octets, and the octets of its value.
#[inline(always)]
fn named<'a>(extension: Elem<'a>) -> Option<(&'a [u8], &'a [u8])>
    ensures { MatchOption result
        ((oid octets : List ℕ) → IsNamed oid extension.entry.is.0 octets → ⊥)
        (λ named. IsNamed named.0.now extension.entry.is.0 named.1.now) }
{
    let fields = ExtensionFields::of(extension)?;
    let oid = leaf_at(fields.oid, OBJECT_IDENTIFIER)?;
    Some((oid, fields.value))
}

/// What was found, else the octets if the OIDs are the same.
#[inline(always)]
fn first_of<'a>(
    found: Option<&'a [u8]>,
    oid: &[u8],
    known: &[u8],
    octets: &'a [u8],
) -> Option<&'a [u8]>
    ensures { result ≡ found_or found.entry (bytes_eq oid.now known.now) octets.entry }
{
    if found.is_some() {
        return found;
    }
    if is_same(oid, known) {
        Some(octets)
    } else {
        None
    }
}
