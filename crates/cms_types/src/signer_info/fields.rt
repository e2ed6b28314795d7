//! The fields of a signer, borrowed (RFC 5652 5.3).
//!
//! ```text
//! SignerInfo ::= SEQUENCE {
//!   version CMSVersion,
//!   sid SignerIdentifier,
//!   digestAlgorithm DigestAlgorithmIdentifier,
//!   signedAttrs [0] IMPLICIT SignedAttributes OPTIONAL,
//!   signatureAlgorithm SignatureAlgorithmIdentifier,
//!   signature SignatureValue,
//!   unsignedAttrs [1] IMPLICIT UnsignedAttributes OPTIONAL }
//!
//! SignerIdentifier ::= CHOICE {
//!   issuerAndSerialNumber IssuerAndSerialNumber,
//!   subjectKeyIdentifier [0] SubjectKeyIdentifier }
//!
//! SignedAttributes ::= SET SIZE (1..MAX) OF Attribute
//!
//! UnsignedAttributes ::= SET SIZE (1..MAX) OF Attribute
//!
//! SignatureValue ::= OCTET STRING
//! ```
//!
//! In PKCS #7 the fields from the fourth on are `authenticatedAttributes`,
//! `digestEncryptionAlgorithm`, `encryptedDigest` and `unauthenticatedAttributes` (RFC 2315 9.2).
//! Sets of attributes may be empty and in any order.

ghost use Rattle.std.specs.Prelude.{MatchOption};
ghost use Rattle.der_core.specs.Each.{IsListOf};
ghost use Rattle.der_core.specs.BorrowedOption.{at_option};
ghost use Rattle.der_core.specs.Structure.{Fits};
ghost use Rattle.cms_types.specs.Borrowed.{signer_at};
ghost use Rattle.cms_types.specs.Levels.{IsSignerOf, OfOption};
ghost use Rattle.cms_types.specs.SignerElements.{SignerElements};

use crate::signer_info::identifier::SignerIdentifier;
use crate::signer_info::signed_attributes::SIGNED_ATTRIBUTES;
use crate::version::CmsVersion;
use der_core::tag::SEQUENCE;
use der_core::{Elem, Kids, Octets, Structure, has_list};
use key_types::AlgorithmIdentifier;
use x509_types::Attribute;

pub(crate) const UNSIGNED_ATTRIBUTES: u8 = 0xA1;

/// The fields of a signer, borrowed, each with its structure except for the unsigned attributes,
/// which aren't checked.
#[derive(Clone, Copy)]
pub(crate) struct SignerFields<'a> {
    pub version: Elem<'a>,
    pub sid: Elem<'a>,
    pub digest_algorithm: Elem<'a>,
    pub signed_attrs: Option<Elem<'a>>,
    pub signature_algorithm: Elem<'a>,
    pub signature: Elem<'a>,
    pub unsigned_attrs: Option<Elem<'a>>,
}

impl<'a> SignerFields<'a> {
    /// The fields of the element.
    pub fn of(elem: Elem<'a>) -> Option<SignerFields<'a>>
        ensures { MatchOption result
            ((f : SignerElements) → IsSignerOf elem.entry.is.0 f → ⊥)
            (λ fields. IsSignerOf elem.entry.is.0 (signer_at fields)) }
    {
        let mut kids = Kids::of(elem, SEQUENCE)?;
        let version = kids.next_as::<CmsVersion>()?;
        let sid = kids.next_as::<SignerIdentifier>()?;
        let digest_algorithm = kids.next_as::<AlgorithmIdentifier>()?;
        let signed_attrs = kids.next_tagged(SIGNED_ATTRIBUTES);
        expect_list_option::<Attribute>(signed_attrs, SIGNED_ATTRIBUTES)?;
        let signature_algorithm = kids.next_as::<AlgorithmIdentifier>()?;
        let signature = kids.next_as::<Octets>()?;
        let unsigned_attrs = kids.next_tagged(UNSIGNED_ATTRIBUTES);
        kids.end()?;
        Some(SignerFields {
            version,
            sid,
            digest_algorithm,
            signed_attrs,
            signature_algorithm,
            signature,
            unsigned_attrs,
        })
    }
}

/// Checks that the element, if there is one, has this tag and encodes values.
fn expect_list_option<T: Structure>(elem: Option<Elem<'_>>, tag: u8) -> Option<()>
    ensures { MatchOption result
        (OfOption (Fits (IsListOf tag T.spells)) (at_option elem.entry) → ⊥)
        (λ _. OfOption (Fits (IsListOf tag T.spells)) (at_option elem.entry)) }
{
    match elem {
        Some(elem) => expect_list::<T>(elem, tag),
        None => Some(()),
    }
}

/// Checks that the element has this tag and encodes values.
pub(crate) fn expect_list<T: Structure>(elem: Elem<'_>, tag: u8) -> Option<()>
    ensures { MatchOption result
        (Fits (IsListOf tag T.spells) elem.entry.is.0 → ⊥)
        (λ _. Fits (IsListOf tag T.spells) elem.entry.is.0) }
{
    if has_list::<T>(elem, tag) {
        Some(())
    } else {
        None
    }
}
