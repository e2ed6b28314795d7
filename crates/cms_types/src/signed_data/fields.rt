//! The fields of signed data, borrowed (RFC 5652 5.1).
//!
//! ```text
//! SignedData ::= SEQUENCE {
//!   version CMSVersion,
//!   digestAlgorithms DigestAlgorithmIdentifiers,
//!   encapContentInfo EncapsulatedContentInfo,
//!   certificates [0] IMPLICIT CertificateSet OPTIONAL,
//!   crls [1] IMPLICIT RevocationInfoChoices OPTIONAL,
//!   signerInfos SignerInfos }
//!
//! DigestAlgorithmIdentifiers ::= SET OF DigestAlgorithmIdentifier
//!
//! SignerInfos ::= SET OF SignerInfo
//! ```
//!
//! In PKCS #7 the third field is `contentInfo ContentInfo`, whose content is of the kind that its
//! type names (RFC 2315 7, 9.1); it is read that way. Members of `certificates` and `crls` are any
//! elements. A SET OF may be in any order, and the version needn't fit the other fields.

ghost use Rattle.std.specs.Prelude.{◌≢◌, MatchOption};
ghost use Rattle.der_core.specs.DerElement.{DerElement};
ghost use Rattle.cms_types.specs.Borrowed.{signed_data_at};
ghost use Rattle.cms_types.specs.Levels.{IsSignedDataOf};
ghost use Rattle.cms_types.specs.SignedDataElements.{SignedDataElements};

use crate::signer_info::fields::expect_list;
use crate::version::CmsVersion;
use cms_content::EncapsulatedContentInfo;
use der_core::tag::{SEQUENCE, SET};
use der_core::{Elem, Kids};
use key_types::AlgorithmIdentifier;

pub(crate) const CERTIFICATES: u8 = 0xA0;

pub(crate) const REVOCATION_LISTS: u8 = 0xA1;

/// The fields of signed data, borrowed, each with its structure except for the signers, which
/// aren't checked.
#[derive(Clone, Copy)]
pub(crate) struct SignedDataFields<'a> {
    pub version: Elem<'a>,
    pub digest_algorithms: Elem<'a>,
    pub content_info: Elem<'a>,
    pub certificates: Option<Elem<'a>>,
    pub crls: Option<Elem<'a>>,
    pub signers_infos: Elem<'a>,
}

impl<'a> SignedDataFields<'a> {
    /// The fields of the element.
    pub fn of(elem: Elem<'a>) -> Option<SignedDataFields<'a>>
        ensures { MatchOption result
            ((f : SignedDataElements) → IsSignedDataOf elem.entry.is.0 f → ⊥)
            (λ fields. IsSignedDataOf elem.entry.is.0 (signed_data_at fields)) }
    {
        let mut kids = Kids::of(elem, SEQUENCE)?;
        let version = kids.next_as::<CmsVersion>()?;
        let digest_algorithms = kids.next()?;
        expect_list::<AlgorithmIdentifier>(digest_algorithms, SET)?;
        let content_info = kids.next_as::<EncapsulatedContentInfo>()?;
        let certificates = kids.next_tagged(CERTIFICATES);
        let crls = kids.next_tagged(REVOCATION_LISTS);
        let signers_infos = kids.next_tagged(SET)?;
        kids.end()?;
        Some(SignedDataFields {
            version,
            digest_algorithms,
            content_info,
            certificates,
            crls,
            signers_infos,
        })
    }
}
