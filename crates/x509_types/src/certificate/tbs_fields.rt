//! The fields of a borrowed TBSCertificate (RFC 5280 4.1).
//!
//! ```text
//! TBSCertificate  ::=  SEQUENCE  {
//!      version         [0]  EXPLICIT Version DEFAULT v1,
//!      serialNumber         CertificateSerialNumber,
//!      signature            AlgorithmIdentifier,
//!      issuer               Name,
//!      validity             Validity,
//!      subject              Name,
//!      subjectPublicKeyInfo SubjectPublicKeyInfo,
//!      issuerUniqueID  [1]  IMPLICIT UniqueIdentifier OPTIONAL,
//!                           -- If present, version MUST be v2 or v3
//!      subjectUniqueID [2]  IMPLICIT UniqueIdentifier OPTIONAL,
//!                           -- If present, version MUST be v2 or v3
//!      extensions      [3]  EXPLICIT Extensions OPTIONAL
//!                           -- If present, version MUST be v3
//!      }
//!
//! Version  ::=  INTEGER  {  v1(0), v2(1), v3(2)  }
//!
//! CertificateSerialNumber  ::=  INTEGER
//!
//! UniqueIdentifier  ::=  BIT STRING
//!
//! Extensions  ::=  SEQUENCE SIZE (1..MAX) OF Extension
//! ```
//!
//! Also accepted: an explicit v1, unique identifiers and extensions in any version, unique
//! identifiers of any octets, and an empty list of extensions.

ghost use Rattle.std.specs.Prelude.{◌≡◌, ◌≢◌, MatchOption, MatchResult};
ghost use Rattle.der_core.specs.Refusals.{RefusesShape};
ghost use Rattle.der_core.specs.Structure.{Fits};
ghost use Rattle.asn1_types.specs.Values.{integer_contents};
ghost use Rattle.asn1_types.specs.declared.integer.IntegerAsn1.{IntegerAsn1};
ghost use Rattle.x509_types.specs.TbsElements.{TbsElements, tbs_of};
ghost use Rattle.x509_types.specs.BorrowedTbs.{elements_at};
ghost use Rattle.x509_types.specs.TbsCertificate.{AreTbsFields};

use crate::certificate::tbs_certificate::TbsCertificate;
use crate::certificate::tbs_parts::{AddedFields, IssuedBy, IssuedTo, join};
use crate::certificate::version::Version;
use crate::{AlgorithmIdentifier, Extensions, Name, SubjectPublicKeyInfo, Validity};
use asn1_types::IntegerAsn1;
use der_core::tag::{INTEGER, SEQUENCE};
use der_core::{DerError, Elem, Kids, expect, expect_option, leaf_at};
use std::alloc::Global;

/// The explicit tag of the version.
pub(crate) const VERSION: u8 = 0xA0;

/// The tag of the unique identifier of the issuer.
pub(crate) const ISSUER_UNIQUE_ID: u8 = 0x81;

/// The tag of the unique identifier of the subject.
pub(crate) const SUBJECT_UNIQUE_ID: u8 = 0x82;

/// The explicit tag of the extensions.
pub(crate) const EXTENSIONS: u8 = 0xA3;

/// The fields of a TBSCertificate, each as any element; the serial number and the unique
/// identifiers as contents octets.
#[derive(Clone, Copy)]
pub(crate) struct TbsFields<'a> {
    pub version: Option<Elem<'a>>,
    pub serial_number: &'a [u8],
    pub signature: Elem<'a>,
    pub issuer: Elem<'a>,
    pub validity: Elem<'a>,
    pub subject: Elem<'a>,
    pub subject_public_key_info: Elem<'a>,
    pub issuer_unique_id: Option<&'a [u8]>,
    pub subject_unique_id: Option<&'a [u8]>,
    pub extensions: Option<Elem<'a>>,
}

impl<'a> TbsFields<'a> {
    ghost use Rattle.x509_types.specs.declared.certificate.tbs_certificate.TbsCertificate.{TbsCertificate};

    /// The fields of the element.
    pub fn of(elem: Elem<'a>) -> Option<TbsFields<'a>>
        ensures { MatchOption result
            ((f : TbsElements) → elem.entry.is.0 ≢ tbs_of f)
            (λ fields. elem.entry.is.0 ≡ tbs_of (elements_at fields)) }
    {
        let mut kids = Kids::of(elem, SEQUENCE)?;
        let version = kids.next_explicit(VERSION)?;
        let serial_number = leaf_at(kids.next()?, INTEGER)?;
        let signature = kids.next()?;
        let issuer = kids.next()?;
        let validity = kids.next()?;
        let subject = kids.next()?;
        let subject_public_key_info = kids.next()?;
        let issuer_unique_id = kids.next_leaf(ISSUER_UNIQUE_ID);
        let subject_unique_id = kids.next_leaf(SUBJECT_UNIQUE_ID);
        let extensions = kids.next_explicit(EXTENSIONS)?;
        kids.end()?;
        Some(TbsFields {
            version,
            serial_number,
            signature,
            issuer,
            validity,
            subject,
            subject_public_key_info,
            issuer_unique_id,
            subject_unique_id,
            extensions,
        })
    }

    /// `Some` if each field has its shape.
    pub fn expect_shapes(&self) -> Option<()>
        ensures { MatchOption result
            ((tbs : TbsCertificate) → AreTbsFields (elements_at self.now) tbs → ⊥)
            (λ _. Fits AreTbsFields (elements_at self.now)) }
    {
        expect_option::<Version>(self.version)?;
        expect_integer(self.serial_number)?;
        expect::<AlgorithmIdentifier>(self.signature)?;
        expect::<Name>(self.issuer)?;
        expect::<Validity>(self.validity)?;
        expect::<Name>(self.subject)?;
        expect::<SubjectPublicKeyInfo>(self.subject_public_key_info)?;
        expect_option::<Extensions>(self.extensions)?;
        Some(())
    }

    /// The value of the fields.
    pub fn read(&self, alloc: Global) -> Result<TbsCertificate, DerError>
        ensures { MatchResult result
            (AreTbsFields (elements_at self.now))
            (RefusesShape (AreTbsFields (elements_at self.now))) }
    {
        let by = IssuedBy::read(alloc, self)?;
        let to = IssuedTo::read(alloc, self)?;
        let added = AddedFields::read(alloc, self)?;
        Ok(join(by, to, added))
    }
}

/// `Some` if the octets are the contents of an INTEGER.
fn expect_integer(contents: &[u8]) -> Option<()>
    ensures { MatchOption result
        ((value : IntegerAsn1) → contents.now ≢ integer_contents value)
        (λ _. (value : IntegerAsn1) × (contents.now ≡ integer_contents value)) }
{
    if IntegerAsn1::is_content(contents) {
        Some(())
    } else {
        None
    }
}
