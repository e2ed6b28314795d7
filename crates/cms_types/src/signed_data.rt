//! Signed data.

ghost use Rattle.std.specs.Prelude.{◌≡◌, ◌↔◌, IsTrue};

pub(crate) mod certificate_choices;
pub(crate) mod fields;
mod parts;
pub(crate) mod pkcs7;
pub(crate) mod raw_certificate;
pub(crate) mod view;

use crate::list_fields::{push_list, push_values};
use crate::shapes::is_signed_data;
use crate::signed_data::certificate_choices::CertificateChoices;
use crate::signed_data::fields::{CERTIFICATES, REVOCATION_LISTS, SignedDataFields};
use crate::signed_data::parts::{CarriedPart, SignedPart, join};
use crate::signer_info::SignerInfo;
use crate::unsigned_attribute::raw::RawList;
use crate::version::CmsVersion;
use cms_content::EncapsulatedContentInfo;
use der_core::tag::{SEQUENCE, SET};
use der_core::{DerError, Elem, ListOf, NewKids, Structure, Tree, push_value};
use key_types::AlgorithmIdentifier;
use std::alloc::{AllocError, Global};

/// Digest algorithms in order.
pub type DigestAlgorithms = ListOf<AlgorithmIdentifier>;

/// Certificates of signed data in order.
pub type CertificateSet = ListOf<CertificateChoices>;

/// Signers in order.
pub type SignersInfos = ListOf<SignerInfo>;

/// Signed data: a content, its signers, and certificates for checking the signatures (RFC 5652 5.1,
/// RFC 2315 9.1). The certificates and the revocation lists are stored raw.
#[derive(Debug, Drop)]
pub struct SignedData {
    pub version: CmsVersion,
    pub digest_algorithms: DigestAlgorithms,
    pub content_info: EncapsulatedContentInfo,
    pub certificates: Option<CertificateSet>,
    pub crls: Option<RawList>,
    pub signers_infos: SignersInfos,
}

impl SignedDataFields<'_> {
    ghost use Rattle.std.specs.Prelude.{MatchResult};
    ghost use Rattle.der_core.specs.Refusals.{RefusesShape};
    ghost use Rattle.cms_types.specs.Borrowed.{signed_data_at};
    ghost use Rattle.cms_types.specs.SignedData.{AreDataFields};

    /// Reads the value from the fields.
    fn read(&self, alloc: Global) -> Result<SignedData, DerError>
        ensures { MatchResult result
            (AreDataFields (signed_data_at self.now))
            (RefusesShape (AreDataFields (signed_data_at self.now))) }
    {
        let version = CmsVersion::read_at(alloc, self.version)?;
        let carried = CarriedPart::read(alloc, self)?;
        let signed = SignedPart::read(alloc, self)?;
        Ok(join(version, signed, carried))
    }
}

impl SignedData {
    /// Whether the digest algorithms and the signers are the same.
    fn has_same_lists(&self, other: &SignedData) -> bool
        ensures { IsTrue result
            ↔ (self.now.digest_algorithms ≡ other.now.digest_algorithms)
            × (self.now.signers_infos ≡ other.now.signers_infos) }
    {
        are_same_algorithms(&self.digest_algorithms, &other.digest_algorithms)
            && are_same_signers(&self.signers_infos, &other.signers_infos)
    }

    /// Whether the certificates and the revocation lists are the same, if present.
    fn has_same_options(&self, other: &SignedData) -> bool
        ensures { IsTrue result
            ↔ (self.now.certificates ≡ other.now.certificates) × (self.now.crls ≡ other.now.crls) }
    {
        are_same_certificates(&self.certificates, &other.certificates)
            && are_same_lists(&self.crls, &other.crls)
    }

    /// Whether each field is the same.
    fn is_same(&self, other: &SignedData) -> bool
        ensures { IsTrue result ↔ (self.now ≡ other.now) }
    {
        self.has_same_lists(other)
            && self.has_same_options(other)
            && self.version == other.version
            && self.content_info == other.content_info
    }
}

/// Whether the algorithms are the same.
fn are_same_algorithms(a: &DigestAlgorithms, b: &DigestAlgorithms) -> bool
    ensures { IsTrue result ↔ (a.now ≡ b.now) }
{
    a == b
}

/// Whether the signers are the same.
fn are_same_signers(a: &SignersInfos, b: &SignersInfos) -> bool
    ensures { IsTrue result ↔ (a.now ≡ b.now) }
{
    a == b
}

/// Whether the certificates are the same, present or absent.
fn are_same_certificates(a: &Option<CertificateSet>, b: &Option<CertificateSet>) -> bool
    ensures { IsTrue result ↔ (a.now ≡ b.now) }
{
    a == b
}

/// Whether the revocation lists are the same, present or absent.
fn are_same_lists(a: &Option<RawList>, b: &Option<RawList>) -> bool
    ensures { IsTrue result ↔ (a.now ≡ b.now) }
{
    a == b
}

impl Structure for SignedData {
    ghost use Rattle.cms_types.specs.SignedData.{signed_data};
    ghost use Rattle.cms_types.specs.Facts.SignedDatas.{all_signed_data};

    ghost written = { signed_data };

    ghost spells = { λ element value. element ≡ signed_data value };

    fn has_shape(elem: Elem<'_>) -> bool {
        is_signed_data(elem)
    }

    fn read_at(alloc: Global, elem: Elem<'_>) -> Result<SignedData, DerError> {
        match SignedDataFields::of(elem) {
            Some(fields) => fields.read(alloc),
            None => Err(DerError::Shape),
        }
    }

    fn write(&self, alloc: Global) -> Result<Tree, DerError> {
        let mut kids = NewKids::new(alloc);
        push_value(alloc, &mut kids, &self.version)?;
        push_values(alloc, &mut kids, SET, &self.digest_algorithms)?;
        push_value(alloc, &mut kids, &self.content_info)?;
        push_list(alloc, &mut kids, CERTIFICATES, &self.certificates)?;
        push_list(alloc, &mut kids, REVOCATION_LISTS, &self.crls)?;
        push_values(alloc, &mut kids, SET, &self.signers_infos)?;
        Ok(kids.into_branch(SEQUENCE))
    }

    fn try_clone(&self, alloc: Global) -> Result<SignedData, AllocError> {
        let carried = CarriedPart::copy(alloc, self)?;
        let signed = SignedPart::copy(alloc, self)?;
        Ok(join(self.version, signed, carried))
    }

    ghost grammar = { all_signed_data };
}

/// Signed data is equal exactly where it is written as the same element.
impl PartialEq for SignedData {
    ghost use Rattle.der_core.specs.Equality.{same_octets};
    ghost use Rattle.der_core.specs.Facts.Equality.{same_octets_per};
    ghost use Rattle.cms_types.specs.SignedData.{signed_data};

    ghost eq = { same_octets signed_data };

    ghost laws = { same_octets_per signed_data };

    fn eq(&self, other: &SignedData) -> bool
        ensures octets { result ≡ same_octets signed_data self.now other.now }
        ensures same { IsTrue result ↔ (self.now ≡ other.now) }
        ensures written { IsTrue result ↔ (signed_data self.now ≡ signed_data other.now) }
    {
        self.is_same(other)
    }
}

impl Eq for SignedData {
    ghost use Rattle.der_core.specs.Facts.Equality.{same_octets_equiv};
    ghost use Rattle.cms_types.specs.SignedData.{signed_data};

    ghost laws = { same_octets_equiv signed_data };
}
