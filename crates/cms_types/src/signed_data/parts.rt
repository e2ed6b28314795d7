//! The fields of signed data in two parts that are read and copied one after the other.

ghost use Rattle.std.specs.Prelude.{◌≡◌, IfOk, MatchResult};
ghost use Rattle.der_core.specs.Refusals.{RefusesShape};
ghost use Rattle.cms_types.specs.Borrowed.{signed_data_at};
ghost use Rattle.cms_types.specs.SignedDataParts.{AreCarriedFields, AreSigned, carried_of, data_of_parts, signed_of};

use crate::list_fields::{copy_list, read_list_option};
use crate::signed_data::fields::{CERTIFICATES, REVOCATION_LISTS, SignedDataFields};
use crate::signed_data::{CertificateSet, DigestAlgorithms, SignedData, SignersInfos};
use crate::unsigned_attribute::raw::RawList;
use crate::version::CmsVersion;
use cms_content::EncapsulatedContentInfo;
use der_core::tag::SET;
use der_core::{DerError, Structure, copy_each, read_list};
use std::alloc::{AllocError, Global};

/// What is signed, by whom, and with which digest algorithms (RFC 5652 5.1).
#[derive(Drop)]
pub(crate) struct SignedPart {
    pub digest_algorithms: DigestAlgorithms,
    pub content_info: EncapsulatedContentInfo,
    pub signers_infos: SignersInfos,
}

/// The certificates and revocation lists for checking the signatures (RFC 5652 5.1).
#[derive(Drop)]
pub(crate) struct CarriedPart {
    pub certificates: Option<CertificateSet>,
    pub crls: Option<RawList>,
}

impl SignedPart {
    /// Reads the part from its elements.
    pub fn read(alloc: Global, fields: &SignedDataFields<'_>) -> Result<SignedPart, DerError>
        ensures { MatchResult result
            (AreSigned (signed_data_at fields.now))
            (RefusesShape (AreSigned (signed_data_at fields.now))) }
    {
        Ok(SignedPart {
            digest_algorithms: read_list(alloc, fields.digest_algorithms, SET)?,
            signers_infos: read_list(alloc, fields.signers_infos, SET)?,
            // Last, so that nothing of it has to be freed if another field fails.
            content_info: EncapsulatedContentInfo::read_at(alloc, fields.content_info)?,
        })
    }

    /// A copy of the part.
    pub fn copy(alloc: Global, value: &SignedData) -> Result<SignedPart, AllocError>
        ensures { IfOk result (λ copy. copy ≡ signed_of value.now) }
    {
        Ok(SignedPart {
            digest_algorithms: copy_each(alloc, &value.digest_algorithms)?,
            signers_infos: copy_each(alloc, &value.signers_infos)?,
            content_info: value.content_info.try_clone(alloc)?,
        })
    }
}

impl CarriedPart {
    /// Reads the part from its elements.
    pub fn read(alloc: Global, fields: &SignedDataFields<'_>) -> Result<CarriedPart, DerError>
        ensures { MatchResult result
            (AreCarriedFields (signed_data_at fields.now))
            (RefusesShape (AreCarriedFields (signed_data_at fields.now))) }
    {
        Ok(CarriedPart {
            certificates: read_list_option(alloc, fields.certificates, CERTIFICATES)?,
            crls: read_list_option(alloc, fields.crls, REVOCATION_LISTS)?,
        })
    }

    /// A copy of the part.
    pub fn copy(alloc: Global, value: &SignedData) -> Result<CarriedPart, AllocError>
        ensures { IfOk result (λ copy. copy ≡ carried_of value.now) }
    {
        Ok(CarriedPart {
            certificates: copy_list(alloc, &value.certificates)?,
            crls: copy_list(alloc, &value.crls)?,
        })
    }
}

/// The signed data with this version and these parts.
pub(crate) fn join(version: CmsVersion, signed: SignedPart, carried: CarriedPart) -> SignedData
    ensures { result ≡ data_of_parts version signed carried }
{
    SignedData {
        version,
        digest_algorithms: signed.digest_algorithms,
        content_info: signed.content_info,
        certificates: carried.certificates,
        crls: carried.crls,
        signers_infos: signed.signers_infos,
    }
}
