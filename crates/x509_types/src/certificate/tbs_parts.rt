//! The fields of a TBSCertificate in three parts, which are read and copied one after another.

ghost use Rattle.std.specs.Prelude.{◌≡◌, IfOk, MatchResult};
ghost use Rattle.der_core.specs.Refusals.{RefusesShape};
ghost use Rattle.x509_types.specs.BorrowedTbs.{elements_at};
ghost use Rattle.x509_types.specs.TbsParts.{IsIssuedBy, IsIssuedTo, AreAdded, issued_by, issued_to, added_fields, tbs_of_parts};

use crate::certificate::tbs_certificate::TbsCertificate;
use crate::certificate::tbs_fields::TbsFields;
use crate::certificate::version::Version;
use crate::{AlgorithmIdentifier, Extensions, Name, SubjectPublicKeyInfo, Validity};
use asn1_types::IntegerAsn1;
use der_core::{DerError, Octets, Structure, copy_octets, copy_option, read_option};
use std::alloc::{AllocError, Global};

/// Version, serial number, signature algorithm and issuer (RFC 5280 4.1.2.1 to 4.1.2.4).
#[derive(Drop)]
pub(crate) struct IssuedBy {
    pub version: Option<Version>,
    pub serial_number: IntegerAsn1,
    pub signature: AlgorithmIdentifier,
    pub issuer: Name,
}

/// Validity, subject and key (RFC 5280 4.1.2.5 to 4.1.2.7).
#[derive(Drop)]
pub(crate) struct IssuedTo {
    pub validity: Validity,
    pub subject: Name,
    pub subject_public_key_info: SubjectPublicKeyInfo,
}

/// The fields that later versions added (RFC 5280 4.1.2.8, 4.1.2.9).
#[derive(Drop)]
pub(crate) struct AddedFields {
    pub issuer_unique_id: Option<Octets>,
    pub subject_unique_id: Option<Octets>,
    pub extensions: Option<Extensions>,
}

impl IssuedBy {
    /// The part that the elements encode.
    pub fn read(alloc: Global, fields: &TbsFields<'_>) -> Result<IssuedBy, DerError>
        ensures { MatchResult result
            (IsIssuedBy (elements_at fields.now))
            (RefusesShape (IsIssuedBy (elements_at fields.now))) }
    {
        Ok(IssuedBy {
            version: read_option(alloc, fields.version)?,
            serial_number: IntegerAsn1::from_content(alloc, fields.serial_number)?,
            signature: AlgorithmIdentifier::read_at(alloc, fields.signature)?,
            issuer: Name::read_at(alloc, fields.issuer)?,
        })
    }

    /// A copy of the part.
    pub fn copy(alloc: Global, tbs: &TbsCertificate) -> Result<IssuedBy, AllocError>
        ensures { IfOk result (λ copy. copy ≡ issued_by tbs.now) }
    {
        Ok(IssuedBy {
            version: tbs.version,
            serial_number: tbs.serial_number.try_clone(alloc)?,
            signature: tbs.signature.try_clone(alloc)?,
            issuer: tbs.issuer.try_clone(alloc)?,
        })
    }
}

impl IssuedTo {
    /// The part that the elements encode.
    pub fn read(alloc: Global, fields: &TbsFields<'_>) -> Result<IssuedTo, DerError>
        ensures { MatchResult result
            (IsIssuedTo (elements_at fields.now))
            (RefusesShape (IsIssuedTo (elements_at fields.now))) }
    {
        let key = fields.subject_public_key_info;
        Ok(IssuedTo {
            validity: Validity::read_at(alloc, fields.validity)?,
            subject: Name::read_at(alloc, fields.subject)?,
            subject_public_key_info: SubjectPublicKeyInfo::read_at(alloc, key)?,
        })
    }

    /// A copy of the part.
    pub fn copy(alloc: Global, tbs: &TbsCertificate) -> Result<IssuedTo, AllocError>
        ensures { IfOk result (λ copy. copy ≡ issued_to tbs.now) }
    {
        Ok(IssuedTo {
            validity: tbs.validity.try_clone(alloc)?,
            subject: tbs.subject.try_clone(alloc)?,
            subject_public_key_info: tbs.subject_public_key_info.try_clone(alloc)?,
        })
    }
}

impl AddedFields {
    /// The part that the elements encode.
    pub fn read(alloc: Global, fields: &TbsFields<'_>) -> Result<AddedFields, DerError>
        ensures { MatchResult result
            (AreAdded (elements_at fields.now))
            (RefusesShape (AreAdded (elements_at fields.now))) }
    {
        Ok(AddedFields {
            issuer_unique_id: copy_octets(alloc, fields.issuer_unique_id)?,
            subject_unique_id: copy_octets(alloc, fields.subject_unique_id)?,
            extensions: read_option(alloc, fields.extensions)?,
        })
    }

    /// A copy of the part.
    pub fn copy(alloc: Global, tbs: &TbsCertificate) -> Result<AddedFields, AllocError>
        ensures { IfOk result (λ copy. copy ≡ added_fields tbs.now) }
    {
        Ok(AddedFields {
            issuer_unique_id: copy_option(alloc, &tbs.issuer_unique_id)?,
            subject_unique_id: copy_option(alloc, &tbs.subject_unique_id)?,
            extensions: copy_option(alloc, &tbs.extensions)?,
        })
    }
}

/// The TBSCertificate with these parts.
pub(crate) fn join(by: IssuedBy, to: IssuedTo, added: AddedFields) -> TbsCertificate
    ensures { result ≡ tbs_of_parts by to added }
{
    TbsCertificate {
        version: by.version,
        serial_number: by.serial_number,
        signature: by.signature,
        issuer: by.issuer,
        validity: to.validity,
        subject: to.subject,
        subject_public_key_info: to.subject_public_key_info,
        issuer_unique_id: added.issuer_unique_id,
        subject_unique_id: added.subject_unique_id,
        extensions: added.extensions,
    }
}
