//! The fields of a signer in two parts that are read and copied one after the other.

ghost use Rattle.std.specs.Prelude.{◌≡◌, IfOk, MatchResult};
ghost use Rattle.der_core.specs.Refusals.{RefusesShape};
ghost use Rattle.cms_types.specs.Borrowed.{signer_at};
ghost use Rattle.cms_types.specs.SignerParts.{AreSignatureFields, AreSignedByFields, signature_fields, signed_by, signer_of_parts};

use crate::list_fields::{copy_list, read_list_option};
use crate::signer_info::SignerInfo;
use crate::signer_info::fields::{SignerFields, UNSIGNED_ATTRIBUTES};
use crate::signer_info::identifier::SignerIdentifier;
use crate::signer_info::signed_attributes::SignedAttributes;
use crate::unsigned_attribute::UnsignedAttributeList;
use crate::version::CmsVersion;
use der_core::{DerError, Octets, Structure, copy_option, read_option};
use key_types::AlgorithmIdentifier;
use std::alloc::{AllocError, Global};

/// Who signs, and with which algorithms (RFC 5652 5.3).
#[derive(Drop)]
pub(crate) struct SignedBy {
    pub sid: SignerIdentifier,
    pub digest_algorithm: AlgorithmIdentifier,
    pub signature_algorithm: AlgorithmIdentifier,
}

/// The signature, with the signed and the unsigned attributes (RFC 5652 5.3).
#[derive(Drop)]
pub(crate) struct SignatureFields {
    pub signed_attrs: Option<SignedAttributes>,
    pub signature: Octets,
    pub unsigned_attrs: Option<UnsignedAttributeList>,
}

impl SignedBy {
    /// Reads the part from its elements.
    pub fn read(alloc: Global, fields: &SignerFields<'_>) -> Result<SignedBy, DerError>
        ensures { MatchResult result
            (AreSignedByFields (signer_at fields.now))
            (RefusesShape (AreSignedByFields (signer_at fields.now))) }
    {
        Ok(SignedBy {
            digest_algorithm: AlgorithmIdentifier::read_at(alloc, fields.digest_algorithm)?,
            signature_algorithm: AlgorithmIdentifier::read_at(alloc, fields.signature_algorithm)?,
            // Last, so that nothing of it has to be freed if another field fails.
            sid: SignerIdentifier::read_at(alloc, fields.sid)?,
        })
    }

    /// A copy of the part.
    pub fn copy(alloc: Global, signer: &SignerInfo) -> Result<SignedBy, AllocError>
        ensures { IfOk result (λ copy. copy ≡ signed_by signer.now) }
    {
        Ok(SignedBy {
            digest_algorithm: signer.digest_algorithm.try_clone(alloc)?,
            signature_algorithm: signer.signature_algorithm.try_clone(alloc)?,
            sid: signer.sid.try_clone(alloc)?,
        })
    }
}

impl SignatureFields {
    /// Reads the part from its elements.
    pub fn read(alloc: Global, fields: &SignerFields<'_>) -> Result<SignatureFields, DerError>
        ensures { MatchResult result
            (AreSignatureFields (signer_at fields.now))
            (RefusesShape (AreSignatureFields (signer_at fields.now))) }
    {
        Ok(SignatureFields {
            signature: Octets::read_at(alloc, fields.signature)?,
            unsigned_attrs: read_list_option(alloc, fields.unsigned_attrs, UNSIGNED_ATTRIBUTES)?,
            signed_attrs: read_option(alloc, fields.signed_attrs)?,
        })
    }

    /// A copy of the part.
    pub fn copy(alloc: Global, signer: &SignerInfo) -> Result<SignatureFields, AllocError>
        ensures { IfOk result (λ copy. copy ≡ signature_fields signer.now) }
    {
        Ok(SignatureFields {
            signature: signer.signature.try_clone(alloc)?,
            unsigned_attrs: copy_list(alloc, &signer.unsigned_attrs)?,
            signed_attrs: copy_option(alloc, &signer.signed_attrs)?,
        })
    }
}

/// The signer with this version and these parts.
pub(crate) fn join(version: CmsVersion, by: SignedBy, signed: SignatureFields) -> SignerInfo
    ensures { result ≡ signer_of_parts version by signed }
{
    SignerInfo {
        version,
        sid: by.sid,
        digest_algorithm: by.digest_algorithm,
        signed_attrs: signed.signed_attrs,
        signature_algorithm: by.signature_algorithm,
        signature: signed.signature,
        unsigned_attrs: signed.unsigned_attrs,
    }
}
