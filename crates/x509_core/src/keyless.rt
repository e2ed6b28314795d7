//! The parts that a certificate is stored in.

ghost use Rattle.std.specs.Prelude.{◌≡◌, IfOk};
ghost use Rattle.x509_core.specs.Keyless.{joined};

use asn1_types::{BitString, IntegerAsn1};
use der_core::{Octets, Structure, copy_option};
use key_core::PublicKey;
use std::alloc::{AllocError, Global};
use x509_types::{
    AlgorithmIdentifier, Certificate, Extensions, Name, SubjectPublicKeyInfo, TbsCertificate,
    Validity, Version,
};

/// A certificate without the subject's key, which `Cert` returns as a type of its own. It is in two
/// parts, which are copied one after the other.
#[derive(Debug)]
pub(crate) struct Keyless {
    pub issued: IssuedFields,
    pub later: LaterFields,
}

/// How a certificate was issued, by whom and to whom (RFC 5280 4.1.2.1 to 4.1.2.6).
#[derive(Debug, Drop)]
pub(crate) struct IssuedFields {
    pub version: Option<Version>,
    pub serial_number: IntegerAsn1,
    pub signature: AlgorithmIdentifier,
    pub issuer: Name,
    pub validity: Validity,
    pub subject: Name,
}

/// The fields after the key (RFC 5280 4.1.2.8, 4.1.2.9, 4.1.1.2, 4.1.1.3).
#[derive(Debug, Drop)]
pub(crate) struct LaterFields {
    pub issuer_unique_id: Option<Octets>,
    pub subject_unique_id: Option<Octets>,
    pub extensions: Option<Extensions>,
    pub signature_algorithm: AlgorithmIdentifier,
    pub signature_value: BitString,
}

/// By hand, so that dropping one is a call: else each function that drops one is proved through all
/// its fields.
impl Drop for Keyless {
    fn drop(self) {
        let Keyless {
            issued: _issued,
            later: _later,
        } = self;
    }
}

impl Keyless {
    /// Splits a certificate into the key and the rest.
    pub fn split(certificate: Certificate) -> (Keyless, PublicKey)
        ensures { joined result.0 result.1 ≡ certificate }
    {
        let Certificate {
            tbs_certificate,
            signature_algorithm,
            signature_value,
        } = certificate;
        let TbsCertificate {
            version,
            serial_number,
            signature,
            issuer,
            validity,
            subject,
            subject_public_key_info,
            issuer_unique_id,
            subject_unique_id,
            extensions,
        } = tbs_certificate;
        let issued = IssuedFields {
            version,
            serial_number,
            signature,
            issuer,
            validity,
            subject,
        };
        let later = LaterFields {
            issuer_unique_id,
            subject_unique_id,
            extensions,
            signature_algorithm,
            signature_value,
        };
        (
            Keyless { issued, later },
            PublicKey::from(subject_public_key_info),
        )
    }

    /// The certificate with the key and the rest.
    pub fn join(self, public_key: PublicKey) -> Certificate
        ensures { result ≡ joined self public_key }
    {
        let Keyless { issued, later } = self;
        let tbs_certificate = TbsCertificate {
            version: issued.version,
            serial_number: issued.serial_number,
            signature: issued.signature,
            issuer: issued.issuer,
            validity: issued.validity,
            subject: issued.subject,
            subject_public_key_info: SubjectPublicKeyInfo::from(public_key),
            issuer_unique_id: later.issuer_unique_id,
            subject_unique_id: later.subject_unique_id,
            extensions: later.extensions,
        };
        Certificate {
            tbs_certificate,
            signature_algorithm: later.signature_algorithm,
            signature_value: later.signature_value,
        }
    }

    /// A copy of both parts.
    pub fn try_clone(&self, alloc: Global) -> Result<Keyless, AllocError>
        ensures { IfOk result (λ copy. copy ≡ self.now) }
    {
        let issued = self.issued.try_clone(alloc)?;
        let later = self.later.try_clone(alloc)?;
        Ok(Keyless { issued, later })
    }
}

impl IssuedFields {
    /// A copy of the part.
    fn try_clone(&self, alloc: Global) -> Result<IssuedFields, AllocError>
        ensures { IfOk result (λ copy. copy ≡ self.now) }
    {
        Ok(IssuedFields {
            version: self.version,
            serial_number: self.serial_number.try_clone(alloc)?,
            validity: self.validity.try_clone(alloc)?,
            issuer: self.issuer.try_clone(alloc)?,
            subject: self.subject.try_clone(alloc)?,
            signature: self.signature.try_clone(alloc)?,
        })
    }
}

impl LaterFields {
    /// A copy of the part.
    fn try_clone(&self, alloc: Global) -> Result<LaterFields, AllocError>
        ensures { IfOk result (λ copy. copy ≡ self.now) }
    {
        Ok(LaterFields {
            issuer_unique_id: copy_option(alloc, &self.issuer_unique_id)?,
            subject_unique_id: copy_option(alloc, &self.subject_unique_id)?,
            extensions: copy_option(alloc, &self.extensions)?,
            signature_value: self.signature_value.try_clone(alloc)?,
            signature_algorithm: self.signature_algorithm.try_clone(alloc)?,
        })
    }
}
