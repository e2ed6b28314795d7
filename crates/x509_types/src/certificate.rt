//! Certificates (RFC 5280 4.1).
//!
//! ```text
//! Certificate  ::=  SEQUENCE  {
//!      tbsCertificate       TBSCertificate,
//!      signatureAlgorithm   AlgorithmIdentifier,
//!      signatureValue       BIT STRING  }
//! ```

ghost use Rattle.std.specs.Prelude.{◌≡◌, ◌↔◌, IsTrue};

pub(crate) mod first_fields;
mod parts;
pub(crate) mod tbs_certificate;
mod tbs_fields;
mod tbs_parts;
pub(crate) mod validity;
pub(crate) mod version;
pub(crate) mod view;

use crate::AlgorithmIdentifier;
use crate::certificate::tbs_certificate::TbsCertificate;
use crate::certificate::view::CertView;
use asn1_types::BitString;
use der_core::tag::SEQUENCE;
use der_core::{DerError, Elem, NewKids, Structure, Tree, three_kids};
use std::alloc::{AllocError, Global};

/// A certificate: what is signed, the algorithm of the signature, and the signature (RFC 5280
/// 4.1.1). The algorithm is also in what is signed; a reader doesn't require the two to be the
/// same.
#[derive(Debug, Drop)]
pub struct Certificate {
    pub tbs_certificate: TbsCertificate,
    pub signature_algorithm: AlgorithmIdentifier,
    pub signature_value: BitString,
}

impl Structure for Certificate {
    ghost use Rattle.x509_types.specs.Certificate.{certificate, inner_certificate, IsCertificate};
    ghost use Rattle.x509_types.specs.Facts.Certificates.{certificates};

    ghost written = { certificate };

    ghost spells = { IsCertificate };

    ghost inner = { inner_certificate };

    fn has_shape(elem: Elem<'_>) -> bool {
        CertView::read(elem).is_some()
    }

    fn read_at(alloc: Global, elem: Elem<'_>) -> Result<Certificate, DerError> {
        let Some((tbs, algorithm, value)) = three_kids(elem, SEQUENCE) else {
            return Err(DerError::Shape);
        };
        let signature_value = BitString::read_at(alloc, value)?;
        let signature_algorithm = AlgorithmIdentifier::read_at(alloc, algorithm)?;
        // Last, so that it needn't be freed if another field fails.
        let tbs_certificate = TbsCertificate::read_at(alloc, tbs)?;
        Ok(Certificate {
            tbs_certificate,
            signature_algorithm,
            signature_value,
        })
    }

    fn write(&self, alloc: Global) -> Result<Tree, DerError> {
        let mut kids = NewKids::new(alloc);
        kids.push(self.tbs_certificate.write(alloc)?)?;
        kids.push(self.signature_algorithm.write(alloc)?)?;
        kids.push(self.signature_value.write(alloc)?)?;
        Ok(kids.into_branch(SEQUENCE))
    }

    fn try_clone(&self, alloc: Global) -> Result<Certificate, AllocError> {
        Ok(Certificate {
            signature_value: self.signature_value.try_clone(alloc)?,
            signature_algorithm: self.signature_algorithm.try_clone(alloc)?,
            tbs_certificate: self.tbs_certificate.try_clone(alloc)?,
        })
    }

    ghost grammar = { certificates };
}

/// Certificates are equal exactly if the kinds of their extension values and their encodings are;
/// if both can be written, the encodings alone decide.
impl PartialEq for Certificate {
    ghost use Rattle.std.specs.Ordering.{on};
    ghost use Rattle.std.specs.Cmp.Lexicographic.{nat_list_eq_equiv};
    ghost use Rattle.std.specs.Cmp.{on_per, partial_equiv_from_equiv};
    ghost use Rattle.std.specs.Prelude.{bytes_eq};
    ghost use Rattle.der_core.specs.Equality.{same_octets};
    ghost use Rattle.der_core.specs.Borrowed.{AreDer};
    ghost use Rattle.x509_types.specs.Certificate.{certificate, inner_certificate, certificate_octets};

    ghost eq = { on (λ value. certificate_octets value) bytes_eq };

    ghost laws = { on_per (λ value. certificate_octets value)
        (partial_equiv_from_equiv nat_list_eq_equiv) };

    fn eq(&self, other: &Certificate) -> bool
        ensures octets { AreDer (inner_certificate self.now) → AreDer (inner_certificate other.now)
            → result ≡ same_octets certificate self.now other.now }
        ensures compared { result ≡ bytes_eq (certificate_octets self.now)
            (certificate_octets other.now) }
        ensures same { IsTrue result ↔ (self.now ≡ other.now) }
    {
        self.tbs_certificate == other.tbs_certificate
            && self.signature_algorithm == other.signature_algorithm
            && self.signature_value == other.signature_value
    }
}

impl Eq for Certificate {
    ghost use Rattle.std.specs.Cmp.Lexicographic.{nat_list_eq_equiv};
    ghost use Rattle.std.specs.Cmp.{on_equiv};
    ghost use Rattle.x509_types.specs.Certificate.{certificate_octets};

    ghost laws = { on_equiv (λ value. certificate_octets value) nat_list_eq_equiv };
}
