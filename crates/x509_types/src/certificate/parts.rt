//! The parts of a borrowed certificate.

ghost use Rattle.std.specs.Prelude.{◌≡◌, ◌∷◌};
ghost use Rattle.std.specs.Coded.{Coded-set};
ghost use Rattle.der_core.specs.DerElement.{Primitive};
ghost use Rattle.der_core.specs.Facts.Codes.{coded_element};
ghost use Rattle.x509_types.specs.CertificateFields.{unused_bits};
ghost use Rattle.x509_types.specs.BorrowedTbs.{elements_at};
ghost use Rattle.x509_types.specs.TbsElements.{tbs_of};

use crate::AlgorithmIdentifier;
use crate::certificate::tbs_fields::TbsFields;
use asn1_types::BitString;
use der_core::tag::{BIT_STRING, SEQUENCE};
use der_core::{Elem, expect, leaf_at, three_kids};

/// The parts of a certificate, each as any element; of the signature also the octets that hold its
/// bits.
#[derive(Clone, Copy)]
pub(crate) struct CertParts<'a> {
    pub tbs: Elem<'a>,
    pub fields: TbsFields<'a>,
    pub algorithm: Elem<'a>,
    pub value: Elem<'a>,
    pub signature: &'a [u8],
    pub ghost signed: { tbs.is.0 ≡ tbs_of (elements_at fields) } by { Coded-set coded_element tbs.is.0 (tbs_of (elements_at fields)) },
    pub ghost bits: { value.is.0 ≡ Primitive 0x03 (unused_bits value.is.0 ∷ signature.now) } by { Coded-set coded_element value.is.0 (Primitive 0x03 (unused_bits value.is.0 ∷ signature.now)) },
}

impl<'a> CertParts<'a> {
    ghost use Rattle.std.specs.Prelude.{◌≢◌, MatchOption};
    ghost use Rattle.der_core.specs.Structure.{Fits};
    ghost use Rattle.x509_types.specs.CertificateElements.{CertificateElements, certificate_of, AreCertificateFields};
    ghost use Rattle.x509_types.specs.BorrowedCertificate.{lent_elements};
    ghost use Rattle.x509_types.specs.declared.certificate.Certificate.{Certificate};

    /// The parts of the element. Only heads are read.
    pub fn of(elem: Elem<'a>) -> Option<CertParts<'a>>
        ensures { MatchOption result
            ((f : CertificateElements) → elem.entry.is.0 ≢ certificate_of f)
            (λ parts. elem.entry.is.0 ≡ certificate_of (lent_elements parts)) }
    {
        let Some((tbs, algorithm, value)) = three_kids(elem, SEQUENCE) else {
            return None;
        };
        let fields = TbsFields::of(tbs)?;
        let contents = leaf_at(value, BIT_STRING)?;
        let (_unused, signature) = contents.split_first()?;
        Some(CertParts {
            tbs,
            fields,
            algorithm,
            value,
            signature,
        })
    }

    /// `Some` if each part has its shape.
    pub fn expect_shapes(&self) -> Option<()>
        ensures { MatchOption result
            ((c : Certificate) → AreCertificateFields (lent_elements self.now) c → ⊥)
            (λ _. Fits AreCertificateFields (lent_elements self.now)) }
    {
        self.fields.expect_shapes()?;
        expect::<AlgorithmIdentifier>(self.algorithm)?;
        expect::<BitString>(self.value)?;
        Some(())
    }
}
