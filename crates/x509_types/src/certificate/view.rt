//! Borrowed certificates.

ghost use Rattle.std.specs.Prelude.{[]};
ghost use Rattle.der_core.specs.Structure.{Fits};
ghost use Rattle.x509_types.specs.CertificateElements.{AreCertificateFields};
ghost use Rattle.x509_types.specs.FirstExtension.{extensions_of};
ghost use Rattle.x509_types.specs.FoundExtensions.{AreFound};
ghost use Rattle.x509_types.specs.BorrowedCertificate.{lent_elements};

mod extensions;
mod inner_fields;
mod outer_fields;

use crate::Time;
use crate::certificate::parts::CertParts;
use crate::certificate::view::inner_fields::{first_time, key_parts, second_time};
use crate::extension::first::FirstExtensions;
use der_core::Elem;

/// A borrowed certificate (RFC 5280 4.1), with the first extensions that it reports on. It doesn't
/// allocate.
#[derive(Clone, Copy)]
pub struct CertView<'a> {
    parts: CertParts<'a>,
    firsts: FirstExtensions<'a>,
    ghost fits: { ∥ Fits AreCertificateFields (lent_elements parts) ∥₁ },
    ghost first: { ∥ AreFound (extensions_of (lent_elements parts)) [] firsts ∥₁ },
}

impl<'a> CertView<'a> {
    ghost use Rattle.std.specs.Prelude.{◌≡◌, Some, MatchOption};
    ghost use Rattle.std.specs.Option.{option_copied, option_map};
    ghost use Rattle.asn1_types.specs.Elements.{time};
    ghost use Rattle.der_core.specs.Encoding.{encoding};
    ghost use Rattle.der_core.specs.BorrowedOption.{at_option};
    ghost use Rattle.x509_types.specs.Certificate.{IsCertificate};
    ghost use Rattle.x509_types.specs.CertificateFields.{not_before_of, not_after_of, key_algorithm_of, key_octets_of};
    ghost use Rattle.x509_types.specs.CertificateView.{IsCertView, IsKnownView, view_elements};
    ghost use Rattle.x509_types.specs.TbsElements.{tbs_of};
    ghost use Rattle.x509_types.specs.declared.certificate.Certificate.{Certificate};

    /// The certificate that the element encodes, `None` if it encodes none.
    pub fn read(elem: Elem<'a>) -> Option<CertView<'a>>
        ensures { MatchOption result
            ((c : Certificate) → IsCertificate elem.entry.is.0 c → ⊥)
            (IsCertView elem.entry.is.0) }
    {
        let parts = CertParts::of(elem)?;
        parts.expect_shapes()?;
        let firsts = FirstExtensions::of(parts.fields.extensions);
        Some(CertView { parts, firsts })
    }

    /// The certificate in an element that is known to encode one. Only heads are read, and no shape
    /// is tested again.
    pub fn of_known(elem: Elem<'a>) -> CertView<'a>
        requires { ∥ Fits IsCertificate elem.is.0 ∥₁ }
        ensures { IsKnownView elem.entry.is.0 result }
    {
        match CertParts::of(elem) {
            Some(parts) => {
                let firsts = FirstExtensions::of(parts.fields.extensions);
                CertView { parts, firsts }
            }
            None => unreachable!(),
        }
    }

    /// The encoding of the TBSCertificate, which is what is signed (RFC 5280 4.1.1.1).
    pub fn tbs(&self) -> &'a [u8]
        ensures { result.now ≡ encoding (tbs_of (view_elements self.now).tbs) }
    {
        self.parts.tbs.whole
    }

    /// The encoding of the Name of the issuer (RFC 5280 4.1.2.4).
    pub fn issuer(&self) -> &'a [u8]
        ensures { result.now ≡ encoding (view_elements self.now).tbs.issuer }
    {
        self.parts.fields.issuer.whole
    }

    /// The encoding of the Name of the subject (RFC 5280 4.1.2.6).
    pub fn subject(&self) -> &'a [u8]
        ensures { result.now ≡ encoding (view_elements self.now).tbs.subject }
    {
        self.parts.fields.subject.whole
    }

    /// The contents octets of the serial number, an INTEGER (RFC 5280 4.1.2.2).
    pub fn serial(&self) -> &'a [u8]
        ensures { result.now ≡ (view_elements self.now).tbs.serial_number }
    {
        self.parts.fields.serial_number
    }

    /// The INTEGER of the version, if it is present (RFC 5280 4.1.2.1).
    pub fn version(&self) -> Option<Elem<'a>>
        ensures { at_option result ≡ (view_elements self.now).tbs.version }
    {
        self.parts.fields.version
    }

    /// The encoding of the AlgorithmIdentifier of the signature, the one in what is signed (RFC
    /// 5280 4.1.2.3).
    pub fn inner_algorithm(&self) -> &'a [u8]
        ensures { result.now ≡ encoding (view_elements self.now).tbs.signature }
    {
        self.parts.fields.signature.whole
    }

    /// The element of the Validity, the period in which the certificate is valid (RFC 5280
    /// 4.1.2.5).
    pub fn validity(&self) -> Elem<'a>
        ensures { result.is.0 ≡ (view_elements self.now).tbs.validity }
    {
        self.parts.fields.validity
    }

    /// The notBefore time: the certificate is valid from it on, inclusive (RFC 5280 4.1.2.5).
    pub fn not_before(&self) -> Time
        ensures { not_before_of (view_elements self.now) ≡ Some (time result) }
    {
        let Some(not_before) = first_time(self.parts.fields.validity) else {
            unreachable!();
        };
        not_before
    }

    /// The notAfter time: the certificate is valid up to it, inclusive (RFC 5280 4.1.2.5).
    pub fn not_after(&self) -> Time
        ensures { not_after_of (view_elements self.now) ≡ Some (time result) }
    {
        let Some(not_after) = second_time(self.parts.fields.validity) else {
            unreachable!();
        };
        not_after
    }

    /// The element of the SubjectPublicKeyInfo (RFC 5280 4.1.2.7).
    pub fn subject_public_key_info(&self) -> Elem<'a>
        ensures { result.is.0 ≡ (view_elements self.now).tbs.subject_public_key_info }
    {
        self.parts.fields.subject_public_key_info
    }

    /// The encoding of the AlgorithmIdentifier of the key (RFC 5280 4.1.2.7).
    pub fn key_algorithm(&self) -> &'a [u8]
        ensures { option_map encoding (key_algorithm_of (view_elements self.now))
            ≡ Some result.now }
    {
        match key_parts(self.parts.fields.subject_public_key_info) {
            Some((algorithm, _octets)) => algorithm.whole,
            None => unreachable!(),
        }
    }

    /// The octets that hold the bits of the key, without the octet that counts unused bits.
    pub fn key(&self) -> &'a [u8]
        ensures { key_octets_of (view_elements self.now) ≡ Some result.now }
    {
        match key_parts(self.parts.fields.subject_public_key_info) {
            Some((_algorithm, octets)) => octets,
            None => unreachable!(),
        }
    }

    /// The contents octets of the issuer's unique identifier, a BIT STRING, if it is present (RFC
    /// 5280 4.1.2.8).
    pub fn issuer_unique_id(&self) -> Option<&'a [u8]>
        ensures { option_copied result ≡ (view_elements self.now).tbs.issuer_unique_id }
    {
        self.parts.fields.issuer_unique_id
    }

    /// The contents octets of the subject's unique identifier, a BIT STRING, if it is present (RFC
    /// 5280 4.1.2.8).
    pub fn subject_unique_id(&self) -> Option<&'a [u8]>
        ensures { option_copied result ≡ (view_elements self.now).tbs.subject_unique_id }
    {
        self.parts.fields.subject_unique_id
    }

    /// The element of the Extensions, without its explicit tag, if they are present (RFC 5280
    /// 4.1.2.9).
    pub fn extensions(&self) -> Option<Elem<'a>>
        ensures { at_option result ≡ (view_elements self.now).tbs.extensions }
    {
        self.parts.fields.extensions
    }

    /// The encoding of the AlgorithmIdentifier of the signature, the one beside what is signed (RFC
    /// 5280 4.1.1.2).
    pub fn algorithm(&self) -> &'a [u8]
        ensures { result.now ≡ encoding (view_elements self.now).algorithm }
    {
        self.parts.algorithm.whole
    }

    /// The octets that hold the bits of the signature (RFC 5280 4.1.1.3), without the octet that
    /// counts unused bits.
    pub fn signature(&self) -> &'a [u8]
        ensures { result.now ≡ (view_elements self.now).signature }
    {
        self.parts.signature
    }
}
