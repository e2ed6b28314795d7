//! Certificates of signed data.

use crate::signed_data::raw_certificate::{OtherCertificate, RawCertificate};
use der_core::tag::SEQUENCE;
use der_core::{DerError, Elem, Raw, Structure, Tree};
use std::alloc::{AllocError, Global};

/// A certificate of signed data, stored raw (RFC 5652 10.2.2). It isn't decoded or checked.
#[derive(Debug, Drop)]
pub enum CertificateChoices {
    /// A SEQUENCE, as an X.509 certificate is (RFC 5280 4.1).
    Certificate(RawCertificate),
    /// Any other element.
    Other(OtherCertificate),
}

impl CertificateChoices {
    ghost use Rattle.std.specs.Prelude.{◌≡◌};
    ghost use Rattle.cms_types.specs.CertificateChoices.{certificate_choice};

    /// The raw certificate.
    pub fn element(&self) -> &Raw
        ensures { result.now.element ≡ certificate_choice self.now }
    {
        match self {
            CertificateChoices::Certificate(certificate) => certificate.element(),
            CertificateChoices::Other(other) => other.element(),
        }
    }
}

impl From<Raw> for CertificateChoices {
    ghost use Rattle.std.specs.Prelude.{◌≡◌};
    ghost use Rattle.cms_types.specs.CertificateChoices.{certificate_choice};

    ghost from_gives = { λ element choice. certificate_choice choice ≡ element.element };

    /// The element as a certificate, by its tag.
    fn from(element: Raw) -> CertificateChoices {
        if element.tag() == SEQUENCE {
            CertificateChoices::Certificate(RawCertificate::keep(element))
        } else {
            CertificateChoices::Other(OtherCertificate::keep(element))
        }
    }
}

impl Structure for CertificateChoices {
    ghost use Rattle.std.specs.Prelude.{◌≡◌};
    ghost use Rattle.cms_types.specs.CertificateChoices.{certificate_choice};
    ghost use Rattle.cms_types.specs.Facts.Choices.{certificate_choices};

    ghost written = { certificate_choice };

    ghost spells = { λ element value. element ≡ certificate_choice value };

    fn has_shape(_elem: Elem<'_>) -> bool {
        true
    }

    fn read_at(alloc: Global, elem: Elem<'_>) -> Result<CertificateChoices, DerError> {
        Ok(CertificateChoices::from(Raw::from_elem(alloc, elem)?))
    }

    fn write(&self, alloc: Global) -> Result<Tree, DerError> {
        Ok(self.element().tree(alloc)?)
    }

    fn try_clone(&self, alloc: Global) -> Result<CertificateChoices, AllocError> {
        Ok(match self {
            CertificateChoices::Certificate(certificate) => {
                CertificateChoices::Certificate(certificate.try_clone(alloc)?)
            }
            CertificateChoices::Other(other) => {
                CertificateChoices::Other(other.try_clone(alloc)?)
            }
        })
    }

    ghost grammar = { certificate_choices };
}

/// Certificates are equal exactly where their elements are.
impl PartialEq for CertificateChoices {
    ghost use Rattle.std.specs.Prelude.{◌≡◌, ◌↔◌, IsTrue};
    ghost use Rattle.der_core.specs.Equality.{same_octets};
    ghost use Rattle.der_core.specs.Facts.Equality.{same_octets_per};
    ghost use Rattle.cms_types.specs.CertificateChoices.{certificate_choice};

    ghost eq = { same_octets certificate_choice };

    ghost laws = { same_octets_per certificate_choice };

    fn eq(&self, other: &CertificateChoices) -> bool
        ensures octets { result ≡ same_octets certificate_choice self.now other.now }
        ensures same { IsTrue result ↔ (self.now ≡ other.now) }
    {
        *self.element() == *other.element()
    }
}

impl Eq for CertificateChoices {
    ghost use Rattle.der_core.specs.Facts.Equality.{same_octets_equiv};
    ghost use Rattle.cms_types.specs.CertificateChoices.{certificate_choice};

    ghost laws = { same_octets_equiv certificate_choice };
}
