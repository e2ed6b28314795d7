//! Laws on extensions and certificates.

ghost use Rattle.std.specs.Prelude.{ℕ, List};
ghost use Rattle.der_core.specs.DerElement.{DerElement};
ghost use Rattle.x509_types.specs.Certificate.{IsCertificate};
ghost use Rattle.x509_types.specs.CertificateElements.{CertificateElements, AreCertificateFields};
ghost use Rattle.x509_types.specs.CertificateView.{IsCertView, view_elements};
ghost use Rattle.x509_types.specs.Attribute.{IsAttribute};
ghost use Rattle.x509_types.specs.AttributeSpellings.{IsAttributeSpelling};
ghost use Rattle.x509_types.specs.Extension.{IsExtension};
ghost use Rattle.x509_types.specs.ExtensionSpellings.{IsSpelling};
ghost use Rattle.x509_types.specs.FirstOfValue.{AreFirstOf};
ghost use Rattle.x509_types.specs.InnerFields.{AreInnerFields};
ghost use Rattle.x509_types.specs.declared.attribute.Attribute.{Attribute};
ghost use Rattle.x509_types.specs.declared.certificate.Certificate.{Certificate};
ghost use Rattle.x509_types.specs.declared.certificate.view.CertView.{CertView};
ghost use Rattle.x509_types.specs.declared.extension.Extension.{Extension};

/// An extension that was read is written as the same element, unless its flag, or independently
/// that of basic constraints in it, isn't in DER (X.690 11.1, 11.5).
pub fn extensions_are_written_as_read()
    ensures { (element : DerElement) (e : Extension) → IsExtension element e
        → IsSpelling element e }
{}

/// An attribute that was read is written as the same element, but for the extensions that it
/// requests, of which the law above holds.
pub fn attributes_are_written_as_read()
    ensures { (element : DerElement) (a : Attribute) → IsAttribute element a
        → IsAttributeSpelling element a }
{}

/// The fields of a borrowed certificate are the fields of the value that is read from it.
pub fn views_lend_what_certificates_have()
    ensures { (element : DerElement) (view : CertView) (c : Certificate) → IsCertView element view
        → IsCertificate element c → AreCertificateFields (view_elements view) c }
{}

/// The times and the key in the elements of a certificate are those of its value.
pub fn times_and_keys_are_those_of_certificates()
    ensures { (f : CertificateElements) (c : Certificate) → AreCertificateFields f c
        → AreInnerFields f c }
{}

/// The first extension with an OID in the elements of a certificate is that of its value.
pub fn first_extensions_are_those_of_certificates()
    ensures { (f : CertificateElements) (c : Certificate) (oid : List ℕ) → AreCertificateFields f c
        → AreFirstOf f c oid }
{}
