//! Laws on certificates.

ghost use Rattle.der_core.specs.DerElement.{DerElement};
ghost use Rattle.x509_types.specs.Certificate.{IsCertificate};
ghost use Rattle.x509_types.specs.CertificateElements.{CertificateElements, AreCertificateFields};
ghost use Rattle.x509_types.specs.declared.certificate.Certificate.{Certificate};
ghost use Rattle.x509_core.specs.SaidValues.{SayTheSame};
ghost use Rattle.x509_core.specs.Spellings.{IsWrittenAlike};

/// A certificate that was read is written as the same element, except for extensions whose critical
/// flag, or the CA flag within, isn't encoded as DER requires (X.690 11.1, 11.5). So `Cert::to_der`
/// returns what was read, and `Cert::from_certificate` of its value may have other octets, for that
/// reason alone.
pub fn certificates_are_written_as_read()
    ensures { (element : DerElement) (c : Certificate) → IsCertificate element c
        → IsWrittenAlike element c }
{}

/// The elements of a certificate and the first extensions of its value agree on its key
/// identifiers, its CA flag and its path length. So what `CertView` borrows of them is what `Cert`
/// has.
pub fn elements_and_values_say_the_same()
    ensures { (f : CertificateElements) (c : Certificate) → AreCertificateFields f c
        → SayTheSame f c }
{}
