//! Certificates searched for in a bag.

ghost use Rattle.std.specs.Prelude.{◌↔◌, IsTrue};
ghost use Rattle.x509_types.specs.CertificateView.{view_elements};
ghost use Rattle.authenticode_core.specs.Inside.Wanted.{IsWanted};

use der_core::is_same;
use x509_types::CertView;

/// A certificate by its subject, given as octets, by its issuer and serial number, given as octets
/// and as contents octets, or by an extended key usage, given as the contents octets of its OID.
#[derive(Clone, Copy)]
pub(crate) enum Wanted<'a> {
    Subject(&'a [u8]),
    IssuerAndSerial(&'a [u8], &'a [u8]),
    Purpose(&'a [u8]),
}

impl<'a> Wanted<'a> {
    /// Whether the certificate is wanted.
    pub(crate) fn is(&self, certificate: &CertView<'_>) -> bool
        ensures { IsTrue result ↔ IsWanted self.now (view_elements certificate.now) }
    {
        match self {
            Wanted::Subject(subject) => is_same(certificate.subject(), subject),
            Wanted::IssuerAndSerial(issuer, serial_number) => {
                is_same(certificate.issuer(), issuer)
                    && is_same(certificate.serial(), serial_number)
            }
            Wanted::Purpose(oid) => certificate.names(oid),
        }
    }
}
