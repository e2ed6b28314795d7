//! The types of certificates.

ghost use Rattle.x509_types.specs.CertificateView.{view_elements};
ghost use Rattle.x509_core.specs.CertType.{IsOfType, IsAuthorityOf};

use crate::cert::Cert;
use crate::parent::names_agree;
use crate::viewed::ViewedCert;
use x509_types::CertView;

/// The type of a certificate by its own fields (RFC 5280 3.2, 4.2.1.9). Nothing is verified.
#[derive(Clone, Copy, Debug, PartialEq, Eq, Hash)]
pub enum CertType {
    /// A CA certificate whose subject is its issuer.
    Root,
    /// A CA certificate whose subject isn't its issuer.
    Intermediate,
    /// A certificate whose basic constraints have the CA flag false.
    Leaf,
    /// A certificate without basic constraints, or whose basic constraints leave the CA flag out.
    Unknown,
}

impl CertType {
    /// The type of a borrowed certificate.
    pub fn of(view: CertView<'_>) -> CertType
        ensures { IsOfType (view_elements view.entry) result }
    {
        match view.ca() {
            None => CertType::Unknown,
            Some(false) => CertType::Leaf,
            Some(true) => CertType::of_authority(view),
        }
    }

    /// The type of a CA certificate: root or intermediate.
    fn of_authority(view: CertView<'_>) -> CertType
        ensures { IsAuthorityOf (view_elements view.entry) result }
    {
        if names_agree(view, view) {
            CertType::Root
        } else {
            CertType::Intermediate
        }
    }
}

impl Cert {
    /// The type of the certificate. It doesn't allocate.
    pub fn ty(&self) -> CertType
        ensures { IsOfType self.now.elements result }
    {
        CertType::of(self.view())
    }
}

impl ViewedCert<'_> {
    /// The type of the certificate.
    pub fn ty(&self) -> CertType
        ensures { IsOfType self.now.cert.now.elements result }
    {
        CertType::of(self.view)
    }
}
