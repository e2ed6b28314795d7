//! A stored certificate with its view, for rules that need several of its fields.

ghost use Rattle.std.specs.Prelude.{◌≡◌};
ghost use Rattle.std.specs.Coded.{Coded-set};
ghost use Rattle.x509_types.specs.CertificateView.{view_elements};
ghost use Rattle.x509_core.specs.Facts.CertificateParts.{coded_elements};

use crate::cert::Cert;
use x509_types::CertView;

/// A certificate and its borrowed fields.
#[derive(Clone, Copy)]
pub(crate) struct ViewedCert<'a> {
    pub cert: &'a Cert,
    pub view: CertView<'a>,
    pub ghost same: { view_elements view ≡ cert.now.elements } by { Coded-set coded_elements (view_elements view) cert.now.elements },
}

impl Cert {
    /// The certificate with its view. It doesn't allocate.
    pub(crate) fn viewed(&self) -> ViewedCert<'_>
        ensures { result.cert.now ≡ self.now }
    {
        ViewedCert {
            cert: self,
            view: self.view(),
        }
    }
}
