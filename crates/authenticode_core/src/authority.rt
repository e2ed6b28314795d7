//! The name by which a trust list has the CA of certificates (RFC 5280 3.2).

ghost use Rattle.std.specs.Prelude.{◌≡◌, ℕ, List, [], MatchOption};
ghost use Rattle.der_core.specs.DerElement.{DerElement};
ghost use Rattle.der_core.specs.Encoding.{encoding};
ghost use Rattle.x509_types.specs.CertificateElements.{CertificateElements};
ghost use Rattle.x509_types.specs.CertificateView.{view_elements};
ghost use Rattle.authenticode_core.specs.AuthorityName.{IsNameAt};
ghost use Rattle.authenticode_core.specs.Inside.AuthoritySteps.{IsNameAfter, IsNextName};
ghost use Rattle.authenticode_core.specs.OthersCursor.{GivesPlaces};

use crate::bag::others::Source;
use x509_core::CertType;
use x509_types::CertView;

/// The name of the CA of certificates in their order, as octets: that of the last CA certificate
/// after the first of them, or without one the issuer of the first; None exactly if there are no
/// certificates. It doesn't allocate.
pub(crate) fn authority_name<'a>(mut certificates: Source<'a>) -> Option<&'a [u8]>
    ensures { (bag : List CertificateElements) (places : List ℕ)
        → GivesPlaces certificates.entry bag places
        → MatchOption result (places ≡ [])
        (λ octets. (name : DerElement) × IsNameAt bag places name
        × (octets.now ≡ encoding name)) }
{
    let first = certificates.next()?;
    Some(last_name(certificates, first.certificate.issuer()))
}

/// The name after further certificates, given the one before them.
fn last_name<'a>(mut certificates: Source<'a>, name: &'a [u8]) -> &'a [u8]
    ensures { (bag : List CertificateElements) (places : List ℕ) (before : DerElement)
        → GivesPlaces certificates.entry bag places → name.now ≡ encoding before
        → (after : DerElement) × IsNameAfter bag before places after
        × (result.now ≡ encoding after) }
{
    let mut last = name;
    while let Some(next) = certificates.next() {
        last = next_name(last, next.certificate);
    }
    last
}

/// The name after a certificate: an intermediate's issuer, a root's subject, else the name before
/// it.
fn next_name<'a>(name: &'a [u8], certificate: CertView<'a>) -> &'a [u8]
    ensures { (before : DerElement) → name.now ≡ encoding before
        → (after : DerElement) × IsNextName before (view_elements certificate.entry) after
        × (result.now ≡ encoding after) }
{
    match CertType::of(certificate) {
        CertType::Root => certificate.subject(),
        CertType::Intermediate => certificate.issuer(),
        CertType::Leaf | CertType::Unknown => name,
    }
}
