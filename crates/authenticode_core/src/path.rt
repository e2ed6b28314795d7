//! Whether certificates in a bag are a chain above a certificate.

ghost use Rattle.std.specs.Prelude.{◌≡◌, ◌++◌, ◌∷◌, [], ℕ, List, Option, None, IfOk, MatchResult, unwrap_or};
ghost use Rattle.der_core.specs.Rules.{OrMemory};
ghost use Rattle.cms_types.specs.SignedView.{data_elements};
ghost use Rattle.x509_types.specs.CertificateElements.{CertificateElements};
ghost use Rattle.x509_types.specs.CertificateView.{view_elements};
ghost use Rattle.x509_core.specs.Link.{IsCountFor};
ghost use Rattle.x509_core.specs.declared.error.CertError.TheVariants as errors;
ghost use Rattle.authenticode_core.specs.Excuses.{IsLinkedToken, IsUnlinkedToken, any_time};
ghost use Rattle.authenticode_core.specs.Inside.Linking.{IsBrokenNext, IsLinkedSoFar, IsNextLink, IsNoLink};
ghost use Rattle.authenticode_core.specs.OthersCursor.{AreLeft};
ghost use Rattle.authenticode_core.specs.IssuerWalk.{IsIssuerPath};
ghost use Rattle.authenticode_core.specs.LinkedPath.{AreLinkedAt, IsUnlinkedAt, IsVouchedPath};
ghost use Rattle.authenticode_core.specs.Indices.{StandsAt};
ghost use Rattle.authenticode_core.specs.SigningRules.{IsBagOf};

use crate::bag::BagCertificate;
use crate::bag::certificates::certificate_bag;
use crate::bag::others::Others;
use cms_types::SignedView;
use sig_core::Scheme;
use std::alloc::{AllocError, Global};
use x509_core::{Cert, CertError, DateCheck, Places, Window};

/// The certificate, stored with its octets. It is known to be one, so it is only refused when out
/// of memory.
pub(crate) fn kept(alloc: Global, named: &BagCertificate<'_>) -> Result<Cert, AllocError>
    ensures { IfOk result (λ cert. cert.elements ≡ view_elements named.now.certificate) }
{
    match Cert::from_elem(alloc, named.elem) {
        Ok(cert) => Ok(cert),
        Err(_) => Err(AllocError),
    }
}

/// The indices of the issuer path of a certificate, if the certificates there are a chain above it.
pub(crate) fn linked_path<S: Scheme>(
    alloc: Global,
    signed_data: &SignedView<'_>,
    signer: Cert,
    window: &Window,
    scheme: &S,
) -> Result<Places, CertError>
    ensures { (bag : List CertificateElements) → IsBagOf (data_elements signed_data.now) bag
        → MatchResult result (IsVouchedPath (S.judge scheme.now) window.now bag signer)
        (OrMemory errors.Memory (λ e. (path : List ℕ) × IsIssuerPath bag signer.elements path
        × IsUnlinkedAt (S.judge scheme.now) window.now bag signer path e)) }
{
    let issuers = Others::on_path(certificate_bag(signed_data), &signer.view());
    linked_places(alloc, &signer, issuers, window, scheme)
}

/// Checks that the first certificate of a token's bag is linked to the others with another subject,
/// in order, at any time.
pub(crate) fn expect_linked_token<S: Scheme>(
    alloc: Global,
    token: &SignedView<'_>,
    first: &Cert,
    scheme: &S,
) -> Result<(), CertError>
    ensures { (bag : List CertificateElements) → IsBagOf (data_elements token.now) bag
        → StandsAt bag 0 first.now.elements
        → MatchResult result (λ _. IsLinkedToken (S.judge scheme.now) bag)
        (OrMemory errors.Memory (IsUnlinkedToken (S.judge scheme.now) bag)) }
{
    let others = Others::in_bag(certificate_bag(token), &first.view());
    linked_places(alloc, first, others, &any_time(), scheme)?;
    Ok(())
}

/// The indices of the certificates, if these are a chain above the checked one. Three certificates
/// are stored at a time, however many there are.
fn linked_places<S: Scheme>(
    alloc: Global,
    checked: &Cert,
    mut parents: Others<'_>,
    window: &Window,
    scheme: &S,
) -> Result<Places, CertError>
    ensures { (bag : List CertificateElements) (places : List ℕ) → AreLeft parents.entry bag places
        → MatchResult result
        (λ found. (found ≡ places)
        × AreLinkedAt (S.judge scheme.now) window.now bag checked.now places)
        (OrMemory errors.Memory
        (IsUnlinkedAt (S.judge scheme.now) window.now bag checked.now places)) }
{
    let mut linking = Linking::new(alloc);
    while let Some(next) = parents.next() {
        linking.go_on(alloc, checked, &next, window, scheme)?;
    }
    Ok(linking.into_places())
}

/// A chain above a certificate, as far as it is linked: the indices of its certificates, the last
/// of them, and their number, which saturates.
#[derive(Drop)]
struct Linking {
    places: Places,
    last: Option<Cert>,
    number: u16,
}

impl Linking {
    /// No certificate is linked yet.
    fn new(alloc: Global) -> Linking
        ensures { (result.places ≡ []) × (result.last ≡ None) × (result.number ≡ 0) }
    {
        Linking {
            places: Places::new(alloc),
            last: None,
            number: 0,
        }
    }

    /// The indices.
    fn into_places(self) -> Places
        ensures { result ≡ self.places }
    {
        self.places
    }

    /// Checks that the next certificate is linked to the last one, and appends it.
    fn go_on<S: Scheme>(
        &mut self,
        alloc: Global,
        checked: &Cert,
        next: &BagCertificate<'_>,
        window: &Window,
        scheme: &S,
    ) -> Result<(), CertError>
        ensures { (bag : List CertificateElements)
            → IsLinkedSoFar (S.judge scheme.now) window.now bag checked.now self.old
            → StandsAt bag next.now.place (view_elements next.now.certificate)
            → MatchResult result
            (λ _. IsLinkedSoFar (S.judge scheme.now) window.now bag checked.now self.new
            × (self.new.places ≡ self.old.places ++ next.now.place ∷ []))
            (OrMemory errors.Memory (IsBrokenNext (S.judge scheme.now) window.now bag checked.now
            self.old (view_elements next.now.certificate))) }
    {
        let parent = linked_parent(
            alloc,
            nearest(checked, &self.last),
            next,
            self.number,
            window,
            scheme,
        )?;
        self.last = Some(parent);
        self.number = self.number.saturating_add(1);
        self.places.push(next.place)?;
        Ok(())
    }
}

/// The certificate, stored, if it may have issued the child.
fn linked_parent<S: Scheme>(
    alloc: Global,
    child: &Cert,
    next: &BagCertificate<'_>,
    number: u16,
    window: &Window,
    scheme: &S,
) -> Result<Cert, CertError>
    ensures { (count : ℕ) → IsCountFor number count
        → MatchResult result
        (IsNextLink (S.judge scheme.now) window.now count child.now
        (view_elements next.now.certificate))
        (OrMemory errors.Memory (IsNoLink (S.judge scheme.now) window.now count child.now
        (view_elements next.now.certificate))) }
{
    let parent = kept(alloc, next)?;
    parent.expect_link(alloc, child, number, window, scheme)?;
    Ok(parent)
}

/// The last parent so far, or the checked certificate.
fn nearest<'x>(checked: &'x Cert, last: &'x Option<Cert>) -> &'x Cert
    ensures { result.now ≡ unwrap_or last.now checked.now }
{
    match last {
        Some(parent) => parent,
        None => checked,
    }
}

/// The window without a date.
fn any_time() -> Window
    ensures { result ≡ any_time }
{
    Window {
        date: DateCheck::Absent,
        not_before: false,
        not_after: false,
    }
}
