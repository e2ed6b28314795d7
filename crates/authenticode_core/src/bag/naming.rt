//! The signer's certificate, by its issuer and serial number, and whether its issuer walk has an
//! extended key usage.

ghost use Rattle.std.specs.Prelude.{◌≡◌, ◌↔◌, List, IsTrue, IfSome, MatchOption};
ghost use Rattle.cms_types.specs.SignedView.{data_elements};
ghost use Rattle.cms_types.specs.SignerView.{signer_elements_at};
ghost use Rattle.der_core.specs.DerElement.{DerElement};
ghost use Rattle.der_core.specs.BorrowedOption.{at_option};
ghost use Rattle.der_core.specs.Optional.{members_of};
ghost use Rattle.x509_types.specs.CertificateElements.{CertificateElements, certificate_of};
ghost use Rattle.x509_types.specs.CertificateView.{view_elements};
ghost use Rattle.authenticode_core.specs.BagSigner.{HasNoSigner};
ghost use Rattle.authenticode_core.specs.CertificateBag.{IsBag, IsMember};
ghost use Rattle.authenticode_core.specs.Inside.Naming.{AsksNext, FindsNext, IsFirstOfName, IsNamedAt};
ghost use Rattle.authenticode_core.specs.Inside.Wanted.{IsNamedBy, IsWanted};
ghost use Rattle.authenticode_core.specs.LeftMembers.{left_members};
ghost use Rattle.authenticode_core.specs.Indices.{HasNoPlace, IsLeastPlace};
ghost use Rattle.authenticode_core.specs.SignedFields.{IsFirstSigner, signers_of};
ghost use Rattle.authenticode_core.specs.SigningRules.{AsksForPurposes, IsBagOf, IsSignerCertificate};
ghost use Rattle.authenticode_core.specs.WalkCursor.{LooksFrom};

use crate::bag::BagCertificate;
use crate::bag::certificates::{decide_bag, issuer_walk_of};
use crate::bag::issuer_walk::IssuerWalk;
use crate::bag::wanted::Wanted;
use cms_types::{SignedView, SignerView};
use der_core::{Elem, Kids, is_same};
use x509_types::{CertView, issuer_and_serial_at};

/// The signer's certificate, and whether a certificate of its issuer walk has an extended key
/// usage.
#[derive(Clone, Copy)]
pub(crate) struct Named<'a> {
    pub(crate) certificate: BagCertificate<'a>,
    pub(crate) asks_for_purposes: bool,
}

/// The certificate of the first signer, with its index, `None` if there is no such certificate (RFC
/// 5652 5.3, 10.2.4). It doesn't allocate.
pub fn signer_certificate<'a>(
    signed_data: &SignedView<'a>,
    signer: &SignerView<'a>,
) -> Option<BagCertificate<'a>>
    requires { IsFirstSigner (data_elements signed_data.now) (signer_elements_at signer.now) }
    ensures { (bag : List CertificateElements) × IsBagOf (data_elements signed_data.now) bag
        × MatchOption result (HasNoSigner (signers_of (data_elements signed_data.now)) bag)
        (λ named. IsSignerCertificate (data_elements signed_data.now) bag named.place
        (view_elements named.certificate)) }
{
    let Some((issuer, serial_number)) = signer.issuer_and_serial() else {
        decide_bag(signed_data);
        return None;
    };
    match named_certificate(signed_data, issuer, serial_number) {
        Some(named) => Some(named.certificate),
        None => None,
    }
}

/// The first certificate of signed data with this issuer, given as octets, and this serial number,
/// given as contents octets. Up to that one the two fields are compared before any other is read.
/// Then the bag is read once to its end: for the index, for the issuer walk, and so that it is
/// known whose index is returned. It doesn't allocate.
pub(crate) fn named_certificate<'a>(
    signed_data: &SignedView<'a>,
    issuer: &[u8],
    serial_number: &[u8],
) -> Option<Named<'a>>
    ensures { (bag : List CertificateElements) × IsBagOf (data_elements signed_data.now) bag
        × MatchOption result (HasNoPlace bag (IsNamedBy issuer.now serial_number.now) 0)
        (IsNamedAt bag issuer.now serial_number.now) }
{
    let Some((_, first)) = first_named(signed_data.certificates(), issuer, serial_number) else {
        decide_bag(signed_data);
        return None;
    };
    let walk = issuer_walk_of(signed_data, &first);
    let (found, asks_for_purposes) = find_on_walk(
        walk,
        Wanted::IssuerAndSerial(issuer, serial_number),
    );
    match found {
        Some(certificate) => Some(Named {
            certificate,
            asks_for_purposes,
        }),
        None => None,
    }
}

/// The first certificate of signed data with this issuer and serial number, and its index, which is
/// known. No other certificate is tested.
pub(crate) fn named_at_place<'a>(
    signed_data: &SignedView<'a>,
    issuer: &[u8],
    serial_number: &[u8],
    place: usize,
) -> Option<BagCertificate<'a>>
    ensures { (bag : List CertificateElements) → IsBagOf (data_elements signed_data.now) bag
        → MatchOption result (HasNoPlace bag (IsNamedBy issuer.now serial_number.now) 0)
        (λ named. (named.place ≡ place) × IsFirstOfName bag issuer.now serial_number.now
        (view_elements named.certificate)) }
{
    let (elem, certificate) = first_named(signed_data.certificates(), issuer, serial_number)?;
    Some(BagCertificate {
        place,
        elem,
        certificate,
    })
}

/// The first certificate in a field of certificates with this issuer and serial number, and its
/// element.
fn first_named<'a>(
    certificates: Option<Elem<'a>>,
    issuer: &[u8],
    serial_number: &[u8],
) -> Option<(Elem<'a>, CertView<'a>)>
    ensures is { IfSome result (λ first. first.0.is.0 ≡ certificate_of (view_elements first.1)) }
    ensures first { (bag : List CertificateElements)
        → IsBag (members_of (at_option certificates.entry)) bag
        → MatchOption result (HasNoPlace bag (IsNamedBy issuer.now serial_number.now) 0)
        (λ first. IsFirstOfName bag issuer.now serial_number.now (view_elements first.1)) }
{
    let members = Kids::within(certificates?)?;
    first_among(members, issuer, serial_number)
}

/// The first certificate among the members with this issuer and serial number, and its element.
fn first_among<'a>(
    mut members: Kids<'a>,
    issuer: &[u8],
    serial_number: &[u8],
) -> Option<(Elem<'a>, CertView<'a>)>
    ensures is { IfSome result (λ first. first.0.is.0 ≡ certificate_of (view_elements first.1)) }
    ensures first { (bag : List CertificateElements) → IsBag members.entry.are.0 bag
        → MatchOption result (HasNoPlace bag (IsNamedBy issuer.now serial_number.now) 0)
        (λ first. IsFirstOfName bag issuer.now serial_number.now (view_elements first.1)) }
{
    while let Some(member) = members.next() {
        if let Some(certificate) = named_at(member, issuer, serial_number) {
            return Some((member, certificate));
        }
    }
    None
}

/// The certificate that a member is, if it has this issuer and serial number.
fn named_at<'a>(member: Elem<'a>, issuer: &[u8], serial_number: &[u8]) -> Option<CertView<'a>>
    ensures { MatchOption result
        ((c : CertificateElements) → IsMember member.entry.is.0 c
        → IsNamedBy issuer.now serial_number.now c → ⊥)
        (λ certificate. IsMember member.entry.is.0 (view_elements certificate)
        × IsNamedBy issuer.now serial_number.now (view_elements certificate)) }
{
    if !may_be_named(member, issuer, serial_number) {
        return None;
    }
    let certificate = CertView::read(member)?;
    if !Wanted::IssuerAndSerial(issuer, serial_number).is(&certificate) {
        return None;
    }
    Some(certificate)
}

/// Whether a member could be a certificate with this issuer and serial number.
fn may_be_named(member: Elem<'_>, issuer: &[u8], serial_number: &[u8]) -> bool
    ensures { (c : CertificateElements) → member.entry.is.0 ≡ certificate_of c
        → IsNamedBy issuer.now serial_number.now c → IsTrue result }
{
    match issuer_and_serial_at(member) {
        Some((name, number)) => is_same(name, issuer) && is_same(number, serial_number),
        None => false,
    }
}

/// The first wanted certificate of a bag, and whether some certificate of the issuer walk has an
/// extended key usage. The bag is read once, to its end, without allocating.
fn find_on_walk<'a>(
    mut walk: IssuerWalk<'a>,
    wanted: Wanted<'_>,
) -> (Option<BagCertificate<'a>>, bool)
    ensures ended { (bag : List CertificateElements)
        × IsBag (left_members walk.entry.bag.members) bag }
    ensures found { (bag : List CertificateElements) (subject : DerElement)
        → LooksFrom walk.entry bag 0 subject
        → MatchOption result.0 (HasNoPlace bag (IsWanted wanted.entry) 0) (λ found. IsLeastPlace bag
        (IsWanted wanted.entry) 0 found.place (view_elements found.certificate)) }
    ensures asks { (bag : List CertificateElements) (signer : CertificateElements)
        → LooksFrom walk.entry bag 0 signer.tbs.subject
        → IsTrue result.1 ↔ AsksForPurposes bag signer }
{
    let mut found = None;
    let mut asks = false;
    while let Some((next, on_walk)) = walk.step() {
        found = found_next(found, next, wanted);
        asks = asks_next(asks, on_walk, &next.certificate);
    }
    (found, asks)
}

/// What was found before, or else the next certificate if it is wanted.
fn found_next<'a>(
    found: Option<BagCertificate<'a>>,
    next: BagCertificate<'a>,
    wanted: Wanted<'_>,
) -> Option<BagCertificate<'a>>
    ensures { FindsNext wanted.entry found.entry next.entry result }
{
    if found.is_some() {
        return found;
    }
    if wanted.is(&next.certificate) {
        return Some(next);
    }
    None
}

/// Whether an earlier certificate of the walk has an extended key usage, or this one, if it is on
/// the walk.
fn asks_next(asks: bool, on_walk: bool, certificate: &CertView<'_>) -> bool
    ensures { AsksNext asks on_walk (view_elements certificate.now) result }
{
    if on_walk {
        asks || certificate.has_purposes()
    } else {
        asks
    }
}
