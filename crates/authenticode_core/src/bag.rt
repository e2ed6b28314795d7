//! The certificates that signed data contains, borrowed.

ghost use Rattle.std.specs.Prelude.{◌≡◌, ℕ, suc, ◌+◌, ◌<◌, ◌^◌, List, [], length, None, MatchOption, IfSome};
ghost use Rattle.std.specs.Coded.{Coded-set};
ghost use Rattle.der_core.specs.Facts.Codes.{coded_element};
ghost use Rattle.der_core.specs.BorrowedOption.{at_option};
ghost use Rattle.der_core.specs.Optional.{members_of};
ghost use Rattle.x509_types.specs.CertificateElements.{CertificateElements, certificate_of};
ghost use Rattle.x509_types.specs.CertificateView.{IsCertView, view_elements};
ghost use Rattle.authenticode_core.specs.CertificateBag.{IsBag};
ghost use Rattle.authenticode_core.specs.Inside.Wanted.{IsWanted};
ghost use Rattle.authenticode_core.specs.LeftMembers.{left_members, BeginsBag};
ghost use Rattle.authenticode_core.specs.Indices.{StandsAt, HasNoPlace, IsLeastPlace};

pub(crate) mod certificates;
pub(crate) mod issuer_walk;
pub(crate) mod naming;
pub(crate) mod others;
pub(crate) mod wanted;

use crate::bag::wanted::Wanted;
use der_core::{Elem, Kids};
use x509_types::CertView;

/// A certificate of a bag: its index, from 0, its element, and the view of it.
#[derive(Clone, Copy)]
pub struct BagCertificate<'a> {
    pub place: usize,
    pub elem: Elem<'a>,
    pub certificate: CertView<'a>,
    pub ghost is: { elem.is.0 ≡ certificate_of (view_elements certificate) } by { Coded-set coded_element elem.is.0 (certificate_of (view_elements certificate)) },
}

/// The certificates among the members of a field, read one by one and borrowed (RFC 5652 5.1,
/// 10.2.3). Members that aren't certificates are skipped. It doesn't allocate.
#[derive(Clone, Copy)]
pub struct Bag<'a> {
    members: Option<Kids<'a>>,
    place: usize,
    ghost counted: { place + length (left_members members) < 2 ^ 32 },
}

impl<'a> Bag<'a> {
    ghost use Rattle.authenticode_core.specs.BagCursor.{StandsIn};

    /// The bag of an optional field of certificates, at its beginning.
    pub fn of(certificates: Option<Elem<'a>>) -> Bag<'a>
        ensures members { left_members result.members ≡ members_of (at_option certificates.entry) }
        ensures place { result.place ≡ 0 }
    {
        let members = match certificates {
            Some(elem) => Kids::within(elem),
            None => None,
        };
        Bag { members, place: 0 }
    }

    /// The next certificate, with its index in the bag.
    pub fn next(&mut self) -> Option<BagCertificate<'a>>
        ensures fewer { IfSome result
            (λ _. length (left_members self.new.members) < length (left_members self.old.members)) }
        ensures place { IfSome result
            (λ next. (next.place ≡ self.old.place) × (self.new.place ≡ suc next.place)) }
        // If no certificate is returned, nothing changes.
        ensures ended { result ≡ None → self.new ≡ self.old }
        ensures begins { MatchOption result (IsBag (left_members self.old.members) [])
            (λ next. BeginsBag (left_members self.old.members) (view_elements next.certificate)
            (left_members self.new.members)) }
        ensures stands { (bag : List CertificateElements) → StandsIn self.old bag
            → StandsIn self.new bag }
        ensures next { (bag : List CertificateElements) → StandsIn self.old bag → MatchOption result
            (length bag ≡ self.old.place)
            (λ next. StandsAt bag next.place (view_elements next.certificate)) }
    {
        let mut members = self.members?;
        let (elem, certificate) = next_certificate(&mut members)?;
        let place = self.place;
        *self = Bag {
            members: Some(members),
            place: place + 1,
        };
        Some(BagCertificate {
            place,
            elem,
            certificate,
        })
    }

    /// The next wanted certificate, with its index in the bag.
    pub(crate) fn next_wanted(&mut self, wanted: Wanted<'_>) -> Option<BagCertificate<'a>>
        ensures fewer { IfSome result
            (λ _. length (left_members self.new.members) < length (left_members self.old.members)) }
        ensures stands { (bag : List CertificateElements) → StandsIn self.old bag
            → StandsIn self.new bag }
        ensures least { (bag : List CertificateElements) → StandsIn self.old bag
            → MatchOption result (HasNoPlace bag (IsWanted wanted.entry) self.old.place)
            (λ next. IsLeastPlace bag (IsWanted wanted.entry) self.old.place next.place
            (view_elements next.certificate)
            × (self.new.place ≡ suc next.place)) }
    {
        while let Some(next) = self.next() {
            if wanted.is(&next.certificate) {
                return Some(next);
            }
        }
        None
    }

    /// The number of certificates left.
    pub fn count(self) -> usize
        ensures { (bag : List CertificateElements) × IsBag (left_members self.entry.members) bag
            × (result ≡ length bag) }
    {
        let Some(mut members) = self.members else {
            return 0;
        };
        let mut count: usize = 0;
        while let Some(_next) = next_certificate(&mut members) {
            count += 1;
        }
        count
    }
}

/// The next member that is a certificate.
fn next_certificate<'a>(members: &mut Kids<'a>) -> Option<(Elem<'a>, CertView<'a>)>
    ensures { MatchOption result (IsBag members.old.are.0 []) (λ next. IsCertView next.0.is.0 next.1
        × BeginsBag members.old.are.0 (view_elements next.1) members.new.are.0) }
{
    while let Some(elem) = members.next() {
        if let Some(certificate) = CertView::read(elem) {
            return Some((elem, certificate));
        }
    }
    None
}
