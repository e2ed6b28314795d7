//! The walk from the signer's certificate to those of its issuers, borrowed.

ghost use Rattle.std.specs.Prelude.{◌≡◌, ℕ, suc, ◌<◌, List, [], length, None, IfSome, MatchOption};
ghost use Rattle.der_core.specs.DerElement.{DerElement};
ghost use Rattle.x509_types.specs.CertificateElements.{CertificateElements};
ghost use Rattle.x509_types.specs.CertificateView.{view_elements};
ghost use Rattle.authenticode_core.specs.BagCursor.{StandsIn};
ghost use Rattle.authenticode_core.specs.CertificateBag.{IsBag};
ghost use Rattle.authenticode_core.specs.IssuerWalk.{IsWalkFrom};
ghost use Rattle.authenticode_core.specs.LeftMembers.{left_members, BeginsBag};
ghost use Rattle.authenticode_core.specs.Names.{HasSubject};
ghost use Rattle.authenticode_core.specs.Indices.{IsLeastPlace};
ghost use Rattle.authenticode_core.specs.WalkCursor.{LooksFrom, StepsTo};

use crate::bag::wanted::Wanted;
use crate::bag::{Bag, BagCertificate};
use der_core::is_same;
use x509_types::CertView;

/// The first certificate with the signer's subject, then each next later one whose subject is the
/// issuer of the one before (RFC 5280 6.1). The bag is read once, without allocating.
#[derive(Clone, Copy)]
pub struct IssuerWalk<'a> {
    bag: Bag<'a>,
    subject: &'a [u8],
}

impl<'a> IssuerWalk<'a> {
    /// The walk of the certificate over the rest of the bag.
    pub fn new(bag: Bag<'a>, signer: &CertView<'a>) -> IssuerWalk<'a>
        ensures looks { (certificates : List CertificateElements) → StandsIn bag.entry certificates
            → LooksFrom result certificates bag.entry.place (view_elements signer.now).tbs.subject }
        ensures members { left_members result.bag.members ≡ left_members bag.entry.members }
    {
        IssuerWalk {
            bag,
            subject: signer.subject(),
        }
    }

    /// The next certificate of the bag, with its index in it, and whether it is the next of the
    /// walk.
    pub(crate) fn step(&mut self) -> Option<(BagCertificate<'a>, bool)>
        ensures begins { MatchOption result (IsBag (left_members self.old.bag.members) [])
            (λ next. BeginsBag (left_members self.old.bag.members)
            (view_elements next.0.certificate) (left_members self.new.bag.members)) }
        ensures next { (bag : List CertificateElements) (from : ℕ) (subject : DerElement)
            → LooksFrom self.old bag from subject
            → MatchOption result (length bag ≡ from) (λ next. StepsTo self.new bag from subject
            next.0.place (view_elements next.0.certificate) next.1) }
    {
        let next = self.bag.next()?;
        if is_same(next.certificate.subject(), self.subject) {
            self.subject = next.certificate.issuer();
            return Some((next, true));
        }
        Some((next, false))
    }

    /// The next certificate of the walk, with its index in the bag.
    pub fn next(&mut self) -> Option<BagCertificate<'a>>
        ensures fewer { IfSome result (λ _. length (left_members self.new.bag.members)
            < length (left_members self.old.bag.members)) }
        // If no certificate is returned, nothing changes.
        ensures ended { result ≡ None → self.new ≡ self.old }
        ensures next { (bag : List CertificateElements) (from : ℕ) (subject : DerElement)
            → LooksFrom self.old bag from subject
            → MatchOption result (IsWalkFrom bag from subject []) (λ next. IsLeastPlace bag
            (HasSubject subject) from next.place (view_elements next.certificate)
            × LooksFrom self.new bag (suc next.place)
            (view_elements next.certificate).tbs.issuer) }
    {
        let mut bag = self.bag;
        let next = bag.next_wanted(Wanted::Subject(self.subject))?;
        *self = IssuerWalk {
            bag,
            subject: next.certificate.issuer(),
        };
        Some(next)
    }
}
