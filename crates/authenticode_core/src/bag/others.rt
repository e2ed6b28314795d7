//! The certificates of an issuer walk, or of a bag, without those with a given subject.

ghost use Rattle.std.specs.Prelude.{◌≡◌, ◌<◌, ℕ, List, [], length, IfSome, MatchOption};
ghost use Rattle.x509_types.specs.CertificateElements.{CertificateElements};
ghost use Rattle.x509_types.specs.CertificateView.{view_elements};
ghost use Rattle.authenticode_core.specs.BagCursor.{StandsIn};
ghost use Rattle.authenticode_core.specs.Excuses.{AreOthersThan};
ghost use Rattle.authenticode_core.specs.OthersCursor.{AreLeft, GivesPlaces, IsFirstOf, unread_members};
ghost use Rattle.authenticode_core.specs.IssuerWalk.{IsIssuerPath};

use crate::bag::issuer_walk::IssuerWalk;
use crate::bag::{Bag, BagCertificate};
use der_core::is_same;
use x509_types::CertView;

/// Where certificates come from, in order.
#[derive(Clone, Copy)]
pub(crate) enum Source<'a> {
    Walk(IssuerWalk<'a>),
    Bag(Bag<'a>),
}

/// Certificates without those with a given subject, given as octets. They are read once, without
/// allocating.
#[derive(Clone, Copy)]
pub struct Others<'a> {
    source: Source<'a>,
    subject: &'a [u8],
}

impl<'a> Source<'a> {
    /// The next certificate, with its index in the bag.
    pub(crate) fn next(&mut self) -> Option<BagCertificate<'a>>
        ensures fewer { IfSome result
            (λ _. length (unread_members self.new) < length (unread_members self.old)) }
        ensures next { (bag : List CertificateElements) (places : List ℕ)
            → GivesPlaces self.old bag places
            → MatchOption result (places ≡ []) (λ next. (behind : List ℕ)
            × IsFirstOf bag places next.place (view_elements next.certificate) behind
            × GivesPlaces self.new bag behind) }
    {
        match self {
            Source::Walk(walk) => walk.next(),
            Source::Bag(bag) => bag.next(),
        }
    }
}

impl<'a> Others<'a> {
    /// The certificates of the issuer path of a certificate, from a bag at its beginning.
    pub fn on_path(bag: Bag<'a>, signer: &CertView<'a>) -> Others<'a>
        ensures { (certificates : List CertificateElements) → StandsIn bag.entry certificates
            → bag.entry.place ≡ 0
            → (path : List ℕ) × IsIssuerPath certificates (view_elements signer.now) path
            × AreLeft result certificates path }
    {
        Others {
            source: Source::Walk(IssuerWalk::new(bag, signer)),
            subject: signer.subject(),
        }
    }

    /// The certificates of a bag at its beginning, without those with the subject of this one.
    pub fn in_bag(bag: Bag<'a>, first: &CertView<'a>) -> Others<'a>
        ensures { (certificates : List CertificateElements) → StandsIn bag.entry certificates
            → bag.entry.place ≡ 0
            → (places : List ℕ) × AreOthersThan certificates (view_elements first.now) places
            × AreLeft result certificates places }
    {
        Others {
            source: Source::Bag(bag),
            subject: first.subject(),
        }
    }

    /// The next certificate with another subject, with its index in the bag.
    pub fn next(&mut self) -> Option<BagCertificate<'a>>
        ensures fewer { IfSome result (λ _. length (unread_members self.new.source)
            < length (unread_members self.old.source)) }
        ensures next { (bag : List CertificateElements) (places : List ℕ)
            → AreLeft self.old bag places
            → MatchOption result (places ≡ []) (λ next. (behind : List ℕ)
            × IsFirstOf bag places next.place (view_elements next.certificate) behind
            × AreLeft self.new bag behind) }
    {
        while let Some(next) = self.source.next() {
            if !is_same(next.certificate.subject(), self.subject) {
                return Some(next);
            }
        }
        None
    }
}
