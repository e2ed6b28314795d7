//! The issuers of a signer's certificate, among the certificates of a caller.

ghost use Rattle.std.specs.Prelude.{◌≡◌, ◌∷◌, [], MatchOption};
ghost use Rattle.std.specs.Iterator.{YieldsFirstRef, item_count};
ghost use Rattle.der_core.specs.Encoding.{encoding};
ghost use Rattle.authenticode_signature.specs.Walk.{IsWalkOf, items_left, walked};

use der_core::is_same;
use x509_core::Cert;

/// The certificates of the issuer walk of a signer's certificate: the first whose subject is that
/// of the signer's, then each next later one whose subject is the issuer of the one before (RFC
/// 5280 6.1). The list is traversed once, and nothing is allocated.
#[derive(Drop)]
pub struct SignatureCertificatesIterator<'i> {
    subject: &'i [u8],
    rest: &'i [Cert],
}

impl<'i> SignatureCertificatesIterator<'i> {
    /// The walk of the signer's certificate among the certificates.
    pub fn new(signer: &'i Cert, certificates: &'i [Cert]) -> SignatureCertificatesIterator<'i>
        ensures { IsWalkOf signer.now certificates.now (items_left result) }
    {
        SignatureCertificatesIterator {
            subject: signer.view().subject(),
            rest: certificates,
        }
    }
}

impl<'i> Iterator for SignatureCertificatesIterator<'i> {
    type Item = &'i Cert;

    ghost next_gives = { YieldsFirstRef items_left };

    ghost remaining = { item_count items_left };

    fn next(&mut self) -> Option<&'i Cert> {
        let (found, behind) = first_of(self.rest, self.subject)?;
        self.subject = found.view().issuer();
        self.rest = behind;
        Some(found)
    }
}

/// The first certificate with the subject, given by its octets, and those after it.
fn first_of<'i>(certificates: &'i [Cert], subject: &[u8]) -> Option<(&'i Cert, &'i [Cert])>
    ensures { MatchOption result (walked subject.now certificates.now ≡ [])
        (λ found. walked subject.now certificates.now
        ≡ found.0.now ∷ walked (encoding found.0.now.elements.tbs.issuer) found.1.now) }
{
    let mut rest = certificates;
    while let Some((certificate, behind)) = rest.split_first() {
        if is_same(certificate.view().subject(), subject) {
            return Some((certificate, behind));
        }
        rest = behind;
    }
    None
}
