//! The certificates of signed data, and the issuer walk of one of them, borrowed.

ghost use Rattle.std.specs.Prelude.{◌≡◌, List};
ghost use Rattle.der_core.specs.Optional.{members_of};
ghost use Rattle.cms_types.specs.SignedView.{data_elements};
ghost use Rattle.x509_types.specs.CertificateElements.{CertificateElements};
ghost use Rattle.x509_types.specs.CertificateView.{view_elements};
ghost use Rattle.authenticode_core.specs.BagCursor.{StandsIn};
ghost use Rattle.authenticode_core.specs.CertificateBag.{IsBag};
ghost use Rattle.authenticode_core.specs.LeftMembers.{left_members};
ghost use Rattle.authenticode_core.specs.SigningRules.{IsBagOf};
ghost use Rattle.authenticode_core.specs.WalkCursor.{LooksFrom};

use crate::bag::Bag;
use crate::bag::issuer_walk::IssuerWalk;
use cms_types::SignedView;
use x509_types::CertView;

/// The certificates that signed data contains, from the first on. It doesn't allocate.
pub fn certificate_bag<'a>(signed_data: &SignedView<'a>) -> Bag<'a>
    ensures members { left_members result.members
        ≡ members_of (data_elements signed_data.now).certificates }
    ensures place { result.place ≡ 0 }
    ensures stands { (bag : List CertificateElements)
        → IsBag (members_of (data_elements signed_data.now).certificates) bag
        → StandsIn result bag }
{
    Bag::of(signed_data.certificates())
}

/// Tests each member of the certificates of signed data, so that it is decided which of them are
/// certificates: a contract that speaks of the bag needs it where the code stops before the end. It
/// doesn't allocate.
pub(crate) fn decide_bag(signed_data: &SignedView<'_>)
    ensures { (bag : List CertificateElements) × IsBagOf (data_elements signed_data.now) bag }
{
    let _certificates = certificate_bag(signed_data).count();
}

/// The issuer walk of a certificate over the bag of signed data. It doesn't allocate.
pub fn issuer_walk_of<'a>(signed_data: &SignedView<'a>, signer: &CertView<'a>) -> IssuerWalk<'a>
    ensures looks { (bag : List CertificateElements)
        → IsBag (members_of (data_elements signed_data.now).certificates) bag
        → LooksFrom result bag 0 (view_elements signer.now).tbs.subject }
    ensures members { left_members result.bag.members
        ≡ members_of (data_elements signed_data.now).certificates }
{
    IssuerWalk::new(certificate_bag(signed_data), signer)
}
