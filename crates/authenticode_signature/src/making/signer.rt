//! The signer's certificate.

ghost use Rattle.std.specs.Prelude.{◌↔◌, IsTrue, MatchResult};
ghost use Rattle.authenticode_parts.specs.Carried.{elements_of};
ghost use Rattle.authenticode_core.specs.SigningRules.{IsForCodeSigning};
ghost use Rattle.authenticode_signature.specs.Making.{HasNoFirstForSigning, IsFirstForSigning};
ghost use Rattle.authenticode_signature.specs.Walk.{SomeHasPurposes, items_left};

use crate::certificates::SignatureCertificatesIterator;
use asn1_types::oids::KP_CODE_SIGNING;
use authenticode_core::AuthenticodeError;
use x509_core::Cert;

/// The first of the certificates, which must be allowed to sign code.
pub(super) fn first_signer(bag: &[Cert]) -> Result<&Cert, AuthenticodeError>
    ensures { MatchResult result
        (λ first. IsFirstForSigning (elements_of bag.now) first.now.elements)
        (HasNoFirstForSigning (elements_of bag.now)) }
{
    let Some((first, _)) = bag.split_first() else {
        return Err(AuthenticodeError::NoCertificates);
    };
    if may_sign_code(first, bag) {
        Ok(first)
    } else {
        Err(AuthenticodeError::NoEKUCodeSigning)
    }
}

/// Whether a certificate names code signing, if one of its issuer walk among others has an extended
/// key usage (RFC 5280 4.2.1.12).
pub(crate) fn may_sign_code(signer: &Cert, certificates: &[Cert]) -> bool
    ensures { IsTrue result ↔ IsForCodeSigning (elements_of certificates.now) signer.now.elements }
{
    if signer.view().names(KP_CODE_SIGNING) {
        return true;
    }
    !asks_for_purposes(SignatureCertificatesIterator::new(signer, certificates))
}

/// Whether some certificate of the walk has an extended key usage.
fn asks_for_purposes(mut walk: SignatureCertificatesIterator<'_>) -> bool
    ensures { IsTrue result ↔ SomeHasPurposes (items_left walk.entry) }
{
    while let Some(certificate) = walk.next() {
        if certificate.view().has_purposes() {
            return true;
        }
    }
    false
}
