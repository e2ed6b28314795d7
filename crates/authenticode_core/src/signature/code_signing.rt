//! Whether a certificate may sign code (RFC 5280 4.2.1.12).

ghost use Rattle.std.specs.Prelude.{◌↔◌, List, IsTrue, MatchResult};
ghost use Rattle.x509_types.specs.CertificateElements.{CertificateElements};
ghost use Rattle.x509_types.specs.CertificateView.{view_elements};
ghost use Rattle.authenticode_core.specs.Inside.SigningSteps.{MayNotSignCode};
ghost use Rattle.authenticode_core.specs.SigningRules.{AsksForPurposes, IsForCodeSigning};

use crate::bag::naming::Named;
use crate::error::AuthenticodeError;
use asn1_types::oids::KP_CODE_SIGNING;

/// Checks that the signer's certificate has the extended key usage code signing, if a certificate
/// of its issuer walk has an extended key usage.
pub(crate) fn expect_code_signing(named: &Named<'_>) -> Result<(), AuthenticodeError>
    ensures { (bag : List CertificateElements)
        → IsTrue named.now.asks_for_purposes
        ↔ AsksForPurposes bag (view_elements named.now.certificate.certificate)
        → MatchResult result
        (λ _. IsForCodeSigning bag (view_elements named.now.certificate.certificate))
        (MayNotSignCode bag (view_elements named.now.certificate.certificate)) }
{
    if named.certificate.certificate.names(KP_CODE_SIGNING) {
        return Ok(());
    }
    if named.asks_for_purposes {
        return Err(AuthenticodeError::NoEKUCodeSigning);
    }
    Ok(())
}
