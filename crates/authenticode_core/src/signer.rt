//! Whether the certificate of the first signer is vouched for, or its expiry excused, step by step
//! (RFC 5280 6.1; Windows Authenticode Portable Executable Signature Format).

ghost use Rattle.std.specs.Prelude.{◌≡◌, ◌↔◌, ℕ, List, [], ◌∷◌, Some, IsTrue, IfSome, MatchResult};
ghost use Rattle.cms_types.specs.SignedView.{data_elements};
ghost use Rattle.cms_types.specs.SignerView.{signer_elements_at};
ghost use Rattle.der_core.specs.Rules.{OrMemory};
ghost use Rattle.x509_core.specs.OwnedCertificate.{KeptCertificate};
ghost use Rattle.x509_core.specs.Link.{IsOutside};
ghost use Rattle.x509_core.specs.Rules.{Breaks};
ghost use Rattle.x509_core.specs.declared.error.CertError.TheVariants as cert_errors;
ghost use Rattle.x509_types.specs.CertificateElements.{CertificateElements};
ghost use Rattle.x509_types.specs.CertificateView.{view_elements};
ghost use Rattle.authenticode_core.specs.Inside.Form.{AreSpelled};
ghost use Rattle.authenticode_core.specs.Inside.PolicySteps.{IsExpiry, IsUnlinkedPath, ReportsExpiry, valid_and_vouched_rules, validity_rules};
ghost use Rattle.authenticode_core.specs.Inside.SigningSteps.{HasSigner, HasSignerAt};
ghost use Rattle.authenticode_core.specs.LinkedPath.{IsPathAsked};
ghost use Rattle.authenticode_core.specs.Policy.{window_of};
ghost use Rattle.authenticode_core.specs.SignedFields.{IsFirstSigner};
ghost use Rattle.authenticode_core.specs.SignerRules.{IsKeptSigner, IsSignerVouched, IsValidAndVouched, IsValidOrExcusable, LacksSigner, signer_rules};
ghost use Rattle.authenticode_core.specs.SigningRules.{HasNoCertificate, IsBagOf, IsNamedByKey, RefusesAuthenticodeBy};

use crate::accepted::{Accepted, Excuse};
use crate::bag::BagCertificate;
use crate::bag::naming::named_at_place;
use crate::error::AuthenticodeError;
use crate::excuse::excuse_of;
use crate::excuse::token::first_signer_of;
use crate::path::{kept, linked_path};
use crate::policy::Policy;
use crate::signature::expect_certificate;
use cms_types::{SignedView, SignerView};
use sig_core::Scheme;
use std::alloc::Global;
use x509_core::{Cert, CertCause, CertError, Places};
use x509_types::CertView;

/// Checks that the certificate of the first signer is vouched for under a policy. The first of
/// these that fails is returned: there is a signer; it is identified by an issuer and a serial
/// number, and some certificate has these; a date is given if dates are checked; the certificate is
/// valid, or there is a reason to excuse its expiry; if the chain is checked, the certificates of
/// the issuer path are linked, excused signer or not. The index of the certificate may be known.
pub(crate) fn expect_signer<S: Scheme>(
    alloc: Global,
    signed_data: &SignedView<'_>,
    known: Option<usize>,
    policy: &Policy<'_>,
    scheme: &S,
) -> Result<Accepted, AuthenticodeError>
    requires spelled { AreSpelled (data_elements signed_data.now) }
    requires known { IfSome known (HasSignerAt (data_elements signed_data.now)) }
    ensures { MatchResult result
        (IsSignerVouched (S.judge scheme.now) policy.entry.now (data_elements signed_data.now))
        (RefusesAuthenticodeBy
        (signer_rules (S.judge scheme.now) policy.entry.now (data_elements signed_data.now))) }
{
    let first = expect_first(signed_data)?;
    let named = expect_named(alloc, signed_data, &first, known)?;
    let checks = policy.checks();
    checks.expect_date()?;
    let signer = kept(alloc, &named)?;
    expect_valid_and_vouched(alloc, signed_data, &named, signer, policy, scheme)
}

/// The first signer.
pub(crate) fn expect_first<'a>(
    signed_data: &SignedView<'a>,
) -> Result<SignerView<'a>, AuthenticodeError>
    requires { AreSpelled (data_elements signed_data.now) }
    ensures { MatchResult result
        (λ signer. IsFirstSigner (data_elements signed_data.now) (signer_elements_at signer))
        (LacksSigner (data_elements signed_data.now)) }
{
    match first_signer_of(signed_data) {
        Some(signer) => Ok(signer),
        None => Err(AuthenticodeError::MultipleSignerInfo { count: 0 }),
    }
}

/// The certificate with the issuer and the serial number of the first signer. If its index is
/// known, the bag isn't read to its end again.
pub(crate) fn expect_named<'a>(
    alloc: Global,
    signed_data: &SignedView<'a>,
    signer: &SignerView<'a>,
    known: Option<usize>,
) -> Result<BagCertificate<'a>, AuthenticodeError>
    requires first { IsFirstSigner (data_elements signed_data.now) (signer_elements_at signer.now) }
    requires known { IfSome known (HasSignerAt (data_elements signed_data.now)) }
    ensures { MatchResult result
        (λ named. HasSigner (data_elements signed_data.now) named.place
        (view_elements named.certificate))
        (RefusesAuthenticodeBy (IsNamedByKey (signer_elements_at signer.now) ∷
        HasNoCertificate (data_elements signed_data.now) (signer_elements_at signer.now) ∷
        [])) }
{
    let Some(place) = known else {
        let named = expect_certificate(alloc, signed_data, signer)?;
        return Ok(named.certificate);
    };
    let Some((issuer, serial_number)) = signer.issuer_and_serial() else {
        unreachable!();
    };
    match named_at_place(signed_data, issuer, serial_number, place) {
        Some(named) => Ok(named),
        None => unreachable!(),
    }
}

/// Checks that the signer's certificate is valid, or its expiry excused, and that the certificates
/// of the issuer path are linked if the chain is checked. The certificate is given both borrowed
/// and stored.
fn expect_valid_and_vouched<S: Scheme>(
    alloc: Global,
    signed_data: &SignedView<'_>,
    named: &BagCertificate<'_>,
    signer: Cert,
    policy: &Policy<'_>,
    scheme: &S,
) -> Result<Accepted, AuthenticodeError>
    requires { signer.elements ≡ view_elements named.now.certificate }
    ensures { (bag : List CertificateElements)
        → IsKeptSigner (data_elements signed_data.now) bag named.now.place signer
        → MatchResult result
        (λ a. (a.signer ≡ Some named.now.place)
        × IsValidAndVouched (S.judge scheme.now) policy.entry.now (data_elements signed_data.now) bag
        signer a.path a.excuse)
        (RefusesAuthenticodeBy
        (valid_and_vouched_rules (S.judge scheme.now) policy.entry.now (data_elements signed_data.now))) }
{
    let excuse = expect_validity(
        alloc,
        signed_data,
        &named.certificate,
        &signer,
        policy,
        scheme,
    )?;
    let path = asked_path(alloc, signed_data, signer, policy, scheme)?;
    Ok(Accepted {
        signer: Some(named.place),
        path,
        excuse,
    })
}

/// Checks that the signer's certificate is valid, or that there is a reason to excuse its expiry.
/// The certificate is given both borrowed and stored.
fn expect_validity<S: Scheme>(
    alloc: Global,
    signed_data: &SignedView<'_>,
    view: &CertView<'_>,
    signer: &Cert,
    policy: &Policy<'_>,
    scheme: &S,
) -> Result<Excuse, AuthenticodeError>
    requires { signer.now.elements ≡ view_elements view.now }
    ensures { (bag : List CertificateElements) (place : ℕ)
        → IsKeptSigner (data_elements signed_data.now) bag place signer.now
        → MatchResult result
        (IsValidOrExcusable (S.judge scheme.now) policy.entry.now (data_elements signed_data.now) bag
        signer.now.elements)
        (RefusesAuthenticodeBy
        (validity_rules (S.judge scheme.now) policy.entry.now (data_elements signed_data.now))) }
{
    let checks = policy.checks();
    match signer.expect_valid(alloc, &checks.window) {
        Ok(()) => Ok(Excuse::None),
        Err(error) => expect_excuse(alloc, signed_data, view, error, policy, scheme),
    }
}

/// The indices of the issuer path if the chain is checked, else none.
fn asked_path<S: Scheme>(
    alloc: Global,
    signed_data: &SignedView<'_>,
    signer: Cert,
    policy: &Policy<'_>,
    scheme: &S,
) -> Result<Places, CertError>
    ensures { (bag : List CertificateElements) → IsBagOf (data_elements signed_data.now) bag
        → MatchResult result
        (IsPathAsked policy.entry.now.chain (S.judge scheme.now) (window_of policy.entry.now) bag signer)
        (OrMemory cert_errors.Memory (λ e. IsTrue policy.entry.now.chain
        × IsUnlinkedPath (S.judge scheme.now) (window_of policy.entry.now) bag signer e)) }
{
    if !policy.chain {
        return Ok(Places::new(alloc));
    }
    let checks = policy.checks();
    linked_path(alloc, signed_data, signer, &checks.window, scheme)
}

/// The reason to excuse the expiry of the signer's certificate, given the error that it isn't
/// valid. Only an expired certificate is excused.
fn expect_excuse<S: Scheme>(
    alloc: Global,
    signed_data: &SignedView<'_>,
    signer: &CertView<'_>,
    error: CertError,
    policy: &Policy<'_>,
    scheme: &S,
) -> Result<Excuse, AuthenticodeError>
    ensures { (bag : List CertificateElements) (place : ℕ) (signer' : KeptCertificate)
        → IsKeptSigner (data_elements signed_data.now) bag place signer'
        → signer'.elements ≡ view_elements signer.now
        → Breaks (IsOutside (window_of policy.entry.now) signer') error
        → MatchResult result
        (IsValidOrExcusable (S.judge scheme.now) policy.entry.now (data_elements signed_data.now) bag
        signer'.elements)
        (RefusesAuthenticodeBy
        (validity_rules (S.judge scheme.now) policy.entry.now (data_elements signed_data.now))) }
{
    if !reports_expiry(&error) {
        return Err(AuthenticodeError::from(error));
    }
    match excuse_of(alloc, signed_data, signer, policy, scheme)? {
        Some(excuse) => Ok(excuse),
        None => Err(AuthenticodeError::from(error)),
    }
}

/// Whether an error reports an expired certificate.
fn reports_expiry(error: &CertError) -> bool
    ensures { IsTrue result ↔ ReportsExpiry error.now }
{
    match error {
        CertError::InvalidCertificate { source, .. } => is_expiry(source),
        _ => false,
    }
}

/// Whether the cause is that a certificate has expired.
fn is_expiry(cause: &CertCause) -> bool
    ensures { IsTrue result ↔ IsExpiry cause.now }
{
    match cause {
        CertCause::CertificateExpired { .. } => true,
        _ => false,
    }
}
