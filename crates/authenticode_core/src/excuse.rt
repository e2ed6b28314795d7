//! Why the expiry of a signer's certificate is excused.

ghost use Rattle.std.specs.Prelude.{◌↔◌, List, IsTrue, MatchOption, MatchResult};
ghost use Rattle.cms_types.specs.SignedView.{data_elements};
ghost use Rattle.der_core.specs.Rules.{OrMemory};
ghost use Rattle.x509_types.specs.CertificateElements.{CertificateElements};
ghost use Rattle.x509_types.specs.CertificateView.{view_elements};
ghost use Rattle.authenticode_core.specs.Excuses.{HasBadStamp, HasNoExcuse, HasReason, IsForStamping, IsLinkedToken, IsListedToken, IsUnlinkedStamp, IsUnlistedStamp, LeadsStamping, NamesTimeStamping};
ghost use Rattle.authenticode_core.specs.Indices.{StandsAt};
ghost use Rattle.authenticode_core.specs.SigningRules.{IsBagOf};
ghost use Rattle.authenticode_core.specs.declared.error.AuthenticodeError.TheVariants as errors;

pub(crate) mod token;

use crate::accepted::Excuse;
use crate::authority::authority_name;
use crate::bag::BagCertificate;
use crate::bag::certificates::{certificate_bag, decide_bag};
use crate::bag::others::Source;
use crate::bag::wanted::Wanted;
use crate::ctl::expect_on_list;
use crate::error::AuthenticodeError;
use crate::excuse::token::token_of;
use crate::path::{expect_linked_token, kept};
use crate::policy::Policy;
use asn1_types::oids::{KP_LIFETIME_SIGNING, KP_TIME_STAMPING};
use cms_types::SignedView;
use sig_core::Scheme;
use std::alloc::Global;
use x509_core::CertError;
use x509_types::CertView;

/// The reason to excuse the expiry of the signer's certificate, if there is one. It waives the
/// not-after date of that certificate alone; the issuer path isn't checked here. Only linking the
/// certificates of a token allocates; if the policy has a list, their CA is looked up on it last.
pub(crate) fn excuse_of<S: Scheme>(
    alloc: Global,
    signed_data: &SignedView<'_>,
    signer: &CertView<'_>,
    policy: &Policy<'_>,
    scheme: &S,
) -> Result<Option<Excuse>, AuthenticodeError>
    ensures { (bag : List CertificateElements) → IsBagOf (data_elements signed_data.now) bag
        → MatchResult result
        (λ found. MatchOption found
        (HasNoExcuse (data_elements signed_data.now) bag (view_elements signer.now))
        (HasReason (S.judge scheme.now) policy.entry.now (data_elements signed_data.now) bag
        (view_elements signer.now)))
        (OrMemory errors.Memory (HasBadStamp (S.judge scheme.now) policy.entry.now
        (data_elements signed_data.now) bag (view_elements signer.now))) }
{
    if signer.names(KP_LIFETIME_SIGNING) {
        return Ok(None);
    }
    if names_time_stamping(signed_data) {
        return Ok(Some(Excuse::Bag));
    }
    let Some(token) = token_of(signed_data) else {
        return Ok(None);
    };
    let Some(first) = first_of_stamping(&token) else {
        return Ok(None);
    };
    expect_linked(alloc, &token, &first, scheme)?;
    expect_listed_token(&token, policy)?;
    Ok(Some(Excuse::Token))
}

/// Whether some certificate of signed data has the extended key usage time stamping (RFC 5280
/// 4.2.1.12).
fn names_time_stamping(signed_data: &SignedView<'_>) -> bool
    ensures { (bag : List CertificateElements) → IsBagOf (data_elements signed_data.now) bag
        → IsTrue result ↔ NamesTimeStamping bag }
{
    let mut bag = certificate_bag(signed_data);
    bag.next_wanted(Wanted::Purpose(KP_TIME_STAMPING)).is_some()
}

/// The first certificate of a token, if some certificate of it has the extended key usage time
/// stamping (RFC 5280 4.2.1.12). It doesn't allocate.
pub fn first_of_stamping<'a>(token: &SignedView<'a>) -> Option<BagCertificate<'a>>
    ensures { MatchOption result
        ((bag : List CertificateElements) → IsForStamping (data_elements token.now) bag → ⊥)
        (λ first. LeadsStamping (data_elements token.now) (view_elements first.certificate)) }
{
    if !names_time_stamping(token) {
        return None;
    }
    decide_bag(token);
    certificate_bag(token).next()
}

/// Checks that the first certificate of a token is linked to the others with another subject.
fn expect_linked<S: Scheme>(
    alloc: Global,
    token: &SignedView<'_>,
    first: &BagCertificate<'_>,
    scheme: &S,
) -> Result<(), AuthenticodeError>
    ensures { (bag : List CertificateElements) → IsBagOf (data_elements token.now) bag
        → StandsAt bag 0 (view_elements first.now.certificate)
        → MatchResult result (λ _. IsLinkedToken (S.judge scheme.now) bag)
        (OrMemory errors.Memory (IsUnlinkedStamp (S.judge scheme.now) bag)) }
{
    let first = kept(alloc, first)?;
    match expect_linked_token(alloc, token, &first, scheme) {
        Ok(()) => Ok(()),
        Err(cause) => match &cause {
            CertError::Memory => Err(AuthenticodeError::Memory),
            _ => Err(AuthenticodeError::InvalidTimestampCert(cause)),
        },
    }
}

/// If the policy has a list, the CA of the certificates of a token is on it. It doesn't allocate.
fn expect_listed_token(token: &SignedView<'_>, policy: &Policy<'_>) -> Result<(), AuthenticodeError>
    requires { (bag : List CertificateElements) × IsForStamping (data_elements token.now) bag }
    ensures { (bag : List CertificateElements) → IsBagOf (data_elements token.now) bag
        → MatchResult result (λ _. IsListedToken policy.entry.now bag) (IsUnlistedStamp policy.entry.now bag) }
{
    let Some(list) = policy.list else {
        return Ok(());
    };
    let Some(name) = authority_name(Source::Bag(certificate_bag(token))) else {
        unreachable!();
    };
    expect_on_list(list, name, policy.now)
}
