//! Whether the CA of the signer is on the trust list of a policy, or excluded, step by step.

ghost use Rattle.std.specs.Prelude.{◌≡◌, ◌↔◌, ℕ, IfOk, IfSome, IsTrue, MatchResult};
ghost use Rattle.cms_types.specs.SignedView.{data_elements};
ghost use Rattle.der_core.specs.DerElement.{DerElement};
ghost use Rattle.der_core.specs.Encoding.{encoding};
ghost use Rattle.der_core.specs.Rules.{IsFirstBroken, OrMemory};
ghost use Rattle.name_types.specs.Name.{name};
ghost use Rattle.names_core.specs.Names.{sets_of};
ghost use Rattle.x509_types.specs.CertificateView.{view_elements};
ghost use Rattle.authenticode_core.specs.Inside.Form.{AreSpelled};
ghost use Rattle.authenticode_core.specs.Inside.PolicySteps.{IsListedAt};
ghost use Rattle.authenticode_core.specs.Inside.SigningSteps.{HasSigner, HasSignerAt};
ghost use Rattle.authenticode_core.specs.ListRules.{HasName, HasUntrustedCa, IsExcluded, IsNamed, IsSignerCa, IsTrustedCaOf, ca_rules};
ghost use Rattle.authenticode_core.specs.SigningRules.{RefusesAuthenticodeBy};
ghost use Rattle.authenticode_core.specs.declared.error.AuthenticodeError.TheVariants as errors;

use crate::authority::authority_name;
use crate::bag::certificates::issuer_walk_of;
use crate::bag::others::Source;
use crate::ctl::expect_on_list;
use crate::error::AuthenticodeError;
use crate::policy::Policy;
use crate::signer::{expect_first, expect_named};
use cms_types::SignedView;
use der_core::Structure;
use names_core::DirectoryName;
use std::alloc::{AllocError, Global};
use x509_types::CertView;

/// Checks the CA of the first signer against the list of a policy, and returns the index of the
/// certificate of this signer. The first of these that fails is returned: there is a signer; it is
/// named by issuer and serial number, and a certificate has them; if the policy has a list, the CA
/// of the issuer walk is on it, or excluded. The index of the certificate may be known.
pub(crate) fn expect_listed_signer(
    alloc: Global,
    signed_data: &SignedView<'_>,
    known: Option<usize>,
    policy: &Policy<'_>,
) -> Result<usize, AuthenticodeError>
    requires spelled { AreSpelled (data_elements signed_data.now) }
    requires known { IfSome known (HasSignerAt (data_elements signed_data.now)) }
    ensures { MatchResult result (IsListedAt policy.entry.now (data_elements signed_data.now))
        (RefusesAuthenticodeBy (ca_rules policy.entry.now (data_elements signed_data.now))) }
{
    let first = expect_first(signed_data)?;
    let named = expect_named(alloc, signed_data, &first, known)?;
    expect_ca(alloc, signed_data, &named.certificate, policy)?;
    Ok(named.place)
}

/// If the policy has a list, the CA of the signer is on it, or excluded. The excluded names are
/// compared last, since that allocates.
fn expect_ca(
    alloc: Global,
    signed_data: &SignedView<'_>,
    signer: &CertView<'_>,
    policy: &Policy<'_>,
) -> Result<(), AuthenticodeError>
    requires { (place : ℕ) × HasSigner (data_elements signed_data.now) place
        (view_elements signer.now) }
    ensures { MatchResult result (λ _. IsTrustedCaOf policy.entry.now (data_elements signed_data.now))
        (OrMemory errors.Memory (HasUntrustedCa policy.entry.now (data_elements signed_data.now))) }
{
    let Some(list) = policy.list else {
        return Ok(());
    };
    let ca = signer_ca(signed_data, signer);
    match expect_on_list(list, ca, policy.now) {
        Ok(()) => Ok(()),
        Err(error) => expect_excluded(alloc, ca, policy, error),
    }
}

/// The name of the CA of the signer, as octets. It doesn't allocate.
fn signer_ca<'a>(signed_data: &SignedView<'a>, signer: &CertView<'a>) -> &'a [u8]
    requires { (place : ℕ) × HasSigner (data_elements signed_data.now) place
        (view_elements signer.now) }
    ensures { (ca : DerElement) × IsSignerCa (data_elements signed_data.now) ca
        × (result.now ≡ encoding ca) }
{
    match authority_name(Source::Walk(issuer_walk_of(signed_data, signer))) {
        Some(name) => name,
        None => unreachable!(),
    }
}

/// The name of a CA, given as octets, is an excluded one; else this error is returned.
fn expect_excluded(
    alloc: Global,
    name: &[u8],
    policy: &Policy<'_>,
    error: AuthenticodeError,
) -> Result<(), AuthenticodeError>
    ensures { (ca : DerElement) → name.now ≡ encoding ca
        → MatchResult result (λ _. IsExcluded policy.entry.now ca)
        (OrMemory errors.Memory (λ e. (e ≡ error) × (IsExcluded policy.entry.now ca → ⊥))) }
{
    if policy.exclude && has_name(alloc, policy.excluded.as_slice(), name)? {
        return Ok(());
    }
    Err(error)
}

/// Whether one of the names is this one, given as octets. They are known to encode a name, so that
/// reading them fails only if memory runs out. They aren't read if there is no name to compare.
fn has_name(alloc: Global, names: &[DirectoryName], name: &[u8]) -> Result<bool, AllocError>
    ensures { (element : DerElement) → name.now ≡ encoding element
        → IfOk result (λ has. IsTrue has ↔ HasName names.now element) }
{
    if names.is_empty() {
        return Ok(false);
    }
    let Ok(read) = DirectoryName::from_der(alloc, name) else {
        return Err(AllocError);
    };
    Ok(is_among(names, &read))
}

/// Whether one of the names is this one.
fn is_among(names: &[DirectoryName], asked: &DirectoryName) -> bool
    ensures { IsTrue result ↔ HasName names.now (name (sets_of asked.now)) }
{
    for one in names {
        if is_named(one, asked) {
            return true;
        }
    }
    false
}

/// Whether a name is this one.
fn is_named(one: &DirectoryName, asked: &DirectoryName) -> bool
    ensures { IsTrue result ↔ IsNamed (name (sets_of asked.now)) one.now }
{
    *one == *asked
}
