//! Whether a signature file is trusted under a policy: its certificate is signed data, then basic
//! validation, then the signer's certificate, then its CA, each of these three if it is checked.

ghost use Rattle.std.specs.Prelude.{◌≡◌, Err, IfSome, Result, MatchResult};
ghost use Rattle.cms_types.specs.SignedView.{data_elements, IsSignedView};
ghost use Rattle.der_core.specs.DerElement.{DerElement};
ghost use Rattle.der_core.specs.Rules.{AreOneUnlessMemory, IsFirstBroken};
ghost use Rattle.authenticode_core.specs.Inside.Form.{AreSpelled};
ghost use Rattle.authenticode_core.specs.Inside.PolicySteps.{IsPlaceAsked, IsSignerAsked};
ghost use Rattle.authenticode_core.specs.Inside.SigningSteps.{HasSignerAt};
ghost use Rattle.authenticode_core.specs.SignerRules.{signer_rules};
ghost use Rattle.authenticode_core.specs.SigningRules.{RefusesAuthenticodeBy};
ghost use Rattle.authenticode_core.specs.Trusted.{IsAnswer, IsTrusted, RefusesForm, asked, basic_rules, policy_rules, shape_rules};
ghost use Rattle.authenticode_core.specs.declared.accepted.Accepted.{Accepted};
ghost use Rattle.authenticode_core.specs.declared.error.CheckError.{CheckError};

use crate::accepted::{Accepted, Excuse};
use crate::basic::expect_basic;
use crate::error::{AuthenticodeError, CheckError};
use crate::listing::expect_listed_signer;
use crate::policy::Policy;
use crate::signer::expect_signer;
use crate::value::read_signed_data;
use cms_types::SignedView;
use der_core::one_first_fault;
use sig_core::Scheme;
use std::alloc::Global;
use x509_core::Places;

/// Checks the signature in a WIN_CERTIFICATE under a policy (Windows Authenticode Portable
/// Executable Signature Format): that its certificate is signed data, then the steps of
/// `check_signed_data`. The first rule that fails is returned.
pub fn check_wincert<S: Scheme>(
    alloc: Global,
    bytes: &[u8],
    policy: &Policy<'_>,
    scheme: &S,
) -> Result<Accepted, CheckError>
    ensures answer { IsAnswer (S.judge scheme.now) policy.entry.now bytes.now result }
    // A refusal of the header, of what the certificate is, of the form or for a missing digest
    // comes however much memory there is.
    ensures refused { (e : CheckError) → RefusesForm policy.entry.now bytes.now e → result ≡ Err e }
    // No other result has its cause, out of memory aside.
    ensures only { (other : Result Accepted CheckError)
        → IsAnswer (S.judge scheme.now) policy.entry.now bytes.now other
        → AreOneUnlessMemory CheckError.Memory result other }
{
    // a law that the proof uses; the call does nothing
    one_first_fault();
    let signed_data = read_signed_data(bytes)?;
    let accepted = check_signed_data(alloc, &signed_data, policy, scheme)?;
    Ok(accepted)
}

/// Checks signed data under a policy: under basic validation, its form, the digest of the file and
/// the signature of its signer; then, if that is checked, the certificate of its first signer; then,
/// if that is checked, whether the CA of this certificate is on the trust list of the policy. The
/// first rule that fails is returned. The signed data must be what `SignedView::read` returned.
pub fn check_signed_data<S: Scheme>(
    alloc: Global,
    signed_data: &SignedView<'_>,
    policy: &Policy<'_>,
    scheme: &S,
) -> Result<Accepted, AuthenticodeError>
    requires { (element : DerElement) × IsSignedView element signed_data.now }
    ensures answer { MatchResult result
        (IsTrusted (S.judge scheme.now) policy.entry.now (data_elements signed_data.now))
        (RefusesAuthenticodeBy
        (policy_rules (S.judge scheme.now) policy.entry.now (data_elements signed_data.now))) }
    // A refusal of the form comes however much memory there is, and so does that of a missing
    // digest.
    ensures shape { (e : AuthenticodeError)
        → IsFirstBroken
        (asked policy.entry.now.basic
        (shape_rules (data_elements signed_data.now) policy.entry.now.file_hash)) e
        → result ≡ Err e }
{
    let known = basic_place(alloc, signed_data, policy, scheme)?;
    let accepted = asked_signer(alloc, signed_data, known, policy, scheme)?;
    if !policy.against_list {
        return Ok(accepted);
    }
    let place = expect_listed_signer(alloc, signed_data, accepted.signer, policy)?;
    Ok(accepted.at(place))
}

/// The result for the signer's certificate, if it is checked; else its index, if that is known.
fn asked_signer<S: Scheme>(
    alloc: Global,
    signed_data: &SignedView<'_>,
    known: Option<usize>,
    policy: &Policy<'_>,
    scheme: &S,
) -> Result<Accepted, AuthenticodeError>
    requires spelled { AreSpelled (data_elements signed_data.now) }
    requires known { IfSome known (HasSignerAt (data_elements signed_data.now)) }
    ensures { MatchResult result
        (IsSignerAsked policy.entry.now.signing (S.judge scheme.now) policy.entry.now
        (data_elements signed_data.now) known)
        (RefusesAuthenticodeBy (asked policy.entry.now.signing
        (signer_rules (S.judge scheme.now) policy.entry.now (data_elements signed_data.now)))) }
{
    if policy.signing {
        return expect_signer(alloc, signed_data, known, policy, scheme);
    }
    Ok(Accepted {
        signer: known,
        path: Places::new(alloc),
        excuse: Excuse::None,
    })
}

/// Basic validation, if it is checked: the index of the signer's certificate.
fn basic_place<S: Scheme>(
    alloc: Global,
    signed_data: &SignedView<'_>,
    policy: &Policy<'_>,
    scheme: &S,
) -> Result<Option<usize>, AuthenticodeError>
    requires { AreSpelled (data_elements signed_data.now) }
    ensures answer { MatchResult result
        (IsPlaceAsked policy.entry.now.basic (S.judge scheme.now) policy.entry.now.file_hash
        (data_elements signed_data.now))
        (RefusesAuthenticodeBy (asked policy.entry.now.basic (basic_rules (S.judge scheme.now)
        (data_elements signed_data.now) policy.entry.now.file_hash))) }
    ensures shape { (e : AuthenticodeError)
        → IsFirstBroken
        (asked policy.entry.now.basic
        (shape_rules (data_elements signed_data.now) policy.entry.now.file_hash)) e
        → result ≡ Err e }
{
    if !policy.basic {
        return Ok(None);
    }
    let place = expect_basic(alloc, signed_data, policy, scheme)?;
    Ok(Some(place))
}
