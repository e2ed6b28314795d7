//! Basic validation: the form of the signed data, the digest of the file, and the signature.

ghost use Rattle.std.specs.Prelude.{◌≡◌, Err, MatchResult};
ghost use Rattle.cms_types.specs.SignedView.{data_elements};
ghost use Rattle.der_core.specs.Rules.{IsFirstBroken, OrMemory};
ghost use Rattle.authenticode_core.specs.Basic.{IsRefusedPart, VouchesFor};
ghost use Rattle.authenticode_core.specs.Inside.Form.{AreSpelled, IsFormOf};
ghost use Rattle.authenticode_core.specs.Inside.PolicySteps.{IsVouchedAt};
ghost use Rattle.authenticode_core.specs.SigningRules.{RefusesAuthenticodeBy};
ghost use Rattle.authenticode_core.specs.Trusted.{basic_rules, shape_rules};

use crate::error::AuthenticodeError;
use crate::form::{Form, expect_form};
use crate::policy::Policy;
use crate::signature::expect_signed;
use cms_types::SignedView;
use der_core::{Octets, is_same};
use sig_core::Scheme;
use std::alloc::Global;

/// Checks that signed data vouches for the policy's digest of the file, and returns the index of
/// the signer's certificate. The first of these that fails is returned: its form; a digest is
/// given; it is that in the content; the signature of its one signer is good by the scheme
/// (`expect_signed`).
pub(crate) fn expect_basic<S: Scheme>(
    alloc: Global,
    signed_data: &SignedView<'_>,
    policy: &Policy<'_>,
    scheme: &S,
) -> Result<usize, AuthenticodeError>
    requires { AreSpelled (data_elements signed_data.now) }
    ensures answer { MatchResult result
        (IsVouchedAt (S.judge scheme.now) policy.entry.now.file_hash (data_elements signed_data.now))
        (RefusesAuthenticodeBy (basic_rules (S.judge scheme.now) (data_elements signed_data.now)
        policy.entry.now.file_hash)) }
    // A refusal of the form comes however much memory there is, and so does that of a missing
    // digest.
    ensures shape { (e : AuthenticodeError)
        → IsFirstBroken (shape_rules (data_elements signed_data.now) policy.entry.now.file_hash) e
        → result ≡ Err e }
{
    let form = expect_form(signed_data)?;
    let Some(file_hash) = &policy.file_hash else {
        return Err(AuthenticodeError::MissingExpectedFileHash);
    };
    expect_vouched(alloc, signed_data, &form, file_hash.as_slice(), scheme)
}

/// Checks that signed data of the form vouches for the digest of the file, and returns the index of
/// the signer's certificate.
fn expect_vouched<'a, S: Scheme>(
    alloc: Global,
    signed_data: &SignedView<'a>,
    form: &Form<'a>,
    file_hash: &[u8],
    scheme: &S,
) -> Result<usize, AuthenticodeError>
    requires { IsFormOf (data_elements signed_data.now) form.now }
    ensures { MatchResult result
        (VouchesFor (S.judge scheme.now) (data_elements signed_data.now) file_hash.now)
        (OrMemory AuthenticodeError.Memory
        (IsRefusedPart (S.judge scheme.now) (data_elements signed_data.now) file_hash.now)) }
{
    if !is_same(form.content.digest, file_hash) {
        return Err(file_mismatch(alloc, form.content.digest, file_hash));
    }
    expect_signed(alloc, signed_data, &form.signer, form.content.elem, scheme)
}

/// The error that the digest of the file isn't the expected one.
fn file_mismatch(alloc: Global, actual: &[u8], expected: &[u8]) -> AuthenticodeError
    ensures { OrMemory AuthenticodeError.Memory
        (λ e. e ≡ AuthenticodeError.FileHashMismatch actual.now expected.now) result }
{
    let Ok(actual) = Octets::from_slice(alloc, actual) else {
        return AuthenticodeError::Memory;
    };
    let Ok(expected) = Octets::from_slice(alloc, expected) else {
        return AuthenticodeError::Memory;
    };
    AuthenticodeError::FileHashMismatch { actual, expected }
}
