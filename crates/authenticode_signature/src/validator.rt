//! Validating owned signatures.

ghost use Rattle.std.specs.Prelude.{◌≡◌, true, false, Err, OnErr, OnOk, Result, MatchResult};
ghost use Rattle.der_core.specs.Owned.{IsKept};
ghost use Rattle.der_core.specs.Rules.{AreOneUnlessMemory, IsFirstBroken};
ghost use Rattle.x509_core.specs.declared.window.DateCheck.TheVariants as dates;
ghost use Rattle.authenticode_core.specs.Policy.{first_policy};
ghost use Rattle.authenticode_core.specs.SigningRules.{RefusesAuthenticodeBy};
ghost use Rattle.authenticode_core.specs.Trusted.{IsTrusted, asked, policy_rules, shape_rules};
ghost use Rattle.authenticode_core.specs.declared.accepted.Accepted.{Accepted};
ghost use Rattle.authenticode_core.specs.declared.error.AuthenticodeError.{AuthenticodeError};
ghost use Rattle.authenticode_signature.specs.Pkcs7.{fields_of, written};
ghost use Rattle.authenticode_signature.specs.Validator.{IsVerdict, at_dates, with_basic, policy_with_chain, policy_with_not_after, policy_with_not_before, with_excluded, with_list, with_list_check, with_signing, without_basic, without_excluded};
ghost use Rattle.authenticode_signature.specs.declared.pkcs7.Pkcs7.{Pkcs7};

use crate::signature::AuthenticodeSignature;
use crate::token_timestamper::with_copies;
use authenticode_core::{
    Accepted, AuthenticodeError, CertificateTrustList, DateCheck, Policy, check_signed_data,
};
use cms_types::SignedView;
use der_core::{Octets, Structure, whole_element};
use names_core::{DirectoryName, NameList, UtcDate};
use sig_core::Scheme;
use std::alloc::{AllocError, Global};

/// Validates an owned signature. Of the setters of one kind the last call counts.
#[derive(Drop)]
pub struct AuthenticodeValidator<'a> {
    signature: &'a AuthenticodeSignature,
    policy: Policy<'a>,
}

impl AuthenticodeSignature {
    /// A validator with all checks, without a digest of the file, a date or a trust list yet, and
    /// without excluded names. It doesn't allocate.
    pub fn authenticode_verifier(&self, alloc: Global) -> AuthenticodeValidator<'_>
        ensures policy { result.policy ≡ first_policy }
        ensures signature { result.signature.now ≡ self.now }
    {
        AuthenticodeValidator {
            signature: self,
            policy: Policy::new(alloc),
        }
    }
}

impl<'a> AuthenticodeValidator<'a> {
    /// The date at which certificates must be valid. It replaces an interval.
    pub fn exact_date(self, exact: UtcDate) -> Self
        ensures policy { result.policy ≡ at_dates (dates.Exact exact) self.entry.policy }
        ensures signature { result.signature.now ≡ self.entry.signature.now }
    {
        self.at(DateCheck::Exact(exact))
    }

    /// The interval: certificates must be valid already at its upper end and still at its lower
    /// one. It replaces a date.
    pub fn interval_date(self, lower: UtcDate, upper: UtcDate) -> Self
        ensures policy { result.policy ≡ at_dates (dates.Interval lower upper) self.entry.policy }
        ensures signature { result.signature.now ≡ self.entry.signature.now }
    {
        self.at(DateCheck::Interval { lower, upper })
    }

    /// The date or interval for which certificates must be valid.
    fn at(self, date: DateCheck) -> Self
        ensures policy { result.policy ≡ at_dates date self.entry.policy }
        ensures signature { result.signature.now ≡ self.entry.signature.now }
    {
        let AuthenticodeValidator {
            signature,
            mut policy,
        } = self;
        policy.date = date;
        AuthenticodeValidator { signature, policy }
    }

    /// Certificates must have begun to be valid.
    pub fn require_not_before_check(mut self) -> Self
        ensures policy { result.policy ≡ policy_with_not_before true self.entry.policy }
        ensures signature { result.signature.now ≡ self.entry.signature.now }
    {
        self.policy.not_before = true;
        self
    }

    /// Certificates may become valid later.
    pub fn ignore_not_before_check(mut self) -> Self
        ensures policy { result.policy ≡ policy_with_not_before false self.entry.policy }
        ensures signature { result.signature.now ≡ self.entry.signature.now }
    {
        self.policy.not_before = false;
        self
    }

    /// Certificates must not have expired.
    pub fn require_not_after_check(mut self) -> Self
        ensures policy { result.policy ≡ policy_with_not_after true self.entry.policy }
        ensures signature { result.signature.now ≡ self.entry.signature.now }
    {
        self.policy.not_after = true;
        self
    }

    /// Certificates may have expired.
    pub fn ignore_not_after_check(mut self) -> Self
        ensures policy { result.policy ≡ policy_with_not_after false self.entry.policy }
        ensures signature { result.signature.now ≡ self.entry.signature.now }
    {
        self.policy.not_after = false;
        self
    }

    /// The signer's certificate must be linked to those of its issuers.
    pub fn require_chain_check(mut self) -> Self
        ensures policy { result.policy ≡ policy_with_chain true self.entry.policy }
        ensures signature { result.signature.now ≡ self.entry.signature.now }
    {
        self.policy.chain = true;
        self
    }

    /// The signer's certificate needn't be linked to those of its issuers.
    pub fn ignore_chain_check(mut self) -> Self
        ensures policy { result.policy ≡ policy_with_chain false self.entry.policy }
        ensures signature { result.signature.now ≡ self.entry.signature.now }
    {
        self.policy.chain = false;
        self
    }

    /// The signer's certificate is checked.
    pub fn require_signing_certificate_check(mut self) -> Self
        ensures policy { result.policy ≡ with_signing true self.entry.policy }
        ensures signature { result.signature.now ≡ self.entry.signature.now }
    {
        self.policy.signing = true;
        self
    }

    /// The signer's certificate isn't checked, except by basic validation: its key, and whether it
    /// may sign code.
    pub fn ignore_signing_certificate_check(mut self) -> Self
        ensures policy { result.policy ≡ with_signing false self.entry.policy }
        ensures signature { result.signature.now ≡ self.entry.signature.now }
    {
        self.policy.signing = false;
        self
    }

    /// The form, the digest of the file, which must be this, and the signature are checked.
    pub fn require_basic_authenticode_validation(self, file_hash: Octets) -> Self
        ensures policy { result.policy ≡ with_basic file_hash self.entry.policy }
        ensures signature { result.signature.now ≡ self.entry.signature.now }
    {
        let AuthenticodeValidator {
            signature,
            mut policy,
        } = self;
        policy.basic = true;
        policy.file_hash = Some(file_hash);
        AuthenticodeValidator { signature, policy }
    }

    /// Neither the form nor the digest of the file nor the signature is checked.
    pub fn ignore_basic_authenticode_validation(self) -> Self
        ensures policy { result.policy ≡ without_basic self.entry.policy }
        ensures signature { result.signature.now ≡ self.entry.signature.now }
    {
        let AuthenticodeValidator {
            signature,
            mut policy,
        } = self;
        policy.basic = false;
        policy.file_hash = None;
        AuthenticodeValidator { signature, policy }
    }

    /// The signer's CA must be on the trust list, if there is one, or excluded.
    pub fn require_ca_against_ctl_check(mut self) -> Self
        ensures policy { result.policy ≡ with_list_check true self.entry.policy }
        ensures signature { result.signature.now ≡ self.entry.signature.now }
    {
        self.policy.against_list = true;
        self
    }

    /// The signer's CA isn't checked. That of a token which excuses an expiry still must be on the
    /// trust list, if there is one.
    pub fn ignore_ca_against_ctl_check(mut self) -> Self
        ensures policy { result.policy ≡ with_list_check false self.entry.policy }
        ensures signature { result.signature.now ≡ self.entry.signature.now }
    {
        self.policy.against_list = false;
        self
    }

    /// The trust list, and the time at which CAs must be on it, in whole seconds since 1601-01-01,
    /// UTC.
    pub fn ctl(self, list: &'a CertificateTrustList, now: i64) -> Self
        ensures policy { result.policy ≡ with_list list.entry now self.entry.policy }
        ensures signature { result.signature.now ≡ self.entry.signature.now }
    {
        let AuthenticodeValidator {
            signature,
            mut policy,
        } = self;
        policy.list = Some(list);
        policy.now = now;
        AuthenticodeValidator { signature, policy }
    }

    /// The signer's CA needn't be on the trust list if it has one of these names, which are added to
    /// those from before. If memory runs out, nothing changes.
    pub fn exclude_cert_authorities(&mut self, names: &[DirectoryName]) -> Result<(), AllocError>
        ensures ok { OnOk result (self.new.policy ≡ with_excluded names.now self.old.policy) }
        ensures signature { self.new.signature.now ≡ self.old.signature.now }
        ensures err { OnErr result (self.new.policy ≡ self.old.policy) }
    {
        let alloc = self.policy.excluded.allocator();
        let excluded = self.policy.excluded.try_clone(alloc)?;
        self.policy.excluded = with_copies(alloc, excluded, names)?;
        self.policy.exclude = true;
        Ok(())
    }

    /// No names are excluded.
    pub fn ignore_excluded_cert_authorities(self) -> Self
        ensures policy { result.policy ≡ without_excluded self.entry.policy }
        ensures signature { result.signature.now ≡ self.entry.signature.now }
    {
        let AuthenticodeValidator {
            signature,
            mut policy,
        } = self;
        policy.exclude = false;
        policy.excluded = NameList::new(policy.excluded.allocator());
        AuthenticodeValidator { signature, policy }
    }

    /// Validates the signature as written: the result is that of `check_wincert` for its encoding
    /// in a WIN_CERTIFICATE. A value without an encoding is refused before any check, as
    /// `Asn1DerError` with the cause for which `der_core::write` refuses its element.
    pub fn verify<S: Scheme>(
        &self,
        alloc: Global,
        scheme: &S,
    ) -> Result<Accepted, AuthenticodeError>
        ensures answer { IsVerdict (S.judge scheme.now) self.now.policy
            (written self.now.signature.now.0) (fields_of self.now.signature.now.0) result }
        // No other result has its cause, out of memory aside.
        ensures only { (other : Result Accepted AuthenticodeError)
            → IsVerdict (S.judge scheme.now) self.now.policy (written self.now.signature.now.0)
            (fields_of self.now.signature.now.0) other
            → AreOneUnlessMemory AuthenticodeError.Memory result other }
    {
        let octets = self.signature.0.signed.to_der(alloc)?;
        check_octets(alloc, &octets, &self.policy, scheme)
    }
}

/// Checks the octets of signed data under a policy, in the order of `check_wincert`.
fn check_octets<S: Scheme>(
    alloc: Global,
    octets: &[u8],
    policy: &Policy<'_>,
    scheme: &S,
) -> Result<Accepted, AuthenticodeError>
    requires { (signed : Pkcs7) × IsKept octets.now (written signed) }
    ensures answer { (signed : Pkcs7) → IsKept octets.now (written signed)
        → MatchResult result
        (IsTrusted (S.judge scheme.now) policy.entry.now (fields_of signed))
        (RefusesAuthenticodeBy (policy_rules (S.judge scheme.now) policy.entry.now (fields_of signed))) }
    // A refusal of the form comes however much memory there is, and so does that of a missing
    // digest.
    ensures shape { (signed : Pkcs7) → IsKept octets.now (written signed) → (e : AuthenticodeError)
        → IsFirstBroken
        (asked policy.entry.now.basic (shape_rules (fields_of signed) policy.entry.now.file_hash)) e
        → result ≡ Err e }
{
    let Some(elem) = whole_element(octets) else {
        unreachable!();
    };
    let Some(signed_data) = SignedView::read(elem) else {
        unreachable!();
    };
    check_signed_data(alloc, &signed_data, policy, scheme)
}
