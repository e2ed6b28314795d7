//! Timestamping signatures.

ghost use Rattle.std.specs.Prelude.{◌≡◌, ◌≤◌, [], IfErr, OnErr, OnOk, Err, MatchOption};
ghost use Rattle.cms_types.specs.declared.signer_info.SignerInfo.{SignerInfo};
ghost use Rattle.authenticode_core.specs.declared.error.AuthenticodeError.TheVariants as errors;
ghost use Rattle.der_core.specs.Counts.{HasRisen};
ghost use Rattle.authenticode_signature.specs.Pkcs7.{signer_infos_of};
ghost use Rattle.authenticode_signature.specs.Stamping.{HasFirstSignature, IsLeftByStamp, RefusesStamp, of_timestamp};
ghost use Rattle.authenticode_signature.specs.Timestamper.{GiveAlike, ModifyAlike};

use crate::signature::AuthenticodeSignature;
use crate::timestamper::Timestamper;
use authenticode_core::{AuthenticodeError, TimestampError};
use cms_types::SignerInfo;
use sig_core::HashAlgorithm;
use std::alloc::Global;

impl AuthenticodeSignature {
    /// Timestamps the signature: the timestamper issues a token for the signature octets of the
    /// first signer, and adds it to the signed data. A refusal leaves the signature as it is.
    pub fn timestamp<T: Timestamper>(
        &mut self,
        alloc: Global,
        timestamper: &mut T,
        hash_algo: HashAlgorithm,
    ) -> Result<(), AuthenticodeError>
        ensures stamped { OnOk result
            (IsLeftByStamp (T.gives timestamper.old) (T.modifies timestamper.old) hash_algo
            self.old.0.signed.signed_data self.new.0.signed.signed_data) }
        ensures refused { IfErr result
            (RefusesStamp (T.gives timestamper.old) (T.modifies timestamper.old)
            (HasRisen (T.faults timestamper.old) (T.faults timestamper.new)) hash_algo
            self.old.0.signed.signed_data) }
        // A missing signer is reported, even when memory runs out, and no token is requested.
        ensures no_signer { signer_infos_of self.old.0 ≡ []
            → result ≡ Err (errors.MultipleSignerInfo 0) }
        ensures not_asked { signer_infos_of self.old.0 ≡ [] → timestamper.new ≡ timestamper.old }
        ensures unchanged { OnErr result (self.new ≡ self.old) }
        ensures counted { T.faults timestamper.old ≤ T.faults timestamper.new }
        ensures same_tokens { GiveAlike (T.gives timestamper.old) (T.gives timestamper.new) }
        ensures same_modification { ModifyAlike (T.modifies timestamper.old)
            (T.modifies timestamper.new) }
    {
        let Some(signature) = first_signature(self.0.signer_infos()) else {
            return Err(AuthenticodeError::MultipleSignerInfo { count: 0 });
        };
        let token = match timestamper.timestamp(alloc, signature, hash_algo) {
            Ok(token) => token,
            Err(error) => return Err(of_timestamp(error)),
        };
        match timestamper.modify_signed_data(token, &mut self.0.signed.signed_data) {
            Ok(()) => Ok(()),
            Err(error) => Err(of_timestamp(error)),
        }
    }
}

/// The signature octets of the first signer.
fn first_signature(signers: &[SignerInfo]) -> Option<&[u8]>
    ensures { MatchOption result (signers.now ≡ [])
        (λ octets. HasFirstSignature signers.now octets.now) }
{
    match signers.first() {
        Some(signer) => Some(signer.signature.as_slice()),
        None => None,
    }
}

/// An error of a timestamp as one of a signature.
fn of_timestamp(error: TimestampError) -> AuthenticodeError
    ensures { result ≡ of_timestamp error }
{
    match error {
        TimestampError::Memory => AuthenticodeError::Memory,
        error => AuthenticodeError::TimestampError(error),
    }
}
