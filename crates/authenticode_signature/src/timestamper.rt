//! Sources of timestamps.

ghost use Rattle.std.specs.Prelude.{◌≡◌, ℕ, Ok, Err, IfOk, OnOk, OnErr, IfErr, Result};
ghost use Rattle.der_core.specs.Rules.{OrMemory};
ghost use Rattle.der_core.specs.Counts.{GoesOn, HasRisen};
ghost use Rattle.cms_types.specs.declared.signed_data.SignedData.{SignedData};
ghost use Rattle.authenticode_core.specs.declared.timestamp_error.TimestampError.{TimestampError};
ghost use Rattle.authenticode_core.specs.declared.timestamp_error.TimestampError.TheVariants as errors;
ghost use Rattle.authenticode_signature.specs.Timestamper.{GiveAlike, Giving, Modification, ModifyAlike};
ghost use Rattle.authenticode_signature.specs.declared.pkcs7.Pkcs7.{Pkcs7};

use crate::pkcs7::Pkcs7;
use authenticode_core::TimestampError;
use cms_types::SignedData;
use sig_core::HashAlgorithm;
use std::alloc::Global;

/// Issues timestamps, as signed data called tokens, and adds them to signed data.
pub trait Timestamper {
    // Which tokens it may issue for octets and a digest algorithm.
    ghost gives: { Self → Giving };

    // The outcome of its modification of signed data by a token.
    ghost modifies: { Self → Modification };

    // How often it has failed.
    ghost faults: { Self → ℕ };

    /// A token for these octets, unhashed: `AuthenticodeSignature::timestamp` passes those of the
    /// first signer's signature. It fails when out of memory, and otherwise only if the fault count
    /// rose in this call or is at its maximum.
    fn timestamp(
        &mut self,
        alloc: Global,
        digest: &[u8],
        hash_algo: HashAlgorithm,
    ) -> Result<Pkcs7, TimestampError>
        ensures given { IfOk result (λ token. gives self.old digest.now hash_algo token) }
        ensures cause { IfErr result
            (OrMemory errors.Memory (λ _. HasRisen (faults self.old) (faults self.new))) }
        ensures counted { GoesOn (faults self.old) (faults self.new) }
        ensures same_tokens { GiveAlike (gives self.old) (gives self.new) }
        ensures same_modification { ModifyAlike (modifies self.old) (modifies self.new) };

    /// Adds the token to the signed data. It fails when out of memory, and otherwise exactly with
    /// the error that this modification has; then nothing is changed.
    fn modify_signed_data(
        &self,
        token: Pkcs7,
        signed_data: &mut SignedData,
    ) -> Result<(), TimestampError>
        ensures modified { OnOk result
            (modifies self.now token signed_data.old (Ok signed_data.new)) }
        ensures refused { IfErr result
            (OrMemory errors.Memory (λ e. modifies self.now token signed_data.old (Err e))) }
        ensures unchanged { OnErr result (signed_data.new ≡ signed_data.old) };

    // A modification with an error has no other outcome.
    ghost one_outcome: { (timestamper : Self) (token : Pkcs7) (before : SignedData)
        (e : TimestampError) (outcome : Result SignedData TimestampError)
        → modifies timestamper token before (Err e) → modifies timestamper token before outcome
        → outcome ≡ Err e };
}
