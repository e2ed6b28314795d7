//! The signature over a message.

ghost use Rattle.std.specs.Prelude.{MatchResult};
ghost use Rattle.authenticode_parts.specs.SignedProgram.{IsSignature};
ghost use Rattle.key_core.specs.SignatureRules.{RefusesSignatureBy};
ghost use Rattle.key_core.specs.Signing.{arithmetic, sign_rules};
ghost use Rattle.key_core.specs.declared.signature_algorithm.SignatureAlgorithm.TheVariants.{RsaPkcs1v15};

use der_core::Octets;
use key_core::{PrivateKey, SignatureAlgorithm, SignatureError};
use sig_core::{HashAlgorithm, Scheme};
use std::alloc::Global;

/// The RSA signature of a message with the digest algorithm.
pub fn signature_of<S: Scheme>(
    alloc: Global,
    hash: HashAlgorithm,
    message: &[u8],
    private_key: &PrivateKey,
    scheme: &S,
) -> Result<Octets, SignatureError>
    ensures { MatchResult result
        (IsSignature (arithmetic (S.judge scheme.now) (S.signs scheme.now) (S.pair scheme.now))
        (RsaPkcs1v15 hash) private_key.now message.now)
        (RefusesSignatureBy
        (sign_rules (S.signs scheme.now) (RsaPkcs1v15 hash) private_key.now message.now)) }
{
    let algorithm = SignatureAlgorithm::RsaPkcs1v15(hash);
    match algorithm.sign(alloc, message, private_key, scheme) {
        Ok(signature) => Ok(Octets::from(signature)),
        Err(source) => Err(source),
    }
}
