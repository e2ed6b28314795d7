//! The private keys of a demonstration.

ghost use Rattle.std.specs.Prelude.{◌≡◌, MatchResult};
ghost use Rattle.key_core.specs.PrivatePkcs1.{IsPrivatePkcs1};
ghost use Rattle.key_core.specs.declared.error.KeyError.TheVariants as errors;
ghost use Rattle.demo_core.specs.Secrets.{step_secret};

use key_core::{KeyError, PrivateKey};
use std::alloc::Global;

/// The length of a secret in octets.
const SECRET_LEN: usize = 32;

/// The private key of the step of this index. Only out of memory is an error.
pub fn private_key_of(alloc: Global, index: u32) -> Result<PrivateKey, KeyError>
    ensures { MatchResult result (IsPrivatePkcs1 (step_secret index)) (λ e. e ≡ errors.Memory) }
{
    PrivateKey::from_pkcs1(alloc, &secret_of(index))
}

/// The RSAPrivateKey of the step (RFC 8017 A.1.2): the version, the modulus, the exponents 3 and 5,
/// the primes 7 and 11, the exponents 1 and 2, the coefficient 4.
fn secret_of(index: u32) -> [u8; SECRET_LEN]
    ensures { result ≡ step_secret index }
{
    let high = (index / 0x1_0000 % 0x100) as u8;
    let middle = (index / 0x100 % 0x100) as u8;
    let low = (index % 0x100) as u8;
    [
        0x30, 30, 2, 1, 0, 2, 4, 1, high, middle, low, 2, 1, 3, 2, 1, 5, 2, 1, 7, 2, 1, 11, 2, 1,
        1, 2, 1, 2, 2, 1, 4,
    ]
}
