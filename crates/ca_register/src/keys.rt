//! The keys of a register's lines.

ghost use Rattle.std.specs.Prelude.{◌≡◌, IfErr, MatchResult, Ok};
ghost use Rattle.key_core.specs.Keys.{info_of};
ghost use Rattle.key_core.specs.PrivatePkcs1.{IsPrivatePkcs1};
ghost use Rattle.key_core.specs.declared.error.KeyError.TheVariants as key_errors;
ghost use Rattle.key_core.specs.declared.private_key.PrivateKey.{PrivateKey as Private};
ghost use Rattle.ca_register.specs.LineKeys.{AreLineKeys, key_secret};
ghost use Rattle.ca_register.specs.declared.error.IssueError.TheVariants as errors;

use crate::error::IssueError;
use key_core::{KeyError, PrivateKey, PublicKey};
use std::alloc::Global;

/// The length of a secret in octets.
const SECRET_LEN: usize = 29;

/// The private key with this number. Only out of memory is an error.
pub(crate) fn private_key_of(alloc: Global, number: u8) -> Result<PrivateKey, KeyError>
    ensures { MatchResult result (IsPrivatePkcs1 (key_secret number))
        (λ e. e ≡ key_errors.Memory) }
{
    PrivateKey::from_pkcs1(alloc, &secret_of(number))
}

/// The public key with this number. Only out of memory is an error.
pub(crate) fn public_key_of(alloc: Global, number: u8) -> Result<PublicKey, KeyError>
    ensures { MatchResult result
        (λ own. (private : Private) × AreLineKeys number private (info_of own))
        (λ e. e ≡ key_errors.Memory) }
{
    let private = private_key_of(alloc, number)?;
    private.to_public_key(alloc)
}

/// A key, of which only out of memory is an error.
pub(crate) fn key_or_memory<K: Drop>(key: Result<K, KeyError>) -> Result<K, IssueError>
    requires { IfErr key (λ e. e ≡ key_errors.Memory) }
    ensures { MatchResult result (λ found. key ≡ Ok found) (λ e. e ≡ errors.Memory) }
{
    match key {
        Ok(key) => Ok(key),
        Err(KeyError::Memory) => Err(IssueError::Memory),
        Err(_) => unreachable!(),
    }
}

/// The RSAPrivateKey with this number (RFC 8017 A.1.2): the version, the modulus, the exponents 3
/// and 5, the primes 7 and 11, the exponents 1 and 2, the coefficient 4.
fn secret_of(number: u8) -> [u8; SECRET_LEN]
    ensures { result ≡ key_secret number }
{
    [
        0x30, 27, 2, 1, 0, 2, 1, number, 2, 1, 3, 2, 1, 5, 2, 1, 7, 2, 1, 11, 2, 1, 1, 2, 1, 2, 2,
        1, 4,
    ]
}
