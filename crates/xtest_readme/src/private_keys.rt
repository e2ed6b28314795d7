//! Private keys as values.

use der_core::{DerError, Structure};
use key_types::RsaPrivateKey;
use std::alloc::Global;
use std::test::Fail;

/// The modulus of an RSA private key in octets of PKCS #1, big-endian, without a sign's zero.
fn modulus(alloc: Global, octets: &[u8]) -> Result<Vec<u8>, DerError> {
    let key = RsaPrivateKey::from_der(alloc, octets)?;
    Ok(Vec::from_slice(alloc, key.n.as_unsigned_bytes_be())?)
}

#[test]
fn a_modulus(rt: HostRuntime) -> Result<(), Fail> {
    let octets = hex::decode(rt.alloc(), KEY)?;
    let wanted = hex::decode(rt.alloc(), MODULUS)?;
    assert_eq!(rt; modulus(rt.alloc(), &octets)?.as_slice(), wanted.as_slice());
    Ok(())
}

/// A key of 512 bits that OpenSSL made.
#[rattlefmt::skip]
const KEY: &str = "3082013b020100024100bcf1c1e6dfaa6c892c82209f2aa3590c66c5e8a13566e35acd5c6da9f2aeea32dd1f918f062331907c950e0c155686267cd98815bd1dd042551ba44b97e2af310203010001024100b6d45904c6b96a7cf20c98f46b95d4bd2355ae5d100797486e1f5a1e712ec07efdb65dde6ca7a5f98a50610d1c1820846e4178c036fede69be20831a2a1e8761022100dfd50df5df6fbbbd6100476552b9ed4d33513e1ef1115846ab4f59cc14c46003022100d819273f967b1027fa1db9636ff2ce261f0a814f726f44c2def22aef74f02fbb022100debf046491957ccc6ab2bf5a2ae8522a088ea9f65aca7b01e0cb57be8b501d8702204f7c610d68a2777cdce91609d761ae262380cfb3935a0e26c7aeb7d04069208502204406b4b102b6c0d23ba088ea62a03b47ea120a8511358fc6dcb4dd9d4ed8f325";

/// Its modulus, as OpenSSL prints it.
#[rattlefmt::skip]
const MODULUS: &str = "bcf1c1e6dfaa6c892c82209f2aa3590c66c5e8a13566e35acd5c6da9f2aeea32dd1f918f062331907c950e0c155686267cd98815bd1dd042551ba44b97e2af31";
