//! The line for the made signature of a program.

use crate::line::{print_refused, print_signature_octets};
use crate::words::{key_of, signed_data_of, variant_of};
use anyhow::{Result, bail};
use authenticode_signature::{AuthenticodeSignature, Pkcs7};
use key_core::PrivateKey;
use sig_core::{Scheme, ShaVariant};
use std::alloc::Global;
use xgolden::{octets_of, text_of};

/// What is signed: the digest of a file with its algorithm, and the name of the program, if any.
#[derive(Clone, Copy)]
struct Program<'a> {
    digest: ShaVariant,
    hash: &'a [u8],
    name: Option<&'a str>,
}

/// Prints the signature made with a private key, signed data with the certificates, the name of a
/// digest algorithm, a digest, and the name of the program, if any.
pub fn print_made<S: Scheme>(
    alloc: Global,
    words: &str,
    scheme: &S,
    line: &mut String,
) -> Result<()> {
    let words: Vec<&str> = words.split(' ').collect(alloc)?;
    match words.as_slice() {
        [key, certificates, digest, hash] => {
            print_of(
                alloc,
                (key, certificates),
                (digest, hash),
                None,
                scheme,
                line,
            )
        }
        [key, certificates, digest, hash, name] => {
            let name = octets_of(alloc, name)?;
            let name = Some(text_of(&name)?);
            print_of(
                alloc,
                (key, certificates),
                (digest, hash),
                name,
                scheme,
                line,
            )
        }
        _ => bail!("a key, certificates, an algorithm and a digest are given"),
    }
}

fn print_of<S: Scheme>(
    alloc: Global,
    signer: (&str, &str),
    (digest, hash): (&str, &str),
    name: Option<&str>,
    scheme: &S,
    line: &mut String,
) -> Result<()> {
    let hash = octets_of(alloc, hash)?;
    let program = Program {
        digest: variant_of(digest)?,
        hash: &hash,
        name,
    };
    print_signed(alloc, signer, &program, scheme, line)
}

fn print_signed<S: Scheme>(
    alloc: Global,
    (key, certificates): (&str, &str),
    program: &Program<'_>,
    scheme: &S,
    line: &mut String,
) -> Result<()> {
    let signed = signed_data_of(alloc, certificates)?;
    print_by(alloc, &signed, key, program, scheme, line)
}

fn print_by<S: Scheme>(
    alloc: Global,
    signed: &Pkcs7,
    key: &str,
    program: &Program<'_>,
    scheme: &S,
    line: &mut String,
) -> Result<()> {
    let key = key_of(alloc, key)?;
    print_signature(alloc, signed, &key, program, scheme, line)
}

/// Prints the encoding of the signature, or why it isn't made.
fn print_signature<S: Scheme>(
    alloc: Global,
    signed: &Pkcs7,
    key: &PrivateKey,
    program: &Program<'_>,
    scheme: &S,
    line: &mut String,
) -> Result<()> {
    let (hash, digest, name) = (program.hash, program.digest, program.name);
    match AuthenticodeSignature::new(alloc, signed, hash, digest, key, name, scheme) {
        Ok(signature) => print_signature_octets(alloc, "made ", &signature, line),
        Err(error) => Ok(print_refused(&error, line)?),
    }
}
