//! The line for a built signature.

use crate::line::print_signature_octets;
use crate::settings::{Setting, settings_of};
use crate::words::key_of;
use anyhow::{Result, bail};
use authenticode_signature::{AuthenticodeSignatureBuilder, AuthenticodeSignatureBuilderError};
use key_core::PrivateKey;
use sig_core::Scheme;
use std::alloc::{AllocError, Global};

/// Prints the signature built with a private key and settings.
pub fn print_built<S: Scheme>(
    alloc: Global,
    words: &str,
    scheme: &S,
    line: &mut String,
) -> Result<()> {
    let words: Vec<&str> = words.split(' ').collect(alloc)?;
    let [key, settings @ ..] = words.as_slice() else {
        bail!("a key is given");
    };
    print_asked(alloc, key, settings, scheme, line)
}

fn print_asked<S: Scheme>(
    alloc: Global,
    key: &str,
    settings: &[&str],
    scheme: &S,
    line: &mut String,
) -> Result<()> {
    let settings = settings_of(alloc, settings)?;
    let key = key_of(alloc, key)?;
    print_by(alloc, &key, settings, scheme, line)
}

fn print_by<S: Scheme>(
    alloc: Global,
    key: &PrivateKey,
    settings: Vec<Setting>,
    scheme: &S,
    line: &mut String,
) -> Result<()> {
    let builder = builder_of(settings, key);
    print_signature(alloc, builder, scheme, line)
}

/// A builder with these settings, applied from the last of the list to the first.
fn builder_of(mut settings: Vec<Setting>, key: &PrivateKey) -> AuthenticodeSignatureBuilder<'_> {
    let mut builder = empty(key);
    for _ in 0..settings.len() {
        builder = with(builder, settings.pop(), key);
    }
    builder
}

/// An empty builder that may borrow the key.
fn empty(_key: &PrivateKey) -> AuthenticodeSignatureBuilder<'_> {
    AuthenticodeSignatureBuilder::new()
}

/// The builder with the settings, if any.
fn with<'a>(
    builder: AuthenticodeSignatureBuilder<'a>,
    setting: Option<Setting>,
    key: &'a PrivateKey,
) -> AuthenticodeSignatureBuilder<'a> {
    match setting {
        Some(setting) => setting.set(builder, key),
        None => builder,
    }
}

/// Prints the encoding of the signature, or why it isn't built.
fn print_signature<S: Scheme>(
    alloc: Global,
    builder: AuthenticodeSignatureBuilder<'_>,
    scheme: &S,
    line: &mut String,
) -> Result<()> {
    match &builder.build(alloc, scheme) {
        Ok(signature) => print_signature_octets(alloc, "built ", signature, line),
        Err(AuthenticodeSignatureBuilderError::Memory) => Err(AllocError.into()),
        Err(error) => Ok(write!(line, "refused {error}")?),
    }
}
