//! Private keys that are read or made, under the demonstration scheme, and their public keys.

use asn1_types::ObjectIdentifier;
use der_core::DerError;
use key_core::{EcCurve, KeyError, KeyKind, PrivateKey};
use sig_core::{DemoScheme, Scheme, VerdictTable};
use std::alloc::Global;
use xgolden::{Args, Line, Unanswered, equals};

/// Why no key is read or made.
#[derive(Clone, Copy)]
pub enum NoKey {
    Refused(KeyError),
    Unanswered(Unanswered),
}

impl From<Unanswered> for NoKey {
    fn from(why: Unanswered) -> NoKey {
        NoKey::Unanswered(why)
    }
}

/// No call reads or makes a key from such words.
const NO_CALL: NoKey = NoKey::Unanswered(Unanswered::NoCall);

/// Prints what is read or made.
pub fn print(alloc: Global, call: &str, args: Args<'_>, line: &mut Line) {
    match key_of(alloc, call, args) {
        Ok(key) => print_key(alloc, &key, line),
        Err(why) => print_refusal(why, line),
    }
}

/// The text of the refusal.
pub fn print_refusal(why: NoKey, line: &mut Line) {
    match why {
        NoKey::Refused(error) => line.shown(&error),
        NoKey::Unanswered(why) => line.lose(why),
    }
}

/// The key that is read or made.
pub fn key_of(alloc: Global, call: &str, args: Args<'_>) -> Result<PrivateKey, NoKey> {
    match (call, args.octets) {
        ("pkcs8", [Some(octets)]) => made(PrivateKey::from_pkcs8(
            alloc,
            octets,
            &DemoScheme::new(),
        )),
        ("pkcs1", [Some(octets)]) => made(PrivateKey::from_pkcs1(alloc, octets)),
        ("sec1", [Some(octets)]) => made(PrivateKey::from_ec_der(
            alloc,
            octets,
            &DemoScheme::new(),
        )),
        (_, [Some(curve), Some(octets)]) => on_curve(alloc, call, curve, octets),
        (_, [Some(id), Some(secret), ..]) => of_parts(alloc, call, (id, secret), args),
        _ => Err(NO_CALL),
    }
}

fn made(key: Result<PrivateKey, KeyError>) -> Result<PrivateKey, NoKey> {
    match key {
        Ok(key) => Ok(key),
        Err(error) => Err(NoKey::Refused(error)),
    }
}

/// The SEC 1 key in octets on a given curve.
fn on_curve(alloc: Global, call: &str, curve: &[u8], octets: &[u8]) -> Result<PrivateKey, NoKey> {
    match call {
        "sec1_on" => {
            let curve = oid_of(alloc, curve)?;
            let scheme = DemoScheme::new();
            made(PrivateKey::from_ec_der_with_curve_oid(alloc, octets, curve, &scheme))
        }
        "sec1_on_known" => on_known_curve(alloc, curve, octets, &DemoScheme::new()),
        "refused" => refused(alloc, curve, octets),
        _ => Err(NO_CALL),
    }
}

fn on_known_curve<S: Scheme>(
    alloc: Global,
    curve: &[u8],
    octets: &[u8],
    scheme: &S,
) -> Result<PrivateKey, NoKey> {
    let curve = known_curve(curve)?;
    made(PrivateKey::from_ec_der_with_curve(alloc, octets, curve, scheme))
}

/// The key on a supported curve under a scheme that derives nothing.
fn refused(alloc: Global, curve: &[u8], octets: &[u8]) -> Result<PrivateKey, NoKey> {
    match VerdictTable::parse(alloc, &[]) {
        Ok(table) => on_known_curve(alloc, curve, octets, &table),
        Err(_) => Err(NoKey::Refused(KeyError::Memory)),
    }
}

/// The key with an OID, a secret and what is given of its public key.
fn of_parts(
    alloc: Global,
    call: &str,
    (id, secret): (&[u8], &[u8]),
    args: Args<'_>,
) -> Result<PrivateKey, NoKey> {
    match (call, args.octets) {
        ("coordinates", [_, _, Some(x), Some(y)]) => {
            let curve = known_curve(id)?;
            made(PrivateKey::from_ec_components(alloc, curve, secret, x, y))
        }
        ("ec_encoded", [_, _, _]) => ec_encoded(alloc, id, secret, args.given(2)?),
        ("ed_encoded", [_, _, _]) => ed_encoded(alloc, id, secret, args.given(2)?),
        _ => Err(NO_CALL),
    }
}

fn ec_encoded(
    alloc: Global,
    curve: &[u8],
    secret: &[u8],
    point: Option<&[u8]>,
) -> Result<PrivateKey, NoKey> {
    let curve = oid_of(alloc, curve)?;
    match PrivateKey::from_ec_encoded_components(alloc, curve, secret, point) {
        Ok(key) => Ok(key),
        Err(error) => Err(NoKey::Refused(KeyError::from(error))),
    }
}

fn ed_encoded(
    alloc: Global,
    oid: &[u8],
    secret: &[u8],
    public_key: Option<&[u8]>,
) -> Result<PrivateKey, NoKey> {
    let oid = oid_of(alloc, oid)?;
    if !KeyKind::Ed.is_named(oid.as_bytes()) {
        return Err(NO_CALL);
    }
    match PrivateKey::from_ed_encoded_components(alloc, oid, secret, public_key) {
        Ok(key) => Ok(key),
        Err(error) => Err(NoKey::Refused(KeyError::from(error))),
    }
}

fn oid_of(alloc: Global, contents: &[u8]) -> Result<ObjectIdentifier, NoKey> {
    match ObjectIdentifier::from_content(alloc, contents) {
        Ok(oid) => Ok(oid),
        Err(DerError::Memory) => Err(NoKey::Refused(KeyError::Memory)),
        Err(_) => Err(NO_CALL),
    }
}

fn known_curve(contents: &[u8]) -> Result<EcCurve, NoKey> {
    match EcCurve::named(contents) {
        Some(curve) => Ok(curve),
        None => Err(NO_CALL),
    }
}

/// The kind of a key, its PKCS #8 octets, whether it is equal to a copy and to what is read from
/// them, its PKCS #1 octets, and its public key.
fn print_key(alloc: Global, key: &PrivateKey, line: &mut Line) {
    line.named(&key.kind());
    match key.to_pkcs8(alloc) {
        Ok(octets) => print_octets(alloc, key, &octets, line),
        Err(error) => line.shown(&error),
    }
    line.made(key.to_pkcs1(alloc));
    line.mark(";");
    print_public_half(alloc, key, line);
}

fn print_octets(alloc: Global, key: &PrivateKey, octets: &[u8], line: &mut Line) {
    line.octets(octets);
    print_flag(is_copied(alloc, key), line);
    print_flag(is_read_of(alloc, key, octets), line);
}

/// Prints the flag, or the text of the refusal.
fn print_flag(flag: Result<bool, KeyError>, line: &mut Line) {
    match flag {
        Ok(flag) => line.shown(&flag),
        Err(error) => line.shown(&error),
    }
}

fn is_copied(alloc: Global, key: &PrivateKey) -> Result<bool, KeyError> {
    Ok(equals(key.try_clone(alloc)?, key))
}

/// Whether the octets are read as the key. Those of a key that is made without checks may be
/// refused.
fn is_read_of(alloc: Global, key: &PrivateKey, octets: &[u8]) -> Result<bool, KeyError> {
    match PrivateKey::from_pkcs8(alloc, octets, &DemoScheme::new()) {
        Ok(again) => Ok(equals(again, key)),
        Err(KeyError::Memory) => Err(KeyError::Memory),
        Err(_) => Ok(false),
    }
}

/// The octets of the public key, or why there is none.
fn print_public_half(alloc: Global, key: &PrivateKey, line: &mut Line) {
    match key.to_public_key(alloc) {
        Ok(key) => line.made(key.to_der(alloc)),
        Err(error) => line.shown(&error),
    }
}
