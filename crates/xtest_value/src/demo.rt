//! What the demonstration scheme makes, accepts and refuses.

ghost use Rattle.std.specs.Prelude.{◌≡◌, IfOk};

use crate::demo_rows::{DemoRow, signed};
use sig_core::{DemoScheme, Scheme, SchemeError, SchemeKind, SigAlg, Verdict};
use std::alloc::Global;
use std::test::Fail;

/// The verdict of a scheme on what it signs, under the key of the secret.
fn own_verdict<S: Scheme>(
    alloc: Global,
    scheme: &S,
    alg: SigAlg,
    secret: &[u8],
    msg: &[u8],
) -> Result<Verdict, SchemeError>
    ensures { IfOk result (λ verdict. verdict ≡ Verdict.Accept) }
{
    let key = scheme.public_of(alloc, alg.kind(), secret)?;
    let sig = scheme.sign(alloc, alg, secret, msg)?;
    Ok(scheme.verify(alloc, alg, &key, msg, &sig)?)
}

/// Whether the scheme derives the key and makes the signature of a row, and accepts what it signs.
fn makes<S: Scheme>(alloc: Global, scheme: &S, row: &DemoRow) -> Result<bool, Fail> {
    let (alg, secret, key, sig) = row;
    let secret = hex::decode(alloc, secret)?;
    Ok(
        gives_key(alloc, scheme, alg.kind(), &secret, key)?
            && signs(alloc, scheme, *alg, &secret, sig)?
            && own_verdict(alloc, scheme, *alg, &secret, b"message")? == Verdict::Accept,
    )
}

/// Whether the scheme derives this key.
fn gives_key<S: Scheme>(
    alloc: Global,
    scheme: &S,
    kind: SchemeKind,
    secret: &[u8],
    key: &str,
) -> Result<bool, Fail> {
    let made = scheme.public_of(alloc, kind, secret)?;
    Ok(hex::encode(alloc, made.as_slice())?.as_str() == key)
}

/// Whether the scheme makes this signature of `message`.
fn signs<S: Scheme>(
    alloc: Global,
    scheme: &S,
    alg: SigAlg,
    secret: &[u8],
    sig: &str,
) -> Result<bool, Fail> {
    let made = scheme.sign(alloc, alg, secret, b"message")?;
    Ok(hex::encode(alloc, made.as_slice())?.as_str() == sig)
}

#[test]
fn signatures(rt: HostRuntime) -> Result<(), Fail> {
    let rows = signed();
    assert!(rt; rows.len() == SigAlg::ALL.len());
    for row in &rows {
        assert!(rt;
            makes(rt.alloc(), &DemoScheme::new(), row)?,
            "{}",
            row.0.name()
        );
    }
    Ok(())
}

/// The signature of `message` under the RSA key with modulus 17 and exponent 3, as in the rows.
const SIG: &str = "387296ab30c30dc5969134fbbf5bcc6818e878ba18ae4739e780697573b372a7";

/// The scheme's verdicts on signatures, in hexadecimal like the key.
#[rattlefmt::skip]
const VERDICTS: [(&str, SigAlg, &str, &[u8], &str, Verdict); 8] = [
    ("as it was made", SigAlg::RsaSha256, "3006020111020103", b"message", SIG, Verdict::Accept),
    ("another algorithm", SigAlg::RsaSha1, "3006020111020103", b"message", SIG, Verdict::Reject),
    ("another key", SigAlg::RsaSha256, "3006020112020103", b"message", SIG, Verdict::Reject),
    ("another message", SigAlg::RsaSha256, "3006020111020103", b"messages", SIG, Verdict::Reject),
    ("another last octet", SigAlg::RsaSha256, "3006020111020103", b"message", "387296ab30c30dc5969134fbbf5bcc6818e878ba18ae4739e780697573b372a8", Verdict::Reject),
    ("31 octets", SigAlg::RsaSha256, "3006020111020103", b"message", "387296ab30c30dc5969134fbbf5bcc6818e878ba18ae4739e780697573b372", Verdict::Malformed),
    ("33 octets", SigAlg::RsaSha256, "3006020111020103", b"message", "387296ab30c30dc5969134fbbf5bcc6818e878ba18ae4739e780697573b372a700", Verdict::Malformed),
    ("none", SigAlg::RsaSha256, "3006020111020103", b"message", "", Verdict::Malformed),
];

#[test]
fn verdicts(rt: HostRuntime) -> Result<(), Fail> {
    for (why, alg, key, msg, sig, want) in &VERDICTS {
        assert!(rt;
            verdict_on(rt.alloc(), *alg, key, msg, sig)? == *want,
            "{why}"
        );
    }
    Ok(())
}

/// The scheme's verdict on a signature.
fn verdict_on(
    alloc: Global,
    alg: SigAlg,
    key: &str,
    msg: &[u8],
    sig: &str,
) -> Result<Verdict, Fail> {
    let key = hex::decode(alloc, key)?;
    let sig = hex::decode(alloc, sig)?;
    Ok(DemoScheme::new().verify(alloc, alg, &key, msg, &sig)?)
}

/// Secrets that have no key.
#[rattlefmt::skip]
const REFUSED: [(&str, SchemeKind, &str); 18] = [
    ("no octets", SchemeKind::Rsa, ""),
    ("the last octet is cut off", SchemeKind::Rsa, "301b02010002011102010302010502010702010b0201010201020201"),
    ("an octet more", SchemeKind::Rsa, "301b02010002011102010302010502010702010b02010102010202010400"),
    ("version 1", SchemeKind::Rsa, "301b02010102011102010302010502010702010b020101020102020104"),
    ("version 0 in two octets", SchemeKind::Rsa, "301c0202000002011102010302010502010702010b020101020102020104"),
    ("a number less", SchemeKind::Rsa, "301802010002011102010302010502010702010b020101020102"),
    ("a number more", SchemeKind::Rsa, "301e02010002011102010302010502010702010b020101020102020104020108"),
    ("a modulus without octets", SchemeKind::Rsa, "301a020100020002010302010502010702010b020101020102020104"),
    ("a coefficient without octets", SchemeKind::Rsa, "301a02010002011102010302010502010702010b0201010201020200"),
    ("a coefficient of another type", SchemeKind::Rsa, "301b02010002011102010302010502010702010b020101020102040104"),
    ("a SET", SchemeKind::Rsa, "311b02010002011102010302010502010702010b020101020102020104"),
    ("a long form of the length", SchemeKind::Rsa, "30811b02010002011102010302010502010702010b020101020102020104"),
    ("a public key", SchemeKind::Rsa, "3006020111020103"),
    ("31 octets", SchemeKind::P256, "000102030405060708090a0b0c0d0e0f101112131415161718191a1b1c1d1e"),
    ("of another curve", SchemeKind::P384, "000102030405060708090a0b0c0d0e0f101112131415161718191a1b1c1d1e1f"),
    ("of another curve", SchemeKind::P521, "000102030405060708090a0b0c0d0e0f101112131415161718191a1b1c1d1e1f"),
    ("33 octets", SchemeKind::Ed25519, "000102030405060708090a0b0c0d0e0f101112131415161718191a1b1c1d1e1f20"),
    ("no octets", SchemeKind::X25519, ""),
];

#[test]
fn secrets_without_keys(rt: HostRuntime) -> Result<(), Fail> {
    for (why, kind, secret) in &REFUSED {
        assert!(rt; has_no_key(rt.alloc(), *kind, secret)?, "{why}");
    }
    let signature = DemoScheme::new().sign(rt.alloc(), SigAlg::RsaMd5, b"secret", b"message");
    assert!(rt; signature.err() == Some(SchemeError::Refused));
    Ok(())
}

/// Whether the scheme refuses to derive a key from a secret.
fn has_no_key(alloc: Global, kind: SchemeKind, secret: &str) -> Result<bool, Fail> {
    let secret = hex::decode(alloc, secret)?;
    let key = DemoScheme::new().public_of(alloc, kind, &secret);
    Ok(key.err() == Some(SchemeError::Refused))
}

#[test]
fn keys_of_x25519(rt: HostRuntime) -> Result<(), Fail> {
    for row in &signed() {
        assert!(rt; row.0 != SigAlg::Ed25519 || gives_agreement_key(rt.alloc(), row)?);
    }
    Ok(())
}

/// Whether the secret of a row has the same key on the curve for key agreement.
fn gives_agreement_key(alloc: Global, row: &DemoRow) -> Result<bool, Fail> {
    let (_, secret, key, _) = row;
    let secret = hex::decode(alloc, secret)?;
    gives_key(alloc, &DemoScheme::new(), SchemeKind::X25519, &secret, key)
}
