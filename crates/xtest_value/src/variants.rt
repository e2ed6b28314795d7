//! Digest algorithms by OID, and which of them are converted.

use asn1_types::ObjectIdentifier;
use sig_core::{
    HashAlgorithm, ShaVariant, UnsupportedAlgorithmError, UnsupportedHashAlgorithmError,
};
use std::alloc::{AllocError, Global};
use std::test::Fail;

/// The OIDs in RFC 8017 appendix B.1.
#[rattlefmt::skip]
const VARIANTS: [(ShaVariant, HashAlgorithm, &str); 6] = [
    (ShaVariant::MD5, HashAlgorithm::MD5, "1.2.840.113549.2.5"),
    (ShaVariant::SHA1, HashAlgorithm::SHA1, "1.3.14.3.2.26"),
    (ShaVariant::SHA2_224, HashAlgorithm::SHA2_224, "2.16.840.1.101.3.4.2.4"),
    (ShaVariant::SHA2_256, HashAlgorithm::SHA2_256, "2.16.840.1.101.3.4.2.1"),
    (ShaVariant::SHA2_384, HashAlgorithm::SHA2_384, "2.16.840.1.101.3.4.2.2"),
    (ShaVariant::SHA2_512, HashAlgorithm::SHA2_512, "2.16.840.1.101.3.4.2.3"),
];

#[test]
fn identifiers(rt: HostRuntime) -> Result<(), Fail> {
    assert!(rt; ShaVariant::ALL.len() == VARIANTS.len());
    for (variant, hash, text) in &VARIANTS {
        assert!(rt; ShaVariant::ALL.contains(variant), "{text}");
        assert!(rt; variant.hash() == *hash, "{text}");
        assert!(rt; is_identified(rt.alloc(), *variant, text)?, "{text}");
    }
    Ok(())
}

/// Whether the algorithm and the OID with this text correspond to each other.
fn is_identified(alloc: Global, variant: ShaVariant, text: &str) -> Result<bool, AllocError> {
    let oid = variant.to_oid(alloc)?;
    let is_found = ShaVariant::from_oid(&oid) == Ok(variant)
        && ShaVariant::named(oid.as_bytes()) == Some(variant);
    let is_lent = variant.oid_contents() == oid.as_bytes();
    Ok(is_found && is_lent && oid.to_text(alloc)?.as_str() == text)
}

/// OIDs of no digest algorithm here: SHA-512/256, one arc less, one arc more, a signature
/// algorithm.
const NO_VARIANTS: [&str; 5] = [
    "2.16.840.1.101.3.4.2.6",
    "2.16.840.1.101.3.4.2",
    "1.3.14.3.2.26.0",
    "1.2.840.113549.1.1.11",
    "1.2.3",
];

#[test]
fn other_identifiers(rt: HostRuntime) -> Result<(), Fail> {
    for text in &NO_VARIANTS {
        let oid = ObjectIdentifier::from_text(rt.alloc(), text)?;
        assert!(rt;
            ShaVariant::from_oid(&oid) == Err(UnsupportedAlgorithmError),
            "{text}"
        );
        assert!(rt; ShaVariant::named(oid.as_bytes()) == None, "{text}");
    }
    Ok(())
}

#[test]
fn conversions(rt: HostRuntime) -> Result<(), Fail> {
    for (variant, hash, text) in &VARIANTS {
        assert!(rt; converts(*variant, *hash), "{text}");
    }
    Ok(())
}

/// Whether both are converted into each other, or neither, as for SHA-224 alone.
fn converts(variant: ShaVariant, hash: HashAlgorithm) -> bool {
    let refused = UnsupportedHashAlgorithmError { algorithm: hash };
    let (to, from) = (ShaVariant::try_from(hash), HashAlgorithm::try_from(variant));
    if hash == HashAlgorithm::SHA2_224 {
        to == Err(refused) && from == Err(refused)
    } else {
        to == Ok(variant) && from == Ok(hash)
    }
}

#[test]
fn texts_of_errors(rt: HostRuntime) -> Result<(), Fail> {
    let refused = UnsupportedHashAlgorithmError {
        algorithm: HashAlgorithm::SHA2_224,
    };
    let returned = format!(in rt.alloc(); "{refused}; {}", UnsupportedAlgorithmError)?;
    let want = "digests by SHA-224 are not supported; the OID names no supported digest algorithm";
    assert!(rt; returned.as_str() == want);
    Ok(())
}
