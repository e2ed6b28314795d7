//! Making signatures and their files, under the demonstration scheme.

use crate::samples::{EMPTY, FILE_HASH, KEY, ONE, is_spelled, signed_data};
use authenticode_core::{AuthenticodeError, Policy};
use authenticode_signature::{
    AuthenticodeSignature, Pkcs7, check_made, decode_signature, encode_signature,
};
use der_core::Octets;
use key_core::PrivateKey;
use sig_core::{DemoScheme, ShaVariant};
use std::alloc::{AllocError, Global};
use std::test::Fail;
use wincert_core::CertificateType;

/// The file of the signature that it makes for the digest of `abc`, assembled with Python's
/// standard library.
#[rattlefmt::skip]
const FILE: &str = "e001000000020200308201d106092a864886f70d010702a08201c2308201be020101310f300d06096086480165030402010500305c060a2b060104018237020104a04e304c3017060a2b06010401823702010f3009030100a004a20280003031300d060960864801650304020105000420ba7816bf8f01cfea414140de5dae2223b00361a396177a9cb410ff61f20015ada08187308184306fa003020102020101300d06092a864886f70d01010b0500300c310a300806035504030c0141301e170d3230303130313030303030305a170d3330303130313030303030305a300c310a300806035504030c0141301a300d06092a864886f70d01010105000309003006020111020103300d06092a864886f70d01010b0500030200bba1003181bd3081ba0201013011300c310a300806035504030c0141020101300d06096086480165030402010500a062301906092a864886f70d010903310c060a2b0601040182370201043014060a2b06010401823702010c31063004a1028000302f06092a864886f70d010904312204206b00646e9ba32b38bcdfe80a0e22b4671c4d01316d815cc7bb60626b24aa2832300d06092a864886f70d010101050004202d3291d33cb93090395555c7137cbb6733ad1f545926acfd517bc977076f6588000000";

/// The result of making a signature.
#[derive(Clone, Copy, Debug, PartialEq, Eq)]
enum Outcome {
    /// Its file is the given one, is read back, and is accepted.
    Made,
    /// Refused because there are no certificates.
    NoCertificates,
    /// Refused because of the digest algorithm.
    UnsupportedHash,
    Other,
}

/// A private key, a digest, and the file of the signature made with them.
#[derive(Clone, Copy)]
struct Sample<'a> {
    key: &'a PrivateKey,
    hash: &'a [u8],
    file: &'a [u8],
}

/// The result of making a signature with the first certificate in the octets.
fn outcome_by(alloc: Global, octets: &[u8], variant: ShaVariant, sample: &Sample<'_>) -> Outcome {
    match signed_data(alloc, octets) {
        Some(signed) => outcome_of(alloc, &signed, variant, sample),
        None => Outcome::Other,
    }
}

fn outcome_of(alloc: Global, signed: &Pkcs7, variant: ShaVariant, sample: &Sample<'_>) -> Outcome {
    let scheme = DemoScheme::new();
    let key = sample.key;
    match AuthenticodeSignature::new(alloc, signed, sample.hash, variant, key, None, &scheme) {
        Ok(signature) => outcome_of_file(alloc, &signature, sample),
        Err(error) => refusal(&error),
    }
}

fn refusal(error: &AuthenticodeError) -> Outcome {
    match error {
        AuthenticodeError::NoCertificates => Outcome::NoCertificates,
        AuthenticodeError::UnsupportedHashAlgorithmError(_) => Outcome::UnsupportedHash,
        _ => Outcome::Other,
    }
}

fn outcome_of_file(
    alloc: Global,
    signature: &AuthenticodeSignature,
    sample: &Sample<'_>,
) -> Outcome {
    let pkcs = CertificateType::WinCertTypePkcsSignedData;
    match encode_signature(alloc, signature, pkcs) {
        Ok(file) => outcome_of_octets(alloc, &file, sample),
        Err(_) => Outcome::Other,
    }
}

fn outcome_of_octets(alloc: Global, file: &[u8], sample: &Sample<'_>) -> Outcome {
    if file == sample.file && is_read(alloc, file) && is_accepted(alloc, file, sample.hash) {
        Outcome::Made
    } else {
        Outcome::Other
    }
}

/// Whether the signature in the file is written as the octets after the header.
fn is_read(alloc: Global, file: &[u8]) -> bool {
    match decode_signature(alloc, file) {
        Ok(signature) => is_behind_header(alloc, &signature, file),
        Err(_) => false,
    }
}

fn is_behind_header(alloc: Global, signature: &AuthenticodeSignature, file: &[u8]) -> bool {
    match file.split_at_checked(8) {
        Some((_header, padded)) => is_before_zeros(alloc, signature, padded),
        None => false,
    }
}

/// Whether the signature is written as the octets before the zeros that pad them to a multiple of
/// eight.
fn is_before_zeros(alloc: Global, signature: &AuthenticodeSignature, padded: &[u8]) -> bool {
    match padded.split_at_checked(469) {
        Some((der, _zeros)) => is_spelled(alloc, signature, der),
        None => false,
    }
}

/// Whether the file is accepted under basic validation alone with the digest.
fn is_accepted(alloc: Global, file: &[u8], hash: &[u8]) -> bool {
    match basic_policy(alloc, hash) {
        Ok(policy) => is_accepted_under(alloc, file, &policy),
        Err(_) => false,
    }
}

fn basic_policy(alloc: Global, hash: &[u8]) -> Result<Policy<'static>, AllocError> {
    let mut policy = Policy::new(alloc);
    policy.file_hash = Some(Octets::from_slice(alloc, hash)?);
    policy.signing = false;
    Ok(policy)
}

fn is_accepted_under(alloc: Global, file: &[u8], policy: &Policy<'_>) -> bool {
    match check_made(alloc, file, policy, &DemoScheme::new()) {
        Ok(accepted) => accepted.signer == Some(0),
        Err(_) => false,
    }
}

/// Certificates, a digest algorithm, and the result.
const CASES: [(&str, ShaVariant, Outcome); 3] = [
    (ONE, ShaVariant::SHA2_256, Outcome::Made),
    (EMPTY, ShaVariant::SHA2_256, Outcome::NoCertificates),
    (ONE, ShaVariant::SHA2_224, Outcome::UnsupportedHash),
];

/// Whether each case has the expected result with the private key in the octets.
fn is_each_by(alloc: Global, octets: &[u8]) -> Result<bool, Fail> {
    match PrivateKey::from_pkcs8(alloc, octets, &DemoScheme::new()) {
        Ok(key) => is_each_with(alloc, &key),
        Err(_) => Ok(false),
    }
}

fn is_each_with(alloc: Global, key: &PrivateKey) -> Result<bool, Fail> {
    let hash = hex::decode(alloc, FILE_HASH)?;
    let file = hex::decode(alloc, FILE)?;
    let sample = Sample {
        key,
        hash: &hash,
        file: &file,
    };
    is_each(alloc, &sample)
}

fn is_each(alloc: Global, sample: &Sample<'_>) -> Result<bool, Fail> {
    let mut each = true;
    for (carried, variant, wanted) in &CASES {
        let octets = hex::decode(alloc, carried)?;
        each = each && outcome_by(alloc, &octets, *variant, sample) == *wanted;
    }
    Ok(each)
}

#[test]
fn signatures_are_made(rt: HostRuntime) -> Result<(), Fail> {
    let octets = hex::decode(rt.alloc(), KEY)?;
    assert!(rt; is_each_by(rt.alloc(), &octets)?);
    Ok(())
}
