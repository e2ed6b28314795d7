//! A program's signature that is made.

use authenticode_core::CheckError;
use authenticode_signature::{AuthenticodeSignature, Pkcs7, encode_signature};
use key_core::PrivateKey;
use sig_core::{DemoScheme, ShaVariant};
use std::alloc::Global;
use std::test::Fail;
use wincert_core::CertificateType;

/// The signature file of a program with this SHA-256, by the bag's first certificate and its key.
fn sign(alloc: Global, bag: &Pkcs7, hash: &[u8], key: &PrivateKey) -> Result<Vec<u8>, CheckError> {
    let (sha, scheme) = (ShaVariant::SHA2_256, DemoScheme::new());
    let made = AuthenticodeSignature::new(alloc, bag, hash, sha, key, None, &scheme)?;
    encode_signature(alloc, &made, CertificateType::WinCertTypePkcsSignedData)
}

#[test]
fn signs(rt: HostRuntime) -> Result<(), Fail> {
    let certificates = Pkcs7::from_der(rt.alloc(), &hex::decode(rt.alloc(), CERTIFICATES)?)?;
    let octets = hex::decode(rt.alloc(), KEY)?;
    let key = PrivateKey::from_pkcs8(rt.alloc(), &octets, &DemoScheme::new())?;
    let hash = hex::decode(rt.alloc(), HASH)?;
    let wanted = hex::decode(rt.alloc(), FILE)?;
    let made = sign(rt.alloc(), &certificates, &hash, &key)?;
    assert_eq!(rt; made.as_slice(), wanted.as_slice());
    Ok(())
}

/// Signed data of one certificate, whose key is the one below.
#[rattlefmt::skip]
const CERTIFICATES: &str = "3081b106092a864886f70d010702a081a33081a00201013100300b06092a864886f70d010701a08187308184306fa003020102020101300d06092a864886f70d01010b0500300c310a300806035504030c0141301e170d3230303130313030303030305a170d3330303130313030303030305a300c310a300806035504030c0141301a300d06092a864886f70d01010105000309003006020111020103300d06092a864886f70d01010b0500030200bba1003100";

/// A PrivateKeyInfo (RFC 5208 5) of RSA, its modulus 17, its exponent 3.
#[rattlefmt::skip]
const KEY: &str = "3031020100300d06092a864886f70d0101010500041d301b02010002011102010302010502010702010b020101020102020104";

/// The SHA-256 of `abc` (FIPS 180-4).
const HASH: &str = "ba7816bf8f01cfea414140de5dae2223b00361a396177a9cb410ff61f20015ad";

/// The signature file, as its parts are put together with Python's standard library.
#[rattlefmt::skip]
const FILE: &str = "e001000000020200308201d106092a864886f70d010702a08201c2308201be020101310f300d06096086480165030402010500305c060a2b060104018237020104a04e304c3017060a2b06010401823702010f3009030100a004a20280003031300d060960864801650304020105000420ba7816bf8f01cfea414140de5dae2223b00361a396177a9cb410ff61f20015ada08187308184306fa003020102020101300d06092a864886f70d01010b0500300c310a300806035504030c0141301e170d3230303130313030303030305a170d3330303130313030303030305a300c310a300806035504030c0141301a300d06092a864886f70d01010105000309003006020111020103300d06092a864886f70d01010b0500030200bba1003181bd3081ba0201013011300c310a300806035504030c0141020101300d06096086480165030402010500a062301906092a864886f70d010903310c060a2b0601040182370201043014060a2b06010401823702010c31063004a1028000302f06092a864886f70d010904312204206b00646e9ba32b38bcdfe80a0e22b4671c4d01316d815cc7bb60626b24aa2832300d06092a864886f70d010101050004202d3291d33cb93090395555c7137cbb6733ad1f545926acfd517bc977076f6588000000";
