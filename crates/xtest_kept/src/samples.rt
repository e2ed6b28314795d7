//! Hand-made signed data, and reading octets.

use authenticode_signature::{AuthenticodeSignature, Pkcs7, TokenTimestamper};
use std::alloc::Global;

/// Version 1, no digest algorithms, no content, empty fields of certificates and revocation lists,
/// no signers (RFC 2315 9.1).
pub(crate) const EMPTY: &str = "302706092a864886f70d010702a01a3018020101310030\
0b06092a864886f70d010701a000a1003100";

/// The same with one certificate.
#[rattlefmt::skip]
pub(crate) const ONE: &str = "3081b106092a864886f70d010702a081a33081a00201013100300b06092a864886f70d010701a08187308184306fa003020102020101300d06092a864886f70d01010b0500300c310a300806035504030c0141301e170d3230303130313030303030305a170d3330303130313030303030305a300c310a300806035504030c0141301a300d06092a864886f70d01010105000309003006020111020103300d06092a864886f70d01010b0500030200bba1003100";

/// The key of the certificate: a PrivateKeyInfo (RFC 5208 5) of RSA with the modulus 17 and the
/// exponent 3.
pub(crate) const KEY: &str =
    "3031020100300d06092a864886f70d0101010500041d301b02010002011102010302010502010702010b020101020102020104";

/// A signature of the plain form over the digest of `abc`, with the same certificate and without
/// unsigned attributes, made by `tools/cases/first_path.py`.
#[rattlefmt::skip]
pub(crate) const SIGNATURE: &str = "308201b206092a864886f70d010702a08201a33082019f020101310f300d06096086480165030402010500305c060a2b060104018237020104a04e304c3017060a2b06010401823702010f3009030100a004a20280003031300d060960864801650304020105000420ba7816bf8f01cfea414140de5dae2223b00361a396177a9cb410ff61f20015ada08187308184306fa003020102020101300d06092a864886f70d01010b0500300c310a300806035504030c0141301e170d3230303130313030303030305a170d3330303130313030303030305a300c310a300806035504030c0141301a300d06092a864886f70d01010105000309003006020111020103300d06092a864886f70d01010b0500030200bba10031819e30819b0201013011300c310a300806035504030c0141020101300d06096086480165030402010500a062301906092a864886f70d010903310c060a2b0601040182370201043014060a2b06010401823702010c31063004a1028000302f06092a864886f70d010904312204206b00646e9ba32b38bcdfe80a0e22b4671c4d01316d815cc7bb60626b24aa2832300d06092a864886f70d01010105000401aa";

/// The digest that it signs.
pub(crate) const FILE_HASH: &str =
    "ba7816bf8f01cfea414140de5dae2223b00361a396177a9cb410ff61f20015ad";

/// The signed data in the octets, None if they are refused.
pub(crate) fn signed_data(alloc: Global, octets: &[u8]) -> Option<Pkcs7> {
    Pkcs7::from_der(alloc, octets).ok()
}

/// The signature in the octets, None if they are refused.
pub(crate) fn signature(alloc: Global, octets: &[u8]) -> Option<AuthenticodeSignature> {
    AuthenticodeSignature::from_der(alloc, octets).ok()
}

/// The timestamper with the token in the octets, None if they are refused.
pub(crate) fn timestamper(alloc: Global, octets: &[u8]) -> Option<TokenTimestamper> {
    TokenTimestamper::from_der(alloc, octets).ok()
}

/// Whether signed data is written as these octets.
pub(crate) fn is_written(alloc: Global, signed: &Pkcs7, octets: &[u8]) -> bool {
    match signed.to_der(alloc) {
        Ok(written) => written.as_slice() == octets,
        Err(_) => false,
    }
}

/// Whether a signature is written as these octets.
pub(crate) fn is_spelled(alloc: Global, signature: &AuthenticodeSignature, octets: &[u8]) -> bool {
    match signature.to_der(alloc) {
        Ok(written) => written.as_slice() == octets,
        Err(_) => false,
    }
}
