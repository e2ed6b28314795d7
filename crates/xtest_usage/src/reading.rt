//! Fields of what is read: the signer and the digest of a signature, the path length of a CA.

use authenticode_core::AuthenticodeError;
use authenticode_signature::AuthenticodeSignature;
use std::alloc::Global;
use std::test::Fail;
use x509_core::Cert;

/// The subject of the signer's certificate, as text.
fn signer_name(
    alloc: Global,
    signature: &AuthenticodeSignature,
) -> Result<String, AuthenticodeError> {
    let certificates = signature.0.decode_certificates(alloc)?;
    let signer = signature.signing_certificate(alloc, &certificates)?;
    let name = signer.subject_name(alloc)?;
    Ok(name.to_string(alloc)?)
}

/// How many CA certificates may follow below this one (RFC 5280 4.2.1.9), None without a limit.
fn path_length(cert: &Cert) -> Option<u8> {
    match cert.basic_constraints() {
        Ok(constraints) => constraints.pathlen(),
        Err(_) => None,
    }
}

/// A signature over the digest of `abc`, whose certificate has the subject `CN = A` by `openssl
/// pkcs7 -print_certs`.
#[rattlefmt::skip]
const SIGNATURE: &str = "308201b206092a864886f70d010702a08201a33082019f020101310f300d06096086480165030402010500305c060a2b060104018237020104a04e304c3017060a2b06010401823702010f3009030100a004a20280003031300d060960864801650304020105000420ba7816bf8f01cfea414140de5dae2223b00361a396177a9cb410ff61f20015ada08187308184306fa003020102020101300d06092a864886f70d01010b0500300c310a300806035504030c0141301e170d3230303130313030303030305a170d3330303130313030303030305a300c310a300806035504030c0141301a300d06092a864886f70d01010105000309003006020111020103300d06092a864886f70d01010b0500030200bba10031819e30819b0201013011300c310a300806035504030c0141020101300d06096086480165030402010500a062301906092a864886f70d010903310c060a2b0601040182370201043014060a2b06010401823702010c31063004a1028000302f06092a864886f70d010904312204206b00646e9ba32b38bcdfe80a0e22b4671c4d01316d815cc7bb60626b24aa2832300d06092a864886f70d01010105000401aa";

const DIGEST: &str = "ba7816bf8f01cfea414140de5dae2223b00361a396177a9cb410ff61f20015ad";

/// A CA certificate that OpenSSL made, with the path length 1.
#[rattlefmt::skip]
const AUTHORITY: &str = "3082015e30820105a00302010202143e1f761d8266d0c311e59db70faece8a99dca1e4300a06082a8648ce3d04030230143112301006035504030c09417574686f72697479301e170d3236313133303134343830355a170d3336313132373134343830355a30143112301006035504030c09417574686f726974793059301306072a8648ce3d020106082a8648ce3d030107034200043e39e5155dd908087609e4c178decf191e76d6469884d1d02ca3bfb7f5f09694db51a8bf12c4a1f13d4fbd9aa8c3377359fd4682d13d4041fe9eab7923622b1aa335303330120603551d130101ff040830060101ff020101301d0603551d0e041604146f67196336af22805e6436a8ca5c2e650b73b8c2300a06082a8648ce3d040302034700304402201a24832f9ae1e9393c38550fc36b95f7159812b2bd0e1af36ec997f29ef39ecc022014e694f0277306fe32d49c6dd02523badf2a54606dc6978625551e4cbdf7fdba";

/// Whether the signature is over the digest of `abc`.
fn is_over_abc(alloc: Global, signature: &AuthenticodeSignature) -> Result<bool, Fail> {
    let wanted = hex::decode(alloc, DIGEST)?;
    match signature.file_hash(alloc)? {
        Some(digest) => Ok(digest.as_slice() == wanted.as_slice()),
        None => Ok(false),
    }
}

#[test]
fn reads_a_signature(rt: HostRuntime) -> Result<(), Fail> {
    let octets = hex::decode(rt.alloc(), SIGNATURE)?;
    let signature = AuthenticodeSignature::from_der(rt.alloc(), &octets)?;
    assert_eq!(rt; signer_name(rt.alloc(), &signature)?.as_str(), "CN=A");
    assert!(rt; is_over_abc(rt.alloc(), &signature)?);
    Ok(())
}

#[test]
fn reads_a_path_length(rt: HostRuntime) -> Result<(), Fail> {
    let authority = Cert::from_der(rt.alloc(), &hex::decode(rt.alloc(), AUTHORITY)?)?;
    assert_eq!(rt; path_length(&authority), Some(1));
    Ok(())
}
