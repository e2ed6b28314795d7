//! A request for a certificate.

use key_core::{PrivateKey, SignatureAlgorithm};
use names_core::DirectoryName;
use sig_core::{DemoScheme, HashAlgorithm};
use std::alloc::Global;
use std::test::Fail;
use x509_core::CsrError;
use x509_issuing::Csr;

/// A request (RFC 2986) for a certificate of this common name, signed by the key to be certified.
fn request(alloc: Global, name: &str, key: &PrivateKey) -> Result<Vec<u8>, CsrError> {
    let subject = DirectoryName::new_common_name(alloc, name)?;
    let algorithm = SignatureAlgorithm::RsaPkcs1v15(HashAlgorithm::SHA2_256);
    let csr = Csr::generate(alloc, subject, key, algorithm, &DemoScheme::new())?;
    csr.to_der(alloc)
}

#[test]
fn requests(rt: HostRuntime) -> Result<(), Fail> {
    let octets = hex::decode(rt.alloc(), KEY)?;
    let key = PrivateKey::from_pkcs8(rt.alloc(), &octets, &DemoScheme::new())?;
    let wanted = hex::decode(rt.alloc(), REQUEST)?;
    let made = request(rt.alloc(), "example", &key)?;
    assert_eq!(rt; made.as_slice(), wanted.as_slice());
    Ok(())
}

/// A PrivateKeyInfo (RFC 5208 5) of RSA, its modulus 17, its exponent 3.
#[rattlefmt::skip]
const KEY: &str = "3031020100300d06092a864886f70d0101010500041d301b02010002011102010302010502010702010b020101020102020104";

/// The request as Python puts it together with hashlib; `openssl req` prints its fields.
#[rattlefmt::skip]
const REQUEST: &str = "3069303502010030123110300e06035504030c076578616d706c65301a300d06092a864886f70d01010105000309003006020111020103a000300d06092a864886f70d01010b05000321008dc0ef168fe5cf86d6c1ec8af0ef247efd0bcef904fab7d35862a642675f88da";
