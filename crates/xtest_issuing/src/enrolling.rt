//! Certificates for requests.

use crate::authority::{day, grant, key_of, name_of, with_leaf, with_root};
use ca_register::IssueError;
use der_core::DerError;
use key_core::{SignatureAlgorithm, SignatureError};
use sig_core::{DemoScheme, HashAlgorithm};
use std::alloc::Global;
use std::test::Fail;
use x509_core::{CertError, CsrError};
use x509_issuing::Csr;

/// A request of the key with this modulus.
fn request_of(alloc: Global, modulus: u8) -> Result<Vec<u8>, Fail> {
    let key = key_of(alloc, modulus)?;
    let algorithm = SignatureAlgorithm::RsaPkcs1v15(HashAlgorithm::SHA2_256);
    let name = name_of(alloc, "DEVICE")?;
    let csr = Csr::generate(alloc, name, &key, algorithm, &DemoScheme::new())?;
    Ok(csr.to_der(alloc)?)
}

/// Changes the last octet, one of the signature.
fn change_last(request: &mut [u8]) {
    if let Some(last) = request.last_mut() {
        *last = !*last;
    }
}

#[test]
fn enrols_a_device(rt: HostRuntime) -> Result<(), Fail> {
    let mut register = with_root(rt.alloc())?;
    let key = key_of(rt.alloc(), 17)?;
    let request = request_of(rt.alloc(), 33)?;
    let of_device = grant(false, None, (2024, 2025))?;
    assert_eq!(rt; register.enrol(0, &key, &request, of_device, 7)?, 1);
    assert!(rt; register.verify(rt.alloc(), 1, &day((2024, 7, 1))?).is_ok());
    assert!(rt; register.verify(rt.alloc(), 1, &day((2025, 7, 1))?).is_err());
    let Some(cert) = register.certificate(1) else {
        return Err(Fail::from("there is no certificate"));
    };
    let subject = cert.subject_name(rt.alloc())?;
    assert_eq!(rt; format!(in rt.alloc(); "{subject}")?.as_str(), "CN=DEVICE");
    Ok(())
}

#[test]
fn refuses_octets_that_are_no_request(rt: HostRuntime) -> Result<(), Fail> {
    let mut register = with_leaf(rt.alloc())?;
    let key = key_of(rt.alloc(), 17)?;
    let of_device = grant(false, None, (2024, 2025))?;
    let refused = register.enrol(0, &key, &[0x30, 0x00], of_device, 7);
    assert!(rt;
        matches!(
            &refused,
            Err(IssueError::Request(CsrError::Asn1Deserialization {
                source: DerError::Shape,
                ..
            }))
        )
    );
    // that the issuer is no CA is found first
    let leaf_key = key_of(rt.alloc(), 19)?;
    let also = register.enrol(2, &leaf_key, &[0x30, 0x00], of_device, 7);
    assert!(rt; matches!(&also, Err(IssueError::NotCa)));
    assert_eq!(rt; register.len(), 3);
    Ok(())
}

#[test]
fn refuses_a_request_signed_by_another_key(rt: HostRuntime) -> Result<(), Fail> {
    let mut register = with_root(rt.alloc())?;
    let key = key_of(rt.alloc(), 17)?;
    let mut request = request_of(rt.alloc(), 33)?;
    change_last(&mut request);
    let of_device = grant(false, None, (2024, 2025))?;
    let refused = register.enrol(0, &key, &request, of_device, 7);
    assert!(rt;
        matches!(
            &refused,
            Err(IssueError::Build(CertError::InvalidCsr {
                source: CsrError::Signature {
                    source: SignatureError::BadSignature
                }
            }))
        )
    );
    assert_eq!(rt; register.len(), 1);
    Ok(())
}

/// Of two errors the first: the request isn't signed by its key, and the issuer's key is another's.
#[test]
fn refuses_the_request_before_the_key(rt: HostRuntime) -> Result<(), Fail> {
    let mut register = with_root(rt.alloc())?;
    let other = key_of(rt.alloc(), 18)?;
    let mut request = request_of(rt.alloc(), 33)?;
    let of_device = grant(false, None, (2024, 2025))?;
    let by_other = register.enrol(0, &other, &request, of_device, 7);
    assert!(rt;
        matches!(
            &by_other,
            Err(IssueError::WrongKey(SignatureError::BadSignature))
        )
    );
    change_last(&mut request);
    let refused = register.enrol(0, &other, &request, of_device, 7);
    assert!(rt;
        matches!(
            &refused,
            Err(IssueError::Build(CertError::InvalidCsr { .. }))
        )
    );
    assert_eq!(rt; register.len(), 1);
    Ok(())
}
