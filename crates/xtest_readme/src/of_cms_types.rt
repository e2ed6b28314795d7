//! Signed data that is borrowed.

use cms_types::SignedView;
use der_core::whole_element;
use std::test::Fail;

/// The type of what is signed, the contents of its OID, without a copy; None where the bytes aren't
/// signed data (RFC 5652 5.1).
fn content_type(octets: &[u8]) -> Option<&[u8]> {
    let view = SignedView::read(whole_element(octets)?)?;
    Some(view.content_type())
}

#[test]
fn reads(rt: HostRuntime) -> Result<(), Fail> {
    let octets = hex::decode(rt.alloc(), CERTIFICATES_ALONE)?;
    let data = hex::decode(rt.alloc(), "2a864886f70d010701")?;
    assert!(rt; content_type(&octets) == Some(data.as_slice()));
    assert!(rt; content_type(&data).is_none());
    Ok(())
}

/// Version 1, no digest algorithms, no content of the type 1.2.840.113549.1.7.1, empty fields of
/// certificates and revocation lists, no signers (RFC 2315 9.1).
#[rattlefmt::skip]
const CERTIFICATES_ALONE: &str = "302706092a864886f70d010702a01a30180201013100300b06092a864886f70d010701a000a1003100";
