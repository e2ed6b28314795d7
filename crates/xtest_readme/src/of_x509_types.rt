//! The caller in the README of `x509_types`.

use der_core::whole_element;
use std::test::Fail;
use x509_types::CertView;

/// The encoding of the subject of a certificate, borrowed from its octets; None where the octets
/// are no certificate. Nothing is allocated.
fn subject(octets: &[u8]) -> Option<&[u8]> {
    let elem = whole_element(octets)?;
    let view = CertView::read(elem)?;
    Some(view.subject())
}

#[test]
fn a_subject(rt: HostRuntime) -> Result<(), Fail> {
    let octets = hex::decode(rt.alloc(), CERTIFICATE)?;
    let wanted = hex::decode(rt.alloc(), SUBJECT)?;
    let Some(found) = subject(&octets) else {
        return Err(Fail::from("no certificate"));
    };
    assert_eq!(rt; found, wanted.as_slice());
    assert!(rt; subject(found).is_none());
    Ok(())
}

/// A certificate that OpenSSL made.
#[rattlefmt::skip]
const CERTIFICATE: &str = "308201b93082015fa003020102021410a52861ea112d10506926d00f56dceb71356b67300a06082a8648ce3d04030230303118301606035504030c0f7777772e6578616d706c652e6f726731143012060355040a0c0b4578616d706c65204c7464301e170d3236313133303134353131335a170d3236313230313134353131335a30303118301606035504030c0f7777772e6578616d706c652e6f726731143012060355040a0c0b4578616d706c65204c74643059301306072a8648ce3d020106082a8648ce3d03010703420004ae6529d65f9dbc7e78a3e5e2aa7608cb73c2a3de45838a6b7a13675da927fc8ff85809a9f5d007066152b1d0e6897ac896dcde961efaffdba65686320250049aa357305530200603551d1104193017820f7777772e6578616d706c652e6f72678704c000020130120603551d130101ff040830060101ff020100301d0603551d0e04160414b569dbc9196172cb5e2cc90bd3ae798ec5aa505e300a06082a8648ce3d0403020348003045022029051085952e5e544649c59359f794d46a5cbbc2e0805280f06724b344cf3dba02210084af0c4c0a227d27ca6fe76148d238896b5301a9e583412a21173888066c1afa";

/// Its subject, CN=www.example.org, O=Example Ltd, at the offset that `openssl asn1parse` prints.
#[rattlefmt::skip]
const SUBJECT: &str = "30303118301606035504030c0f7777772e6578616d706c652e6f726731143012060355040a0c0b4578616d706c65204c7464";
