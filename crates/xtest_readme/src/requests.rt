//! Requests as values.

use der_core::{DerError, Structure};
use std::alloc::Global;
use std::test::Fail;
use x509_issuing::CertificationRequest;

/// The text of the name that a certification request asks for. Its signature isn't checked.
fn requested_name(alloc: Global, octets: &[u8]) -> Result<String, DerError> {
    let request = CertificationRequest::from_der(alloc, octets)?;
    let subject = &request.certification_request_info.subject;
    Ok(subject.to_string(alloc)?)
}

#[test]
fn a_request(rt: HostRuntime) -> Result<(), Fail> {
    let octets = hex::decode(rt.alloc(), REQUEST)?;
    let text = requested_name(rt.alloc(), &octets)?;
    assert_eq!(rt; text.as_str(), "CN=www.example.org,O=Example Ltd");
    Ok(())
}

/// A request that OpenSSL made, for CN=www.example.org, O=Example Ltd.
#[rattlefmt::skip]
const REQUEST: &str = "3081eb30819202010030303118301606035504030c0f7777772e6578616d706c652e6f726731143012060355040a0c0b4578616d706c65204c74643059301306072a8648ce3d020106082a8648ce3d03010703420004ae6529d65f9dbc7e78a3e5e2aa7608cb73c2a3de45838a6b7a13675da927fc8ff85809a9f5d007066152b1d0e6897ac896dcde961efaffdba65686320250049aa000300a06082a8648ce3d04030203480030450221009ae709a545c414517d01e9d97161d7c9b98f88afa376b4bc1022b718bb601b0e022054441ea8796fcdcd7df3eb1eb9d8c363a5d7c15638bf093d4934a68be0c6b7ad";
