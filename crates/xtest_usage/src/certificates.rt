//! Certificates: the subject's name, and whether one is a CA certificate.

use std::alloc::Global;
use std::test::Fail;
use x509_core::{Cert, CertError, CertType};

/// The text of the subject's name.
fn subject(alloc: Global, cert: &Cert) -> Result<String, CertError> {
    let name = cert.subject_name(alloc)?;
    Ok(name.to_string(alloc)?)
}

/// Whether this is a CA certificate.
fn is_ca(cert: &Cert) -> bool {
    match cert.ty() {
        CertType::Root | CertType::Intermediate => true,
        CertType::Leaf | CertType::Unknown => false,
    }
}

/// A CA certificate that OpenSSL made.
#[rattlefmt::skip]
const ROOT: &str = "308201513081f8a00302010202142f427f1592dfef6960d3d27e12f8bebe9c645872300a06082a8648ce3d040302300f310d300b06035504030c04526f6f74301e170d3236313132373137333135335a170d3237313132373137333135335a300f310d300b06035504030c04526f6f743059301306072a8648ce3d020106082a8648ce3d030107034200044a648bb3312129a9dfa60304cb92267ae1915a0baf5b6dfeaaa21266d181655f5dd2a0fa48b19ac5111588785aeb46419d192708d2cdff97655299033230f73ca3323030300f0603551d130101ff040530030101ff301d0603551d0e04160414c29d76dc0e2c70a90bb0b2a2978a016d93748053300a06082a8648ce3d0403020348003045022100e8866df83fc8dbd9f1368f3d9baadde1be6a0415b1578f0985e35a1ebb7d0acc02205034a87ae669cabc973a6fd43159814ff17b649615316bd9b803c3185fbe9f69";

/// A certificate that isn't, also made by OpenSSL.
#[rattlefmt::skip]
const END: &str = "308201873082012ea00302010202143b87f5b5b39b8974c228b786419f87916697722a300a06082a8648ce3d040302302831123010060355040a0c094d61646520686572653112301006035504030c09417574686f72697479301e170d3236313132373137333135345a170d3237313132373137333135345a300e310c300a06035504030c03456e643059301306072a8648ce3d020106082a8648ce3d0301070342000402817863de0bc511b9603b0cb41be316ef8752c32e4081687863a51785b3b97117e5823c4e8b7316d57b982e37b7963ee5489615607e828af51336501474a634a350304e300c0603551d130101ff04023000301d0603551d0e041604142cbebdf322fc22f59fad4e24a5bc3fe9b35e4c56301f0603551d23041830168014918689ae24377220a4012319026e7a075f82bdd8300a06082a8648ce3d040302034700304402203b1540dad87b438113c2eb79ef8b0205ef3ccb719e58d6b145d0f50948dac9990220543b0369dd47aea57442e7f5be1c2bc20a27740942117ce50d5970fa75e22d41";

/// Whether the certificate has a subject with this name, and is a CA certificate or not.
fn returns(alloc: Global, octets: &[u8], name: &str, ca: bool) -> Result<bool, CertError> {
    let cert = Cert::from_der(alloc, octets)?;
    let subject = subject(alloc, &cert)?;
    Ok(subject.as_str() == name && is_ca(&cert) == ca)
}

#[test]
fn a_ca(rt: HostRuntime) -> Result<(), Fail> {
    let octets = hex::decode(rt.alloc(), ROOT)?;
    assert!(rt; returns(rt.alloc(), &octets, "CN=Root", true)?);
    Ok(())
}

#[test]
fn the_end_of_a_chain(rt: HostRuntime) -> Result<(), Fail> {
    let octets = hex::decode(rt.alloc(), END)?;
    assert!(rt; returns(rt.alloc(), &octets, "CN=End", false)?);
    Ok(())
}
