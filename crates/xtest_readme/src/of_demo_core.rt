//! The steps, the keys and the report of a demonstration.

use demo_core::{Step, Years, demonstrate, history_of, private_key_of};
use std::alloc::Global;
use std::test::Fail;
use x509_core::CertError;

/// How many of so many certificates aren't accepted.
fn refused_count(alloc: Global, count: u8) -> Result<usize, CertError> {
    let report = demonstrate(alloc, count)?;
    Ok(usize::from(report.steps).saturating_sub(report.accepted))
}

#[test]
fn reports(rt: HostRuntime) -> Result<(), Fail> {
    let report = demonstrate(rt.alloc(), 2)?;
    assert_eq!(rt; report.steps, 2);
    assert_eq!(rt; report.roots, 1);
    assert_eq!(rt; report.accepted, 2);
    assert_eq!(rt; hex::encode(rt.alloc(), &report.sum)?.as_str(), SUM);
    assert_eq!(rt; refused_count(rt.alloc(), 3)?, 1);
    Ok(())
}

#[test]
fn draws(rt: HostRuntime) -> Result<(), Fail> {
    let steps = history_of(rt.alloc(), 2)?;
    assert_eq!(rt; steps.as_slice(), &TWO_STEPS[..]);
    Ok(())
}

#[test]
fn reads_keys(rt: HostRuntime) -> Result<(), Fail> {
    let wanted = hex::decode(rt.alloc(), KEY)?;
    let key = private_key_of(rt.alloc(), 0x01_02_03)?;
    assert_eq!(rt; key.to_pkcs1(rt.alloc())?.as_slice(), wanted.as_slice());
    Ok(())
}

/// The SHA-256 of the octets of both certificates, by `tools/golden/demo_lines.py 2`.
const SUM: &str = "fc65a71723ff927bd388b3d6f8515e66365100324313e828199fc011566dd609";

/// The RSAPrivateKey (RFC 8017 A.1.2) with the modulus 01010203.
const KEY: &str = "301e02010002040101020302010302010502010702010b020101020102020104";

/// As `tools/golden/demo_lines.py --steps 2` draws them.
const TWO_STEPS: [Step; 2] = [
    Step {
        issuer: None,
        ca: true,
        path_length: Some(2),
        years: Years {
            first: 2009,
            last: 2034,
        },
    },
    Step {
        issuer: Some(0),
        ca: true,
        path_length: Some(1),
        years: Years {
            first: 2006,
            last: 2025,
        },
    },
];
