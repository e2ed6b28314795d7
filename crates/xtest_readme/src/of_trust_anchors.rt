//! A path from a certificate to a trust anchor.

use names_core::UtcDate;
use sig_core::{DemoScheme, Scheme};
use std::alloc::Global;
use std::test::Fail;
use trust_anchors::{AnchorError, AnchorStore, AnchoredPath, Purpose};
use x509_core::Cert;

/// The shortest path from a signer's certificate to a root that is trusted for signing code.
fn path_of<S: Scheme>(
    alloc: Global,
    signer: &Cert,
    others: &[Cert],
    root: Cert,
    date: &UtcDate,
    scheme: &S,
) -> Result<Option<AnchoredPath>, AnchorError> {
    let mut anchors = AnchorStore::new(alloc);
    anchors.add(root, true, false)?;
    anchors.find(alloc, signer, others, Purpose::Code, date, scheme)
}

#[test]
fn path_to_a_root(rt: HostRuntime) -> Result<(), Fail> {
    let alloc = rt.alloc();
    let leaf = certificate(alloc, LEAF)?;
    let others = certificates(alloc, &[CROSS, INT])?;
    let (root, year) = (certificate(alloc, ROOT)?, UtcDate::ymd(2025, 1, 1));
    assert!(rt; year.is_some());
    if let Some(date) = year {
        let path = path_of(alloc, &leaf, &others, root, &date, &DemoScheme::new())?;
        assert!(rt; path.is_some());
        if let Some(path) = path {
            assert_eq!(rt; path.pool.as_slice(), [1].as_slice());
            assert_eq!(rt; path.anchor, 0);
        }
    }
    Ok(())
}

#[test]
fn anchors_are_limited(rt: HostRuntime) -> Result<(), Fail> {
    let alloc = rt.alloc();
    let mut anchors = AnchorStore::new(alloc);
    for _ in 0..64 {
        anchors.add(certificate(alloc, ROOT)?, true, false)?;
    }
    let refused = anchors.add(certificate(alloc, ROOT)?, true, false);
    assert!(rt; matches!(&refused, Err(AnchorError::TooMany { count: 65 })));
    assert_eq!(rt; anchors.len(), 64);
    Ok(())
}

#[test]
fn pool_is_limited(rt: HostRuntime) -> Result<(), Fail> {
    let alloc = rt.alloc();
    let leaf = certificate(alloc, LEAF)?;
    let mut others = Vec::new(alloc);
    for _ in 0..255 {
        others.push(certificate(alloc, CROSS)?)?;
    }
    others.push(certificate(alloc, INT)?)?;
    let year = UtcDate::ymd(2025, 1, 1);
    assert!(rt; year.is_some());
    if let Some(date) = year {
        let scheme = DemoScheme::new();
        let root = certificate(alloc, ROOT)?;
        let path = path_of(alloc, &leaf, &others, root, &date, &scheme)?;
        assert!(rt; path.is_some());
        if let Some(path) = path {
            assert_eq!(rt; path.pool.as_slice(), [255].as_slice());
        }
        others.push(certificate(alloc, INT)?)?;
        let root = certificate(alloc, ROOT)?;
        let refused = path_of(alloc, &leaf, &others, root, &date, &scheme);
        assert!(rt; matches!(&refused, Err(AnchorError::TooMany { count: 257 })));
    }
    Ok(())
}

pub(crate) fn certificate(alloc: Global, text: &str) -> Result<Cert, Fail> {
    Ok(Cert::from_der(alloc, &hex::decode(alloc, text)?)?)
}

pub(crate) fn certificates(alloc: Global, texts: &[&str]) -> Result<Vec<Cert>, Fail> {
    let mut certificates = Vec::new(alloc);
    for text in texts {
        certificates.push(certificate(alloc, text)?)?;
    }
    Ok(certificates)
}

/// A root, as `tools/cases/anchor_rows.py` puts it together; its key signed it and those below by
/// the demonstration scheme.
#[rattlefmt::skip]
pub(crate) const ROOT: &str = "3081bc30818fa003020102020101300506032b6570300f310d300b06035504030c04526f6f74301e170d3230303130313030303030305a170d3330303130313030303030305a300f310d300b06035504030c04526f6f74302a300506032b657003210044cb005ee2e65d9cc817b0a083579369fb6c24a4be728cb43fd9d4c3ca7f4c2ea310300e300c0603551d13040530030101ff300506032b6570032100f3042df659542907c61af73d065272351516505d59d03ffac5a31f37a5292a75";

/// An intermediate that the root issued.
#[rattlefmt::skip]
pub(crate) const INT: &str = "3081bb30818ea003020102020101300506032b6570300f310d300b06035504030c04526f6f74301e170d3230303130313030303030305a170d3330303130313030303030305a300e310c300a06035504030c03496e74302a300506032b65700321000b5f608070c6ce3bc711621b8371e71901bdf196dbdf04807b513f75346b7018a310300e300c0603551d13040530030101ff300506032b6570032100fe35e83e3ad8b1695bfadd97a69227957a3f30a933c2a4890716e5afcb9bca4f";

/// Of the same name and key, issued by a root that isn't given.
#[rattlefmt::skip]
pub(crate) const CROSS: &str = "3081c0308193a003020102020101300506032b657030143112301006035504030c09456c73657768657265301e170d3230303130313030303030305a170d3330303130313030303030305a300e310c300a06035504030c03496e74302a300506032b65700321000b5f608070c6ce3bc711621b8371e71901bdf196dbdf04807b513f75346b7018a310300e300c0603551d13040530030101ff300506032b6570032100ad0fe34a2d6c7f8770a68d7c2823a33d63fd29956b39179277c83742ef431845";

/// What the intermediate issued.
#[rattlefmt::skip]
pub(crate) const LEAF: &str = "3081bb30818ea003020102020101300506032b6570300e310c300a06035504030c03496e74301e170d3230303130313030303030305a170d3330303130313030303030305a300f310d300b06035504030c044c656166302a300506032b6570032100b83382a973db8ecae8dcf9e6a712895ab07adb074833dc4b823676c4716f8658a310300e300c0603551d1304053003010100300506032b6570032100adfcdcc2cbeee6dd83ad355da5fbb7ffc0e7f4eadbe9605e035aef030b66aa21";
