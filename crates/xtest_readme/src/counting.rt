//! A search for a path that counts the signatures it verifies.

ghost use Rattle.std.specs.Prelude.{◌≡◌, ◌<◌};

use crate::of_trust_anchors::{CROSS, INT, LEAF, ROOT, certificate, certificates};
use names_core::UtcDate;
use sig_core::{DemoScheme, Scheme};
use std::alloc::Global;
use std::marker::Brand;
use std::sync::ledger::{Blank, Ledger};
use std::test::Fail;
use trust_anchors::{AnchorError, AnchorStore, AnchoredPath, Purpose, Steps};
use x509_core::Cert;

/// The shortest path to an anchor, by a search that counts in a ledger of its own.
fn counted_path<S: Scheme, L: Ledger>(
    alloc: Global,
    anchors: &AnchorStore,
    cert: &Cert,
    pool: &[Cert],
    date: &UtcDate,
    scheme: &S,
    blank: Blank,
) -> Result<Option<AnchoredPath>, AnchorError>
    requires name { blank.name ≡ L.name }
    requires parts { blank.parts ≡ L.parts }
    requires some { 0 < blank.parts }
{
    let mut steps = Steps::<L>::new(blank);
    anchors.find_counted(alloc, cert, pool, Purpose::Code, date, scheme, &mut steps)
}

#[test]
fn counted_search_finds_the_path(rt: HostRuntime) -> Result<(), Fail> {
    let alloc = rt.alloc();
    let mut anchors = AnchorStore::new(alloc);
    anchors.add(certificate(alloc, ROOT)?, true, false)?;
    let leaf = certificate(alloc, LEAF)?;
    let pool = certificates(alloc, &[CROSS, INT])?;
    let year = UtcDate::ymd(2025, 1, 1);
    assert!(rt; year.is_some());
    if let Some(date) = year {
        let scheme = DemoScheme::new();
        let blank = Blank::new(1);
        let found = counted_path::<DemoScheme, Brand>(
            alloc, &anchors, &leaf, &pool, &date, &scheme, blank,
        )?;
        assert!(rt; found.is_some());
        if let Some(path) = found {
            assert_eq!(rt; path.pool.as_slice(), [1].as_slice());
            assert_eq!(rt; path.anchor, 0);
        }
    }
    Ok(())
}
