//! Indices, and the fields of an accepted signature.

use crate::made::{FILE, FILE_HASH, basic_policy, table};
use authenticode_core::{Accepted, Excuse, Places, check_wincert};
use std::test::Fail;

#[test]
fn accepted(rt: HostRuntime) -> Result<(), Fail> {
    let file = hex::decode(rt.alloc(), FILE)?;
    let hash = hex::decode(rt.alloc(), FILE_HASH)?;
    let table = table(rt.alloc(), &["rsa-sha256"])?;
    let policy = basic_policy(rt.alloc(), &hash)?;
    let accepted = check_wincert(rt.alloc(), &file, &policy, &table)?;
    assert_eq!(rt; accepted.signer, Some(0));
    assert!(rt; accepted.path.as_slice().is_empty());
    assert_eq!(rt; accepted.excuse, Excuse::None);
    Ok(())
}

#[test]
fn places(rt: HostRuntime) -> Result<(), Fail> {
    let mut path = Places::new(rt.alloc());
    assert!(rt; path.as_slice().is_empty());
    path.push(7)?;
    path.push(usize::MAX)?;
    assert_eq!(rt; path.as_slice(), [7, usize::MAX].as_slice());
    let accepted = Accepted {
        signer: Some(3),
        path,
        excuse: Excuse::Token,
    };
    let copy = accepted.try_clone(rt.alloc())?;
    assert_eq!(rt; copy.signer, Some(3));
    assert_eq!(rt; copy.path.as_slice(), [7, usize::MAX].as_slice());
    assert_eq!(rt; copy.excuse, Excuse::Token);
    Ok(())
}
