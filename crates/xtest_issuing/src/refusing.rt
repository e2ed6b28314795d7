//! Which certificates aren't issued, and for which reason: of several the first.

use crate::authority::{child, grant, key_of, name_of, with_leaf, with_root};
use ca_register::{IssueError, Register};
use key_core::{PrivateKey, SignatureError};
use sig_core::DemoScheme;
use std::alloc::Global;
use std::test::Fail;

/// Nothing was added.
fn is_as_before(register: &Register<DemoScheme>, len: usize) -> bool {
    register.len() == len && register.entry(len).is_none() && register.certificate(len).is_none()
}

#[test]
fn refuses_a_root_that_is_no_ca(rt: HostRuntime) -> Result<(), Fail> {
    let mut register = with_root(rt.alloc())?;
    let key = key_of(rt.alloc(), 17)?;
    let name = name_of(rt.alloc(), "R")?;
    let refused = register.root(name, &key, grant(false, None, (2020, 2030))?, 1);
    assert!(rt; matches!(&refused, Err(IssueError::NotCa)));
    assert!(rt; is_as_before(&register, 1));
    Ok(())
}

#[test]
fn refuses_an_issuer_that_is_none(rt: HostRuntime) -> Result<(), Fail> {
    let mut register = with_leaf(rt.alloc())?;
    let of_child = grant(false, None, (2022, 2023))?;
    let refused = child(rt.alloc(), &mut register, (3, 17), ("X", 20), of_child)?;
    assert!(rt; matches!(&refused, Err(IssueError::NoIssuer { issuer: 3, len: 3 })));
    assert!(rt; is_as_before(&register, 3));
    Ok(())
}

#[test]
fn refuses_an_issuer_that_is_no_ca(rt: HostRuntime) -> Result<(), Fail> {
    let mut register = with_leaf(rt.alloc())?;
    let of_child = grant(false, None, (2022, 2023))?;
    let refused = child(rt.alloc(), &mut register, (2, 19), ("X", 20), of_child)?;
    // the intermediate's path length is too short as well
    assert!(rt; matches!(&refused, Err(IssueError::NotCa)));
    assert!(rt; is_as_before(&register, 3));
    Ok(())
}

#[test]
fn refuses_a_path_that_is_too_deep(rt: HostRuntime) -> Result<(), Fail> {
    let mut register = with_leaf(rt.alloc())?;
    let of_middle = grant(true, None, (2022, 2023))?;
    let middle = child(rt.alloc(), &mut register, (1, 18), ("M", 20), of_middle)??;
    let of_child = grant(false, None, (2022, 2023))?;
    let refused = child(rt.alloc(), &mut register, (middle, 20), ("X", 21), of_child)?;
    assert!(rt; matches!(&refused, Err(IssueError::TooDeep { ancestor: 1 })));
    // a key that isn't the issuer's is found later
    let also = child(rt.alloc(), &mut register, (middle, 17), ("X", 21), of_child)?;
    assert!(rt; matches!(&also, Err(IssueError::TooDeep { ancestor: 1 })));
    assert!(rt; is_as_before(&register, 4));
    Ok(())
}

/// A chain of CAs with path lengths from 2 down, under a root with none: as many are issued.
#[test]
fn allows_as_many_as_the_path_length(rt: HostRuntime) -> Result<(), Fail> {
    let mut register = with_root(rt.alloc())?;
    let first = grant(true, Some(2), (2020, 2030))?;
    let free = grant(true, None, (2020, 2030))?;
    assert_eq!(rt;
        child(rt.alloc(), &mut register, (0, 17), ("A", 18), first)??,
        1
    );
    assert_eq!(rt;
        child(rt.alloc(), &mut register, (1, 18), ("B", 19), free)??,
        2
    );
    assert_eq!(rt;
        child(rt.alloc(), &mut register, (2, 19), ("C", 20), free)??,
        3
    );
    assert_eq!(rt;
        child(rt.alloc(), &mut register, (3, 20), ("D", 21), free)??,
        4
    );
    let refused = child(rt.alloc(), &mut register, (4, 21), ("E", 22), free)?;
    assert!(rt; matches!(&refused, Err(IssueError::TooDeep { ancestor: 3 })));
    Ok(())
}

#[test]
fn refuses_the_key_of_another(rt: HostRuntime) -> Result<(), Fail> {
    let mut register = with_leaf(rt.alloc())?;
    let of_child = grant(false, None, (2022, 2023))?;
    let refused = child(rt.alloc(), &mut register, (1, 17), ("X", 20), of_child)?;
    assert!(rt;
        matches!(
            &refused,
            Err(IssueError::WrongKey(SignatureError::BadSignature))
        )
    );
    assert!(rt; is_as_before(&register, 3));
    Ok(())
}

/// An Ed25519 key (RFC 8410 10.3) doesn't sign with RSA, which certificates are signed with.
#[rattlefmt::skip]
const ED_KEY: &str = "302e020100300506032b657004220420d4ee72dbf913584ad5b6d8f1f769f8ad3afe7c28cbf1d4fbe097a88f44755842";

fn ed_key(alloc: Global) -> Result<PrivateKey, Fail> {
    let octets = hex::decode(alloc, ED_KEY)?;
    Ok(PrivateKey::from_pkcs8(alloc, &octets, &DemoScheme::new())?)
}

#[test]
fn refuses_what_is_not_built(rt: HostRuntime) -> Result<(), Fail> {
    let mut register = with_root(rt.alloc())?;
    let key = ed_key(rt.alloc())?;
    let of_child = grant(false, None, (2022, 2023))?;
    let public = key_of(rt.alloc(), 18)?.to_public_key(rt.alloc())?;
    let name = name_of(rt.alloc(), "X")?;
    let refused = register.child(0, &key, name, public, of_child, 2);
    assert!(rt; matches!(&refused, Err(IssueError::Build(_))));
    assert!(rt; is_as_before(&register, 1));
    Ok(())
}
