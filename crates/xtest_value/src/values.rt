//! Trees, octets and raw elements as values: copying, comparing and storing them.

use crate::reading::is_written;
use der_core::{DerError, Octets, Raw, Tree, Trees, read_back, read_exact};
use std::alloc::{AllocError, Global};

#[test]
fn copies_of_trees(rt: HostRuntime) -> Result<(), DerError> {
    let mut kids = Trees::new(rt.alloc());
    kids.push(read_exact(rt.alloc(), &[5, 0])?)?;
    kids.push(read_exact(rt.alloc(), &[0x31, 2, 4, 0])?)?;
    let tree = Tree::branch(0x30, kids.try_clone(rt.alloc())?);
    let [null, set] = tree.kids().unwrap_or(&[]) else {
        panic!(rt; "there are two kids");
    };
    assert!(rt; null.tag() == 5 && null.content() == Some([].as_slice()));
    assert!(rt; set.tag() == 0x31 && set.content().is_none());
    Ok(())
}

/// An element of two levels.
const SEQUENCE: [u8; 5] = [0x30, 3, 2, 1, 5];

#[test]
fn kept_octets(rt: HostRuntime) -> Result<(), DerError> {
    let raw = kept(rt.alloc(), &SEQUENCE)?;
    assert!(rt; raw.tag() == 0x30 && raw.nesting() == 2);
    assert!(rt; Octets::from_slice(rt.alloc(), raw.as_bytes())?.as_slice() == SEQUENCE.as_slice());
    Ok(())
}

#[test]
fn copies_of_kept_octets(rt: HostRuntime) -> Result<(), DerError> {
    let copy = kept(rt.alloc(), &SEQUENCE)?.try_clone(rt.alloc())?;
    assert!(rt; copy.as_bytes() == SEQUENCE.as_slice());
    let again = copy.tree(rt.alloc())?.try_clone(rt.alloc())?;
    assert!(rt; is_written(rt.alloc(), &again, &SEQUENCE)?);
    assert!(rt; read_back(rt.alloc(), &again)?.tag() == 0x30);
    Ok(())
}

fn kept(alloc: Global, octets: &[u8]) -> Result<Raw, DerError> {
    Raw::from_tree(alloc, &read_exact(alloc, octets)?)
}

#[test]
fn equal_octets(rt: HostRuntime) -> Result<(), AllocError> {
    let octets = Octets::from(Vec::from_slice(rt.alloc(), &[2, 1, 5])?);
    assert!(rt; octets == Octets::from_slice(rt.alloc(), &[2, 1, 5])?);
    assert!(rt; octets != Octets::from_slice(rt.alloc(), &[2, 1])?);
    Ok(())
}

#[test]
fn equal_kept_elements(rt: HostRuntime) -> Result<(), DerError> {
    let five = kept(rt.alloc(), &[2, 1, 5])?;
    assert!(rt; five == five.try_clone(rt.alloc())?);
    assert!(rt; five != kept(rt.alloc(), &[2, 1, 6])?);
    Ok(())
}
