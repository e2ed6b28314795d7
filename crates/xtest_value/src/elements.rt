//! Elements whose length needs several octets, and elements at the maximal depth, read and written.

ghost use Rattle.std.specs.Prelude.{IfOk};
ghost use Rattle.der_core.specs.Encoding.{IsWellFormed};

use der_core::{DerError, Raw, Tree, Trees, read_exact, read_first, write};
use std::alloc::{AllocError, Global};
use std::test::Fail;

// The identifier octet and the length of an element, and how many octets are in it.
#[rattlefmt::skip]
const LONG: [(&[u8], usize); 8] = [
    (&[4, 0x7F],                    127),
    (&[4, 0x81, 0x80],              128),
    (&[4, 0x81, 0xFF],              255),
    (&[4, 0x82, 1, 0],              256),
    (&[4, 0x82, 0xFF, 0xFF],        65_535),
    (&[4, 0x83, 1, 0, 0],           65_536),
    (&[4, 0x83, 0xFF, 0xFF, 0xFF],  16_777_215),
    (&[4, 0x84, 1, 0, 0, 0],        16_777_216),
];

#[test]
fn long_elements_are_read_and_written(rt: HostRuntime) -> Result<(), DerError> {
    for (head, size) in LONG {
        assert!(rt; is_read_and_written(rt.alloc(), head, size)?, "{size}");
    }
    Ok(())
}

fn is_read_and_written(alloc: Global, head: &[u8], size: usize) -> Result<bool, DerError> {
    let mut octets = Vec::from_slice(alloc, head)?;
    octets.append(&mut vec![in alloc; 0xAAu8; size]?)?;
    let (tree, taken) = read_first(alloc, &octets)?;
    Ok(taken == octets.len() && write(alloc, &tree)?.as_slice() == octets.as_slice())
}

// 64 levels, the most that are read and written: each element contains only the next.
const DEEPEST: &str =
    "307e307c307a30783076307430723070306e306c306a30683066306430623060305e305c305a30583056305430523050304e304c304a30483046304430423040303e303c303a30383036303430323030302e302c302a30283026302430223020301e301c301a30183016301430123010300e300c300a30083006300430023000";

#[test]
fn a_tree_of_65_levels_is_not_written(rt: HostRuntime) -> Result<(), Fail> {
    let octets = hex::decode(rt.alloc(), DEEPEST)?;
    let deepest = read_exact(rt.alloc(), &octets)?;
    assert!(rt; write(rt.alloc(), &deepest)?.as_slice() == octets.as_slice());
    assert!(rt; Raw::from_tree(rt.alloc(), &deepest)?.nesting() == 64);

    let deeper = wrapped(rt.alloc(), deepest)?;
    assert!(rt; write(rt.alloc(), &deeper).err() == Some(DerError::TooDeep));
    assert!(rt; Raw::from_tree(rt.alloc(), &deeper).err() == Some(DerError::TooDeep));
    Ok(())
}

// The tree as the one kid of a sequence.
fn wrapped(alloc: Global, tree: Tree) -> Result<Tree, AllocError>
    requires { IsWellFormed tree }
    ensures { IfOk result (λ wrapper. IsWellFormed wrapper) }
{
    let mut kids = Trees::new(alloc);
    kids.push(tree)?;
    Ok(Tree::branch(0x30, kids))
}
