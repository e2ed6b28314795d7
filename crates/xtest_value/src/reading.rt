//! Reading an element, and writing it again.

ghost use Rattle.der_core.specs.Encoding.{IsWellFormed};

use der_core::{DerError, DerFault, Malformed, Tree, read_exact, read_first, write};
use std::alloc::Global;

/// An element, and an octet after it.
const OCTETS: [u8; 6] = [0x30, 3, 2, 1, 5, 0xFF];

#[test]
fn read_and_written(rt: HostRuntime) -> Result<(), DerError> {
    let (tree, taken) = read_first(rt.alloc(), &OCTETS)?;
    assert!(rt; taken == 5 && tree.tag() == 0x30);
    assert!(rt; is_written(rt.alloc(), &tree, &OCTETS[..5])?);
    Ok(())
}

#[test]
fn nothing_else_is_exactly_an_element(rt: HostRuntime) -> Result<(), DerError> {
    let tree = read_exact(rt.alloc(), &OCTETS[..5])?;
    assert!(rt; is_written(rt.alloc(), &tree, &OCTETS[..5])?);
    let trailing = Malformed {
        at: 5,
        fault: DerFault::Trailing,
    };
    let refused = read_exact(rt.alloc(), &OCTETS).err();
    assert!(rt; refused == Some(DerError::Malformed(trailing)));
    Ok(())
}

/// Whether a tree is written as these octets.
pub(crate) fn is_written(alloc: Global, tree: &Tree, octets: &[u8]) -> Result<bool, DerError>
    requires { IsWellFormed tree.now }
{
    Ok(write(alloc, tree)?.as_slice() == octets)
}
