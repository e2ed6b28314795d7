//! Lists of names.

use names_core::{DirectoryName, NameList};
use std::test::Fail;

#[test]
fn names_in_order(rt: HostRuntime) -> Result<(), Fail> {
    let mut names = NameList::new(rt.alloc());
    names.push(DirectoryName::new(rt.alloc()))?;
    names.push(DirectoryName::new_common_name(rt.alloc(), "A")?)?;
    let copy = names.try_clone(rt.alloc())?;
    assert!(rt; names == copy);
    let mut each = copy.iter();
    let (Some(first), Some(second), None) = (each.next(), each.next(), each.next()) else {
        return Err(Fail::from("the list doesn't have two names"));
    };
    assert!(rt; first.find_common_name().is_none() && second.find_common_name().is_some());
    Ok(())
}
