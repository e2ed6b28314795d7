//! Files with one octet changed.

use anyhow::{Result, bail};
use std::alloc::Global;
use xgolden::octets_of;

/// A copy of a file with another octet, by its offset in two octets and the octet.
pub fn changed(alloc: Global, file: &[u8], change: &str) -> Result<Vec<u8>> {
    let change = octets_of(alloc, change)?;
    let [high, low, octet] = change.as_slice() else {
        bail!("a change has three octets");
    };
    let place = usize::from(u16::from_be_bytes([*high, *low]));
    let mut copy = Vec::from_slice(alloc, file)?;
    let Some(there) = copy.get_mut(place) else {
        bail!("no octet is at the offset of a change");
    };
    *there = *octet;
    Ok(copy)
}
