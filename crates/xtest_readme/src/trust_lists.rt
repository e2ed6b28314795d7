//! Whether a CA is listed on a trust list.

use cms_content::{Ctl, ListingError, expect_listed};
use der_core::{DerError, Structure};
use std::alloc::Global;
use std::test::Fail;

/// Why a CA isn't listed in a trust list now, by the octets of its name; None if it is.
fn refusal(
    alloc: Global,
    list: &[u8],
    name: &[u8],
    now: i64,
) -> Result<Option<ListingError>, DerError> {
    let list = Ctl::from_der(alloc, list)?;
    Ok(expect_listed(list.entries(), name, now).err())
}

#[test]
fn listed_until(rt: HostRuntime) -> Result<(), Fail> {
    let list = hex::decode(rt.alloc(), LIST)?;
    let name = hex::decode(rt.alloc(), NAME)?;
    let last = 13_400_000_000;
    let now = last + 1;
    assert_eq!(rt; refusal(rt.alloc(), &list, &name, last)?, None);
    assert_eq!(rt;
        refusal(rt.alloc(), &list, &name, now)?,
        Some(ListingError::Expired {
            not_after: last,
            now
        })
    );
    assert_eq!(rt;
        refusal(rt.alloc(), &list, &name[..0], now)?,
        Some(ListingError::NotListed)
    );
    Ok(())
}

/// The Name CN=A.
const NAME: &str = "300c310a300806035504030c0141";

/// A list with an entry of this name that ends in 2025, as `tools/cases/listing_rows.py` puts it together.
#[rattlefmt::skip]
const LIST: &str = "3072300c060a2b0601040182370a0309170d3236303130313030303030305a300d06096086480165030402010500304430420402aabb313c3020060a2b0601040182370a0b1d31120410f332517fa27068761515d99d33b11a143018060a2b0601040182370a0b68310a04080000e73f4a10dc01";
