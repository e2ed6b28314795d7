//! A signature file that is checked.

use authenticode_core::{Accepted, CheckError, DateCheck, Policy, check_wincert};
use der_core::Octets;
use names_core::UtcDate;
use sig_core::VerdictTable;
use std::alloc::Global;
use std::test::Fail;

/// Checks a signature file: the digest that its program is to have, the signature over it, and the
/// signer's certificate at a date. The table has the verdicts on the signatures in the file.
fn check(
    alloc: Global,
    file: &[u8],
    hash: &[u8],
    date: UtcDate,
    table: &VerdictTable,
) -> Result<Accepted, CheckError> {
    let mut policy = Policy::new(alloc);
    policy.file_hash = Some(Octets::from_slice(alloc, hash)?);
    policy.date = DateCheck::Exact(date);
    check_wincert(alloc, file, &policy, table)
}

#[test]
fn checks(rt: HostRuntime) -> Result<(), Fail> {
    let file = hex::decode(rt.alloc(), FILE)?;
    let hash = hex::decode(rt.alloc(), HASH)?;
    let table = VerdictTable::parse(rt.alloc(), TABLE.as_bytes())?;
    assert!(rt; is_accepted_in(rt.alloc(), &file, &hash, 2025, &table));
    assert!(rt; !is_accepted_in(rt.alloc(), &file, &hash, 2019, &table));
    assert!(rt; !is_accepted_in(rt.alloc(), &file, &[1], 2025, &table));
    Ok(())
}

/// Whether the file is accepted on the 15th of June of a year, by its certificate 0.
fn is_accepted_in(
    alloc: Global,
    file: &[u8],
    hash: &[u8],
    year: u16,
    table: &VerdictTable,
) -> bool {
    match UtcDate::ymd(year, 6, 15) {
        Some(date) => match check(alloc, file, hash, date, table) {
            Ok(accepted) => accepted.signer == Some(0),
            Err(_) => false,
        },
        None => false,
    }
}

/// A signature over the SHA-256 of `abc` by a certificate from 2020 to 2029, which
/// `tools/cases/first_path.py` puts together.
#[rattlefmt::skip]
const FILE: &str = "be01000000020200308201b206092a864886f70d010702a08201a33082019f020101310f300d06096086480165030402010500305c060a2b060104018237020104a04e304c3017060a2b06010401823702010f3009030100a004a20280003031300d060960864801650304020105000420ba7816bf8f01cfea414140de5dae2223b00361a396177a9cb410ff61f20015ada08187308184306fa003020102020101300d06092a864886f70d01010b0500300c310a300806035504030c0141301e170d3230303130313030303030305a170d3330303130313030303030305a300c310a300806035504030c0141301a300d06092a864886f70d01010105000309003006020111020103300d06092a864886f70d01010b0500030200bba10031819e30819b0201013011300c310a300806035504030c0141020101300d06096086480165030402010500a062301906092a864886f70d010903310c060a2b0601040182370201043014060a2b06010401823702010c31063004a1028000302f06092a864886f70d010904312204206b00646e9ba32b38bcdfe80a0e22b4671c4d01316d815cc7bb60626b24aa2832300d06092a864886f70d01010105000401aa";

/// The SHA-256 of `abc` (FIPS 180-4).
const HASH: &str = "ba7816bf8f01cfea414140de5dae2223b00361a396177a9cb410ff61f20015ad";

/// The row of its signature: the SHA-256 of the key, of the attributes and of the signature.
#[rattlefmt::skip]
const TABLE: &str = "rsa-sha256 aa84156bf64f92fa38950f9cb52fb93803299ee23adfb6598a50976c88af298a a7e5bb78b1420d7ec6cb2567339cff29e327dd68cb1427391e782def2db15fee bceef655b5a034911f1c3718ce056531b45ef03b4c7b1f15629e867294011a7d\n";
