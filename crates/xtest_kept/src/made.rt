//! The signature file, verdict tables for it, and its policy.

use authenticode_core::Policy;
use der_core::Octets;
use sig_core::VerdictTable;
use std::alloc::{AllocError, Global};
use std::test::Fail;

/// The file, which signs the digest of `abc`.
#[rattlefmt::skip]
pub(crate) const FILE: &str = "be01000000020200308201b206092a864886f70d010702a08201a33082019f020101310f300d06096086480165030402010500305c060a2b060104018237020104a04e304c3017060a2b06010401823702010f3009030100a004a20280003031300d060960864801650304020105000420ba7816bf8f01cfea414140de5dae2223b00361a396177a9cb410ff61f20015ada08187308184306fa003020102020101300d06092a864886f70d01010b0500300c310a300806035504030c0141301e170d3230303130313030303030305a170d3330303130313030303030305a300c310a300806035504030c0141301a300d06092a864886f70d01010105000309003006020111020103300d06092a864886f70d01010b0500030200bba10031819e30819b0201013011300c310a300806035504030c0141020101300d06096086480165030402010500a062301906092a864886f70d010903310c060a2b0601040182370201043014060a2b06010401823702010c31063004a1028000302f06092a864886f70d010904312204206b00646e9ba32b38bcdfe80a0e22b4671c4d01316d815cc7bb60626b24aa2832300d06092a864886f70d01010105000401aa";

pub(crate) const FILE_HASH: &str =
    "ba7816bf8f01cfea414140de5dae2223b00361a396177a9cb410ff61f20015ad";

/// The SHA-256 of its key, of the signed attributes as a SET, and of its signature.
#[rattlefmt::skip]
pub(crate) const DIGESTS: &str = " aa84156bf64f92fa38950f9cb52fb93803299ee23adfb6598a50976c88af298a a7e5bb78b1420d7ec6cb2567339cff29e327dd68cb1427391e782def2db15fee bceef655b5a034911f1c3718ce056531b45ef03b4c7b1f15629e867294011a7d\n";

/// A verdict table for the file's key, attributes and signature, with these algorithms.
pub(crate) fn table(alloc: Global, names: &[&str]) -> Result<VerdictTable, Fail> {
    let mut text = String::new(alloc);
    for name in names {
        text.push_str(name)?;
        text.push_str(DIGESTS)?;
    }
    Ok(VerdictTable::parse(alloc, text.as_bytes())?)
}

/// A table of version 2 with these verdicts on the file's signature by RSA with SHA-256, in this
/// order.
pub(crate) fn table_saying(alloc: Global, verdicts: &[&str]) -> Result<VerdictTable, Fail> {
    let mut text = String::from_str(alloc, "picky-verdicts 2\n")?;
    for verdict in verdicts {
        text.push_str(verdict)?;
        text.push_str(" rsa-sha256")?;
        text.push_str(DIGESTS)?;
    }
    Ok(VerdictTable::parse(alloc, text.as_bytes())?)
}

/// Basic validation alone, for a file with this digest.
pub(crate) fn basic_policy(alloc: Global, hash: &[u8]) -> Result<Policy<'static>, AllocError> {
    let mut policy = Policy::new(alloc);
    policy.file_hash = Some(Octets::from_slice(alloc, hash)?);
    policy.signing = false;
    Ok(policy)
}
