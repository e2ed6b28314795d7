//! A run of the program over files in memory.

use picky_check::{MemShelf, MemSink, run};
use std::alloc::{AllocError, Global};
use std::test::Fail;

/// The exit status of `picky` over the files `sig` and `table`. Its line goes to the sink.
fn status(
    alloc: Global,
    words: &[String],
    (signature, table): (&[u8], &str),
    out: &mut MemSink,
) -> Result<u8, AllocError> {
    let mut shelf = MemShelf::new(alloc);
    shelf.add("sig", signature)?;
    shelf.add("table", table.as_bytes())?;
    Ok(run(alloc, words, &mut shelf, out))
}

#[test]
fn runs(rt: HostRuntime) -> Result<(), Fail> {
    let file = hex::decode(rt.alloc(), FILE)?;
    let words = words_of(rt.alloc(), &["basic", "sig", "table", HASH])?;
    let mut sink = MemSink::with_room(rt.alloc(), 100)?;
    assert!(rt; status(rt.alloc(), &words, (file.as_slice(), TABLE), &mut sink)? == 0);
    assert!(rt; sink.held() == LINE.as_bytes());
    Ok(())
}

fn words_of(alloc: Global, texts: &[&str]) -> Result<Vec<String>, AllocError> {
    let mut words = Vec::new(alloc);
    for text in texts {
        words.push(String::from_str(alloc, text)?)?;
    }
    Ok(words)
}

/// A signature over the SHA-256 of `abc`, which `tools/cases/first_path.py` puts together.
#[rattlefmt::skip]
const FILE: &str = "be01000000020200308201b206092a864886f70d010702a08201a33082019f020101310f300d06096086480165030402010500305c060a2b060104018237020104a04e304c3017060a2b06010401823702010f3009030100a004a20280003031300d060960864801650304020105000420ba7816bf8f01cfea414140de5dae2223b00361a396177a9cb410ff61f20015ada08187308184306fa003020102020101300d06092a864886f70d01010b0500300c310a300806035504030c0141301e170d3230303130313030303030305a170d3330303130313030303030305a300c310a300806035504030c0141301a300d06092a864886f70d01010105000309003006020111020103300d06092a864886f70d01010b0500030200bba10031819e30819b0201013011300c310a300806035504030c0141020101300d06096086480165030402010500a062301906092a864886f70d010903310c060a2b0601040182370201043014060a2b06010401823702010c31063004a1028000302f06092a864886f70d010904312204206b00646e9ba32b38bcdfe80a0e22b4671c4d01316d815cc7bb60626b24aa2832300d06092a864886f70d01010105000401aa";

/// The SHA-256 of `abc` (FIPS 180-4).
const HASH: &str = "ba7816bf8f01cfea414140de5dae2223b00361a396177a9cb410ff61f20015ad";

/// The row of its signature: the SHA-256 of the key, of the attributes and of the signature.
#[rattlefmt::skip]
const TABLE: &str = "rsa-sha256 aa84156bf64f92fa38950f9cb52fb93803299ee23adfb6598a50976c88af298a a7e5bb78b1420d7ec6cb2567339cff29e327dd68cb1427391e782def2db15fee bceef655b5a034911f1c3718ce056531b45ef03b4c7b1f15629e867294011a7d\n";

/// What a verified signature by the first certificate gives.
const LINE: &str = "accepted signer=0 path= excuse=none\n";
