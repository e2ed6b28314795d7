//! A caller that cites the laws over runs.

ghost use Rattle.std.specs.Prelude.{Contains, IsTrue, map, string_bytes};
ghost use Rattle.key_core.specs.Verifying.{Judge};
ghost use Rattle.picky_check.specs.Vouched.{IsVouched};
ghost use Rattle.vouching.specs.Listing.{IsListed, listed_questions};
ghost use Rattle.vouching.specs.ReadSame.{ReadSame};
ghost use Rattle.vouching.specs.Verified.{AreToldApart, AreVerified};
ghost use Rattle.vouching.specs.VouchedBy.{IsVouchedBy, rows_of};

use crate::{asked_runs_are_listed, listed_runs_are_vouched_for};
use program_frame::{ACCEPTED, Shelf, Sink};
use std::alloc::Global;
use std::test::Fail;

/// Asks for the questions about SIG, then checks SIG by a table. If both are accepted, SIG is vouched
/// for by each verifier that accepted the lines whose digests the accepting rows of the table have,
/// as long as no two different lines have the same digests.
fn ask_and_check<F: Shelf, O: Sink>(
    alloc: Global,
    asks: &[String],
    words: &[String],
    shelf: &mut F,
    lines: &mut O,
    out: &mut O,
) -> bool
    ensures { IsTrue result → (between : F)
        × (ask : IsListed (map string_bytes asks.now) (F.state shelf.old) (F.state between)
        (O.state lines.old).held (O.state lines.new).held)
        × (run : IsVouched (map string_bytes words.now) (F.state between) (F.state shelf.new)
        (O.state out.old).held (O.state out.new).held)
        × ((judge : Judge) → ReadSame ask run
        → AreVerified judge (listed_questions ask) (rows_of run)
        → AreToldApart (Contains (listed_questions ask)) → IsVouchedBy judge run) }
{
    // the laws; the calls do nothing
    asked_runs_are_listed::<F>();
    listed_runs_are_vouched_for::<F, F>();
    signature_questions::run(alloc, asks, shelf, lines) == ACCEPTED
        && picky_check::run(alloc, words, shelf, out) == ACCEPTED
}

#[test]
fn asks_and_checks(rt: HostRuntime) -> Result<(), Fail> {
    let alloc = rt.alloc();
    let mut shelf = program_frame::MemShelf::new(alloc);
    shelf.add("sig", &hex::decode(alloc, FILE)?)?;
    shelf.add("table", TABLE.as_bytes())?;
    let asks = words_of(alloc, &["sig"])?;
    let words = words_of(alloc, &["basic", "sig", "table", HASH])?;
    let mut lines = program_frame::MemSink::with_room(alloc, 2000)?;
    let mut out = program_frame::MemSink::with_room(alloc, 100)?;
    assert!(rt; ask_and_check(alloc, &asks, &words, &mut shelf, &mut lines, &mut out));
    // the one line begins as the row does
    let row = TABLE.trim_end().as_bytes();
    assert!(rt; lines.held().starts_with(row));
    Ok(())
}

fn words_of(alloc: Global, texts: &[&str]) -> Result<Vec<String>, Fail> {
    let mut words = Vec::new(alloc);
    for text in texts {
        words.push(String::from_str(alloc, text)?)?;
    }
    Ok(words)
}

/// A signature over the SHA-256 of `abc`, which `tools/cases/first_path.py` puts together.
#[rattlefmt::skip]
const FILE: &str = "be01000000020200308201b206092a864886f70d010702a08201a33082019f020101310f300d06096086480165030402010500305c060a2b060104018237020104a04e304c3017060a2b06010401823702010f3009030100a004a20280003031300d060960864801650304020105000420ba7816bf8f01cfea414140de5dae2223b00361a396177a9cb410ff61f20015ada08187308184306fa003020102020101300d06092a864886f70d01010b0500300c310a300806035504030c0141301e170d3230303130313030303030305a170d3330303130313030303030305a300c310a300806035504030c0141301a300d06092a864886f70d01010105000309003006020111020103300d06092a864886f70d01010b0500030200bba10031819e30819b0201013011300c310a300806035504030c0141020101300d06096086480165030402010500a062301906092a864886f70d010903310c060a2b0601040182370201043014060a2b06010401823702010c31063004a1028000302f06092a864886f70d010904312204206b00646e9ba32b38bcdfe80a0e22b4671c4d01316d815cc7bb60626b24aa2832300d06092a864886f70d01010105000401aa";

/// The SHA-256 of `abc` (FIPS 180-4).
const HASH: &str = "ba7816bf8f01cfea414140de5dae2223b00361a396177a9cb410ff61f20015ad";

/// The row of its signature: the SHA-256 of the key, of the attributes and of the signature.
#[rattlefmt::skip]
const TABLE: &str = "rsa-sha256 aa84156bf64f92fa38950f9cb52fb93803299ee23adfb6598a50976c88af298a a7e5bb78b1420d7ec6cb2567339cff29e327dd68cb1427391e782def2db15fee bceef655b5a034911f1c3718ce056531b45ef03b4c7b1f15629e867294011a7d\n";
