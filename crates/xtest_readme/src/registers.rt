//! The lines of a register, and what they may not be.

use ca_register::lines_of;
use program_frame::Stop;
use std::alloc::Global;
use std::test::Fail;

/// How many of the certificates of a register are roots.
fn root_count(alloc: Global, text: &[u8]) -> Result<usize, Stop> {
    let lines = lines_of(alloc, text)?;
    Ok(lines.iter().filter(|line| line.issuer.is_none()).count())
}

#[test]
fn counts_roots(rt: HostRuntime) -> Result<(), Fail> {
    let alloc = rt.alloc();
    assert_eq!(rt; root_count(alloc, REGISTER.as_bytes()).ok(), Some(1));
    assert_eq!(rt; root_count(alloc, b"").ok(), Some(0));
    Ok(())
}

#[test]
fn reads_the_words_of_a_line(rt: HostRuntime) -> Result<(), Fail> {
    let lines = lines_of(rt.alloc(), REGISTER.as_bytes())?;
    let [root, ca, leaf] = lines.as_slice() else {
        return Err(Fail::from("it has three lines"));
    };
    assert!(rt; root.issuer.is_none() && root.ca && root.limits.path_length.is_none());
    assert!(rt; ca.issuer == Some(0) && ca.ca && ca.limits.path_length == Some(0));
    assert!(rt; leaf.issuer == Some(1) && !leaf.ca && leaf.limits.path_length == Some(255));
    assert_eq!(rt; leaf.key, 0xAF);
    assert_eq!(rt; leaf.name.as_str(), "Leaf7");
    let from = leaf.limits.from;
    assert_eq!(rt; (from.year(), from.month(), from.day()), (2020, 2, 29));
    Ok(())
}

/// Texts that are no register: each has a line that isn't in the form.
#[rattlefmt::skip]
const BAD: [&str; 21] = [
    // no newline at the end, an empty line
    "root 11 R - 2020-01-01 2030-01-01",
    "\n",
    // a word less, a word more, two spaces, a carriage return
    "root 11 R\n",
    "root 11 R - 2020-01-01 2030-01-01 2031-01-01\n",
    "root  11 R - 2020-01-01 2030-01-01\n",
    "root 11 R - 2020-01-01 2030-01-01\r\n",
    // another first word
    "Root 11 R - 2020-01-01 2030-01-01\n",
    // keys
    "root 1 R - 2020-01-01 2030-01-01\n",
    "root af R - 2020-01-01 2030-01-01\n",
    // names
    "root 11  - 2020-01-01 2030-01-01\n",
    "root 11 R_ - 2020-01-01 2030-01-01\n",
    "root 11 R\u{e9} - 2020-01-01 2030-01-01\n",
    "root 11 AAAAAAAAAAAAAAAAAAAAAAAAAAAAAAAAAAAAAAAAAAAAAAAAAAAAAAAAAAAAAAAAA - 2020-01-01 2030-01-01\n",
    // path lengths
    "root 11 R 256 2020-01-01 2030-01-01\n",
    "root 11 R 00 2020-01-01 2030-01-01\n",
    "root 11 R +1 2020-01-01 2030-01-01\n",
    // dates
    "root 11 R - 2021-02-29 2030-01-01\n",
    "root 11 R - 2020-01-01T00:00:00 2030-01-01\n",
    // issuers and CA flags
    "child 200 12 I y 0 2021-01-01 2029-01-01\n",
    "child 01 12 I y 0 2021-01-01 2029-01-01\n",
    "child 0 12 I Y 0 2021-01-01 2029-01-01\n",
];

#[test]
fn refuses_other_texts(rt: HostRuntime) -> Result<(), Fail> {
    for text in BAD {
        let stop = root_count(rt.alloc(), text.as_bytes()).err();
        assert!(rt; stop.is_some_and(|stop| stop.status() == 3));
    }
    Ok(())
}

#[test]
fn reads_200_lines(rt: HostRuntime) -> Result<(), Fail> {
    let line = "root 11 R - 2020-01-01 2030-01-01\n";
    let mut text = String::new(rt.alloc());
    for _ in 0..200 {
        text.push_str(line)?;
    }
    assert_eq!(rt;
        root_count(rt.alloc(), text.as_str().as_bytes()).ok(),
        Some(200)
    );
    text.push_str(line)?;
    let stop = root_count(rt.alloc(), text.as_str().as_bytes()).err();
    assert!(rt; stop.is_some_and(|stop| stop.status() == 3));
    Ok(())
}

/// A root, a CA under it, and a leaf.
#[rattlefmt::skip]
const REGISTER: &str = "root 11 R - 2020-01-01 2030-01-01\nchild 0 12 I y 0 2021-01-01 2029-01-01\nchild 1 AF Leaf7 n 255 2020-02-29 2025-01-01\n";
