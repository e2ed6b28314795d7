//! The command `demo`: which words request it, and what a run writes. The lines are those of
//! `tools/golden/demo_lines.py`.

use demo_core::{count_of, demonstrate, demonstration_line, run};
use program_frame::{ACCEPTED, MemSink, SINK_FAILED};
use std::alloc::{AllocError, Global};
use std::test::Fail;

// Words, and the number of steps that they request.
#[rattlefmt::skip]
const WORDS: [(&str, &[&str], Option<u8>); 33] = [
    ("no words",          &[],                   None),
    ("the command alone", &["demo"],             None),
    ("of 1",              &["demo", "1"],        Some(1)),
    ("of 9",              &["demo", "9"],        Some(9)),
    ("of 10",             &["demo", "10"],       Some(10)),
    ("of 99",             &["demo", "99"],       Some(99)),
    ("of 100",            &["demo", "100"],      Some(100)),
    ("of 199",            &["demo", "199"],      Some(199)),
    ("of 200",            &["demo", "200"],      Some(200)),
    ("of 0",              &["demo", "0"],        None),
    ("of 201",            &["demo", "201"],      None),
    ("of 255",            &["demo", "255"],      None),
    ("of 256",            &["demo", "256"],      None),
    ("of 257",            &["demo", "257"],      None),
    ("of 1000",           &["demo", "1000"],     None),
    ("of 2^64 and 1",     &["demo", "18446744073709551617"], None),
    ("a zero in front",   &["demo", "01"],       None),
    ("two",               &["demo", "001"],      None),
    ("in front of 200",   &["demo", "0200"],     None),
    ("a plus",            &["demo", "+1"],       None),
    ("a minus",           &["demo", "-1"],       None),
    ("a space in front",  &["demo", " 1"],       None),
    ("a space behind",    &["demo", "1 "],       None),
    ("a point",           &["demo", "1.0"],      None),
    ("hexadecimal",       &["demo", "0x1"],      None),
    ("no digit",          &["demo", "a"],        None),
    ("digits before it",  &["demo", "1a"],       None),
    ("an Arabic digit",   &["demo", "\u{661}"],  None),
    ("an empty word",     &["demo", ""],         None),
    ("a word too many",   &["demo", "1", ""],    None),
    ("another case",      &["Demo", "1"],        None),
    ("another command",   &["basic", "1"],       None),
    ("the other order",   &["1", "demo"],        None),
];

const LINE_1: &str = "demo steps=1 roots=1 accepted=1 \
    sum=48d7432fbe43f966c9675b56a27ac11e5c710b3f51967b7cbf71ffa7e875231c\n";

const LINE_2: &str = "demo steps=2 roots=1 accepted=2 \
    sum=fc65a71723ff927bd388b3d6f8515e66365100324313e828199fc011566dd609\n";

const LINE_200: &str = "demo steps=200 roots=24 accepted=26 \
    sum=224bb3e259836c5e41373a68b8c04360e243f32d6c23ee3856b9fa85bd9111ce\n";

// Steps, the room of the sink, the status, and what is written.
#[rattlefmt::skip]
const RUNS: [(u8, usize, u8, &str); 6] = [
    (1,   101, ACCEPTED,    LINE_1),
    (1,   102, ACCEPTED,    LINE_1),
    (1,   5,   SINK_FAILED, "demo "),
    (1,   0,   SINK_FAILED, ""),
    (2,   101, ACCEPTED,    LINE_2),
    (2,   37,  SINK_FAILED, "demo steps=2 roots=1 accepted=2 sum=f"),
];

fn owned(alloc: Global, words: &[&str]) -> Result<Vec<String>, AllocError> {
    let mut strings = Vec::new(alloc);
    for word in words {
        strings.push(String::from_str(alloc, word)?)?;
    }
    Ok(strings)
}

#[test]
fn words_request_steps(rt: HostRuntime) -> Result<(), Fail> {
    for (why, words, count) in WORDS {
        let words = owned(rt.alloc(), words)?;
        assert!(rt; count_of(&words) == count, "{why}");
    }
    Ok(())
}

#[test]
fn lines_are_written(rt: HostRuntime) -> Result<(), Fail> {
    for (count, room, status, line) in RUNS {
        let mut sink = MemSink::with_room(rt.alloc(), room)?;
        assert_eq!(rt; run(rt.alloc(), count, &mut sink), status, "{count} {room}");
        assert!(rt; sink.held() == line.as_bytes(), "{count} {room}");
    }
    Ok(())
}

#[test]
fn the_longest_line_is_written(rt: HostRuntime) -> Result<(), Fail> {
    let mut sink = MemSink::with_room(rt.alloc(), 105)?;
    assert_eq!(rt; run(rt.alloc(), 200, &mut sink), ACCEPTED);
    assert!(rt; sink.held() == LINE_200.as_bytes());
    Ok(())
}

#[test]
fn a_report_has_a_line(rt: HostRuntime) -> Result<(), Fail> {
    let report = demonstrate(rt.alloc(), 1)?;
    assert_eq!(rt; demonstration_line(rt.alloc(), &report)?.as_str(), LINE_1);
    Ok(())
}
