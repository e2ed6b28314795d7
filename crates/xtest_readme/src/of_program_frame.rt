//! A program that reports the length of a file.

use program_frame::{ACCEPTED, MemShelf, MemSink, Report, Shelf, Sink, Stop, deliver, read_file};
use std::alloc::Global;
use std::test::Fail;

/// Reports how many octets the named file has, and returns the exit status.
fn run<F: Shelf, O: Sink>(alloc: Global, name: &str, shelf: &mut F, out: &mut O) -> u8 {
    match length(alloc, name, shelf) {
        Ok(report) => deliver(out, &report),
        Err(stop) => stop.status(),
    }
}

fn length<F: Shelf>(alloc: Global, name: &str, shelf: &mut F) -> Result<Report, Stop> {
    let octets = read_file(alloc, shelf, name)?;
    Ok(Report {
        status: ACCEPTED,
        line: format!(in alloc; "octets={}\n", octets.len())?,
    })
}

#[test]
fn reports_the_length(rt: HostRuntime) -> Result<(), Fail> {
    let mut shelf = MemShelf::new(rt.alloc());
    shelf.add("a", b"abc")?;
    let mut sink = MemSink::with_room(rt.alloc(), 20)?;
    assert!(rt; run(rt.alloc(), "a", &mut shelf, &mut sink) == 0);
    assert!(rt; run(rt.alloc(), "b", &mut shelf, &mut sink) == 4);
    assert!(rt; sink.held() == b"octets=3\n".as_slice());
    Ok(())
}
