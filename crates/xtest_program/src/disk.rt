//! Real files and standard output.

use crate::files::reads;
use picky_check::{
    DirShelf, Failed, FileError, OUT_OF_MEMORY, OutSink, Shelf, Sink, USAGE, status_without_words,
    write_report,
};
use std::fmt::Display;
use std::test::Fail;
use std::{env, fs, io};

const LINE: &str = "accepted signer=0 path= excuse=none\n";

#[test]
fn reads_files_of_the_disk(rt: HostRuntime) -> Result<(), Fail> {
    let alloc = rt.alloc();
    let path = env::temp_dir(&rt)?.join(alloc, "picky_check_reads_files_of_the_disk")?;
    let path = path.to_str().expect(&rt, "a path is text");
    fs::write(&rt, path, b"octets")?;
    let mut shelf = DirShelf::new(&rt);
    assert!(rt; shelf.read(&mut [0; 4]) == Err(Failed), "nothing is picked");
    let is_read = reads(alloc, &mut shelf, path, Ok(b"octets"));
    fs::remove_file(&rt, path)?;
    assert!(rt; is_read, "a file");
    assert!(rt;
        reads(alloc, &mut shelf, path, Err(FileError::Fault)),
        "no file"
    );
    assert!(rt;
        reads(alloc, &mut shelf, "/", Err(FileError::Fault)),
        "a folder"
    );
    Ok(())
}

// An output that is closed.
struct Closed;

impl Print for Closed {
    fn print<D: Display + Drop>(&self, _value: D) -> io::Result<()> {
        Err(io::Error::from(io::ErrorKind::BrokenPipe))
    }

    fn println<D: Display + Drop>(&self, _value: D) -> io::Result<()> {
        Err(io::Error::from(io::ErrorKind::BrokenPipe))
    }

    fn write_all(&self, _octets: &[u8]) -> io::Result<()> {
        Err(io::Error::from(io::ErrorKind::BrokenPipe))
    }
}

// An output that accepts nothing.
struct Full;

impl Print for Full {
    fn print<D: Display + Drop>(&self, _value: D) -> io::Result<()> {
        Err(io::Error::from(io::ErrorKind::WriteZero))
    }

    fn println<D: Display + Drop>(&self, _value: D) -> io::Result<()> {
        Err(io::Error::from(io::ErrorKind::WriteZero))
    }

    fn write_all(&self, _octets: &[u8]) -> io::Result<()> {
        Err(io::Error::from(io::ErrorKind::WriteZero))
    }

    fn write_some(&self, _octets: &[u8]) -> io::Result<usize> {
        Ok(0)
    }
}

#[test]
fn writes_to_standard_output(rt: HostRuntime) {
    assert!(rt; write_report(&mut OutSink::new(&rt), LINE) == Ok(()));
    assert!(rt;
        write_report(&mut OutSink::new(&Closed), LINE) == Err(Failed),
        "closed"
    );
    assert!(rt;
        write_report(&mut OutSink::new(&Full), LINE) == Err(Failed),
        "full"
    );
    assert!(rt;
        OutSink::new(&Full).write(b"") == Ok(0),
        "nothing is asked for"
    );
}

#[test]
fn words_that_cant_be_had_have_a_status(rt: HostRuntime) {
    let rows = [
        (io::ErrorKind::OutOfMemory, OUT_OF_MEMORY, 7),
        (io::ErrorKind::InvalidData, USAGE, 2),
        (io::ErrorKind::Other, USAGE, 2),
    ];
    for (kind, named, status) in rows {
        let got = status_without_words(&io::Error::from(kind));
        assert!(rt; got == status && named == status, "{kind:?}");
    }
}
