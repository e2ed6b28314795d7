//! Real files and standard output. They don't expose their contents.

ghost use Rattle.std.specs.Prelude.{◌≡◌};

use crate::{Opener, ReaderShelf, Shelf, Sink, WriterSink};
use std::io::Printer;
use std::rt::Files;
use std::{fs, io};

/// Opens the files of a file system by path.
#[derive(Drop)]
pub struct Paths<'a, R: Files>(&'a R);

impl<R: Files> Opener for Paths<'_, R> {
    type Reader = R::File;

    fn open(&self, name: &str) -> io::Result<R::File> {
        fs::open(self.0, name)
    }
}

/// Files by path.
pub type DirShelf<'a, R> = ReaderShelf<Paths<'a, R>>;

impl<'a, R: Files> ReaderShelf<Paths<'a, R>> {
    /// A shelf with no file picked and no counts.
    pub fn new(rt: &'a R) -> Self
        ensures none_given { (⟦<ReaderShelf<Paths<'a, R>> as Shelf>⟧.state result).given ≡ 0 }
        ensures no_faults { (⟦<ReaderShelf<Paths<'a, R>> as Shelf>⟧.state result).faults ≡ 0 }
    {
        ReaderShelf::over(Paths(rt))
    }
}

/// Standard output.
pub type OutSink<'a, R> = WriterSink<Printer<'a, R>>;

impl<'a, R: Print> WriterSink<Printer<'a, R>> {
    /// A sink with no counts.
    pub fn new(rt: &'a R) -> Self
        ensures { (⟦<WriterSink<Printer<'a, R>> as Sink>⟧.state result).faults ≡ 0 }
    {
        WriterSink::over(io::writer(rt))
    }
}
