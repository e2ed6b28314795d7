//! A shelf over readers and a sink over a writer. They expose what those do, and count each error.

ghost use Rattle.std.specs.Prelude.{◌≡◌, ◌≤◌, ◌+◌, None, Option, option_map, IfOk};
ghost use Rattle.der_core.specs.Counts.{last_count, GoesOn, HasRisen};
ghost use Rattle.program_frame.specs.Opened.{IsOpened, unread_rest};
ghost use Rattle.program_frame.specs.Shelf.{Files};

use crate::{Failed, Shelf, Sink};
use std::io;
use std::io::{Read, Write};

/// Opens files by name.
pub trait Opener {
    /// An open file, read from its first octet.
    type Reader: Read + Drop;

    /// The files by name, if they are exposed.
    ghost files: { Self → Option Files } = { λ _. None };

    /// Opens the file with this name, with all of it left to read.
    fn open(&self, name: &str) -> io::Result<Self::Reader>
        ensures { IfOk result (λ reader.
            IsOpened (files self.now) name.now (Self.Reader.remaining reader)) };
}

/// Files that are opened when they are picked. Each error of an opener or a reader is a fault.
#[derive(Drop)]
pub struct ReaderShelf<D: Opener> {
    opener: D,
    picked: Option<D::Reader>,
    given: u64,
    faults: u64,
    ghost given_fits: { given ≤ last_count },
    ghost faults_fit: { faults ≤ last_count },
}

impl<D: Opener> ReaderShelf<D> {
    /// A shelf over this opener, with no file picked and no counts.
    pub fn over(opener: D) -> Self
        ensures files { (⟦<ReaderShelf<D> as Shelf>⟧.state result).files ≡ D.files opener }
        ensures none_given { (⟦<ReaderShelf<D> as Shelf>⟧.state result).given ≡ 0 }
        ensures no_faults { (⟦<ReaderShelf<D> as Shelf>⟧.state result).faults ≡ 0 }
    {
        ReaderShelf {
            opener,
            picked: None,
            given: 0,
            faults: 0,
        }
    }

    // Counts a fault.
    fn fail(&mut self) -> Failed
        ensures counted { GoesOn self.old.faults self.new.faults }
        ensures risen { HasRisen self.old.faults self.new.faults }
        ensures once { self.new.faults ≤ self.old.faults + 1 }
        ensures same { (self.new.opener ≡ self.old.opener) × (self.new.picked ≡ self.old.picked)
            × (self.new.given ≡ self.old.given) }
    {
        self.faults = self.faults.saturating_add(1);
        Failed
    }
}

impl<D: Opener> Shelf for ReaderShelf<D> {
    ghost state = { λ shelf. record {
      files = D.files shelf.opener;
      rest = unread_rest (D.files shelf.opener) (option_map D.Reader.remaining shelf.picked);
      given = shelf.given;
      faults = shelf.faults;
      is_quiet = ⊥;
    } };

    fn pick(&mut self, name: &str) -> Result<(), Failed> {
        let Ok(reader) = self.opener.open(name) else {
            return Err(self.fail());
        };
        self.picked = Some(reader);
        Ok(())
    }

    fn read(&mut self, into: &mut [u8]) -> Result<usize, Failed> {
        let Some(reader) = &mut self.picked else {
            return Err(self.fail());
        };
        let Ok(count) = reader.read(into) else {
            return Err(self.fail());
        };
        self.given = self.given.saturating_add(count as u64);
        Ok(count)
    }
}

/// Octets that go to a writer. An error of the writer is a fault, and so is a write that accepts
/// nothing of a nonempty piece.
#[derive(Drop)]
pub struct WriterSink<W> {
    writer: W,
    faults: u64,
    ghost fits: { faults ≤ last_count },
}

impl<W: Write> WriterSink<W> {
    /// A sink over this writer, with no counts.
    pub fn over(writer: W) -> Self
        ensures held { (⟦<WriterSink<W> as Sink>⟧.state result).held ≡ W.contents writer }
        ensures no_faults { (⟦<WriterSink<W> as Sink>⟧.state result).faults ≡ 0 }
    {
        WriterSink { writer, faults: 0 }
    }
}

impl<W: Write> Sink for WriterSink<W> {
    ghost state = { λ sink. record {
      held = W.contents sink.writer;
      room = None;
      faults = sink.faults;
    } };

    fn write(&mut self, piece: &[u8]) -> Result<usize, Failed> {
        match self.writer.write(piece) {
            Ok(count) if count > 0 || piece.is_empty() => Ok(count),
            _ => {
                self.faults = self.faults.saturating_add(1);
                Err(Failed)
            }
        }
    }
}
