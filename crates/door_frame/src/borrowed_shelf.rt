//! A shelf over octets that someone else keeps.

ghost use Rattle.std.specs.Prelude.{◌≡◌, ◌≤◌, [], Some};
ghost use Rattle.der_core.specs.Counts.{last_count};

use crate::files::{LentFile, octets_of};
use program_frame::{Failed, Shelf};

/// Files whose octets are borrowed. No call copies any but those that it hands out, and only a
/// missing name is a fault.
#[derive(Drop)]
pub struct LentShelf<'a> {
    files: &'a [LentFile<'a>],
    rest: &'a [u8],
    given: u64,
    faults: u64,
    ghost given_fits: { given ≤ last_count },
    ghost faults_fit: { faults ≤ last_count },
}

impl<'a> LentShelf<'a> {
    ghost use Rattle.door_frame.specs.Files.{lent_files};
    ghost use Rattle.door_frame.specs.Borrowed.{lent_state};

    /// A shelf with these files, of which none is picked. Of two with the same name the first
    /// counts.
    pub fn new(files: &'a [LentFile<'a>]) -> Self
        ensures files { (lent_state result).files ≡ Some (lent_files files.now) }
        ensures nothing_left { (lent_state result).rest ≡ Some [] }
        ensures none_given { (lent_state result).given ≡ 0 }
        ensures no_faults { (lent_state result).faults ≡ 0 }
    {
        LentShelf {
            files,
            rest: &[],
            given: 0,
            faults: 0,
        }
    }
}

impl<'a> Shelf for LentShelf<'a> {
    ghost use Rattle.door_frame.specs.Borrowed.{lent_state};

    ghost state = { lent_state };

    fn pick(&mut self, name: &str) -> Result<(), Failed> {
        let Some(octets) = octets_of(self.files, name) else {
            self.faults = self.faults.saturating_add(1);
            return Err(Failed);
        };
        self.rest = octets;
        Ok(())
    }

    fn read(&mut self, into: &mut [u8]) -> Result<usize, Failed> {
        let count = self.rest.len().min(into.len());
        into[..count].copy_from_slice(&self.rest[..count]);
        self.rest = &self.rest[count..];
        self.given = self.given.saturating_add(count as u64);
        Ok(count)
    }
}
