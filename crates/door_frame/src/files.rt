//! Files whose octets someone else keeps.

ghost use Rattle.std.specs.Prelude.{◌≡◌, ℕ, List, Some, None, IfOk, MatchOption};
ghost use Rattle.door_frame.specs.Files.{AreLent, lent_files};
ghost use Rattle.program_frame.specs.Shelf.{Files};

use std::alloc::AllocError;

/// A file by its name, whose octets are borrowed.
#[derive(Clone, Copy)]
pub struct LentFile<'a> {
    pub name: &'a str,
    pub octets: &'a [u8],
}

/// Borrowed files, if there was memory for them.
pub fn borrowed<'r, 'a>(
    files: &'r Result<Vec<LentFile<'a>>, AllocError>,
) -> Option<&'r [LentFile<'a>]>
    ensures { (given : Files)
        → IfOk files.now (λ files. (name : List ℕ) → lent_files files.items name ≡ given name)
        → AreLent result given }
{
    match files {
        Ok(files) => Some(files.as_slice()),
        Err(_) => None,
    }
}

/// The octets of the first file with this name.
pub(crate) fn octets_of<'a>(files: &[LentFile<'a>], name: &str) -> Option<&'a [u8]>
    ensures { MatchOption result
        (lent_files files.now name.now ≡ None)
        (λ octets. lent_files files.now name.now ≡ Some octets.now) }
{
    match files {
        [first, others @ ..] => {
            if first.name == name {
                Some(first.octets)
            } else {
                octets_of(others, name)
            }
        }
        [] => None,
    }
}
