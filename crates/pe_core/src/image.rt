//! Images with a certificate table, borrowed.

ghost use Rattle.std.specs.Prelude.{◌≡◌, ◌+◌, ◌≤◌, length, IfOk, MatchResult, vec_len};
ghost use Rattle.der_core.specs.Rules.{IsFirstBroken};
ghost use Rattle.sig_core.specs.Digest.{digest_of, digest_size};
ghost use Rattle.pe_core.specs.Bound.{bound_octets, head_of, middle_of, rest_of, table_of};
ghost use Rattle.pe_core.specs.Fields.{checksum_offset, entry_offset, table_offset};
ghost use Rattle.pe_core.specs.Entries.{HasTable, IsTable};
ghost use Rattle.pe_core.specs.Image.{IsSignedImage, image_rules};
ghost use Rattle.pe_core.specs.Layout.{IsWhole, layout_rules};

use crate::entries::Entries;
use crate::error::PeError;
use crate::hashing::digest_of_parts;
use crate::header::{ENTRY_LENGTH, OptionalHeader, TableEntry, pe_mark};
use crate::layout::SectionTable;
use crate::layout_error::{BadTable, LayoutError};
use sig_core::HashAlgorithm;
use std::alloc::{AllocError, Global};

/// The offset of the checksum in an optional header.
const CHECKSUM: usize = 64;

/// How many octets the checksum has.
const CHECKSUM_LENGTH: usize = 4;

/// A program file of Windows with a certificate table at its end (PE Format), borrowed.
#[derive(Clone, Copy, Debug)]
pub struct PeImage<'a> {
    file: &'a [u8],
    checksum: usize,
    entry: usize,
    table: usize,
    ghost checksum_is: { checksum ≡ checksum_offset file.now },
    ghost entry_is: { entry ≡ entry_offset file.now },
    ghost table_is: { table ≡ table_offset file.now },
    ghost before: { entry + 8 ≤ table },
    ghost within: { table ≤ length file.now },
}

impl<'a> PeImage<'a> {
    /// Finds the parts of a program file. Fails with the first of these that doesn't hold: it has
    /// an MS-DOS header; the PE mark; the magic number of PE32 or PE32+; a data directory for
    /// the certificate table; such a table; and this table is the end of the file. It doesn't
    /// allocate.
    pub fn parse(bytes: &'a [u8]) -> Result<PeImage<'a>, PeError>
        ensures { MatchResult result
            (λ image. (image.file.now ≡ bytes.now) × IsSignedImage bytes.now)
            (IsFirstBroken (image_rules bytes.now)) }
    {
        let header = OptionalHeader::of(bytes, pe_mark(bytes)?)?;
        let format = header.format()?;
        let entry = TableEntry::of(bytes, header, format)?;
        entry.expect_last(bytes)?;
        Ok(PeImage {
            file: bytes,
            checksum: header.offset + CHECKSUM,
            entry: entry.offset,
            table: entry.address as usize,
        })
    }

    /// Checks that the image is whole, so that a loader which copies its headers and the data of
    /// its sections copies nothing but what is digested, the checksum and the certificate table's
    /// entry aside. Fails with the first of these that doesn't hold: the section table is within
    /// the headers, by SizeOfHeaders, and these are ahead of the certificate table; the data of
    /// each section that has any is behind the headers and ahead of the certificate table. It
    /// doesn't allocate.
    pub fn expect_whole(&self) -> Result<(), LayoutError>
        ensures { MatchResult result (λ _. IsWhole self.now.file.now)
            (IsFirstBroken (layout_rules self.now.file.now)) }
    {
        SectionTable::of(self.file, self.table)?.expect_inside()
    }

    /// The octets before the checksum.
    pub fn head(&self) -> &'a [u8]
        ensures { result.now ≡ head_of self.now.file.now }
    {
        &self.file[..self.checksum]
    }

    /// The octets from behind the checksum to the certificate table's entry.
    pub fn middle(&self) -> &'a [u8]
        ensures { result.now ≡ middle_of self.now.file.now }
    {
        &self.file[self.checksum + CHECKSUM_LENGTH..self.entry]
    }

    /// The octets from behind the entry to the certificate table.
    pub fn rest(&self) -> &'a [u8]
        ensures { result.now ≡ rest_of self.now.file.now }
    {
        &self.file[self.entry + ENTRY_LENGTH..self.table]
    }

    /// The certificate table: a WIN_CERTIFICATE, and what comes after it.
    pub fn table(&self) -> &'a [u8]
        ensures { result.now ≡ table_of self.now.file.now }
    {
        &self.file[self.table..]
    }

    /// The entries of the certificate table, one after another, where it is a list of entries. Each
    /// begins at a multiple of eight octets from the beginning of the table. It doesn't allocate.
    pub fn entries(&self) -> Result<Entries<'a>, BadTable>
        ensures { MatchResult result
            (λ entries. IsTable (table_of self.now.file.now) entries.are.0)
            (λ _. HasTable (table_of self.now.file.now) → ⊥) }
    {
        Entries::of(self.table())
    }

    /// The digest of all octets but those of the checksum, the certificate table's entry and the
    /// table, in the order of the file (Windows Authenticode Portable Executable Signature Format,
    /// "Calculating the PE Image Hash"). The parts aren't copied.
    pub fn digest(&self, alloc: Global, algorithm: HashAlgorithm) -> Result<Vec<u8>, AllocError>
        ensures digest { IfOk result
            (λ digest. digest.items ≡ digest_of algorithm (bound_octets self.now.file.now)) }
        ensures size { IfOk result (λ digest. vec_len digest ≡ digest_size algorithm) }
    {
        digest_of_parts(alloc, algorithm, self.head(), self.middle(), self.rest())
    }
}
