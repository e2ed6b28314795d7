//! The headers of an image, down to the certificate table's entry of the data directories.

ghost use Rattle.std.specs.Prelude.{◌≡◌, ◌≢◌, ◌+◌, ◌<◌, ◌≤◌, ◌^◌, length, MatchResult};
ghost use Rattle.der_core.specs.Rules.{IsFirstBroken};
ghost use Rattle.pe_core.specs.Fields.{entry_offset, format_of, header_offset, header_size, magic_of, mark_offset, table_offset, table_size};
ghost use Rattle.pe_core.specs.Image.{EndsWithTable, HasDirectory, HasDosHeader, HasMark, IsMagic, LacksDirectory, LacksDosHeader, LacksMark, table_rules};

use crate::error::PeError;
use crate::fields::{u16_at, u32_at};
use crate::format::PeFormat;

/// MZ (winnt.h: IMAGE_DOS_SIGNATURE).
const DOS_MARK: u16 = 0x5a4d;

/// The PE mark: PE and two zeros (winnt.h: IMAGE_NT_SIGNATURE).
const PE_MARK: u32 = 0x4550;

/// The offset at which the MS-DOS header has that of the PE mark.
pub(crate) const MARK_OFFSET: usize = 60;

/// The offset of the optional header's size, from the PE mark.
pub(crate) const HEADER_SIZE: usize = 20;

/// How many octets the PE mark and the COFF header have.
pub(crate) const COFF_LENGTH: usize = 24;

/// The offset of the certificate table's entry in the data directories, where it is the fifth.
const CERTIFICATE_ENTRY: usize = 32;

/// How many octets an entry of the data directories has.
pub(crate) const ENTRY_LENGTH: usize = 8;

/// How many data directories there are at least where the certificate table has one.
const LEAST_DIRECTORIES: u32 = 5;

/// An optional header: its offset in the file, its size by the COFF header, and its magic number.
#[derive(Clone, Copy)]
pub(crate) struct OptionalHeader {
    pub(crate) offset: usize,
    size: u16,
    magic: u16,
    ghost short: { offset < 2 ^ 33 },
}

impl OptionalHeader {
    /// The optional header behind the PE mark.
    pub(crate) fn of(bytes: &[u8], mark: u32) -> Result<OptionalHeader, PeError>
        requires { mark ≡ mark_offset bytes.now }
        ensures { MatchResult result
            (λ header. HasMark bytes.now × (header.offset ≡ header_offset bytes.now)
            × (header.size ≡ header_size bytes.now) × (header.magic ≡ magic_of bytes.now))
            (LacksMark bytes.now) }
    {
        let mark = mark as usize;
        let offset = mark + COFF_LENGTH;
        let Some(size) = u16_at(bytes, mark + HEADER_SIZE) else {
            return Err(PeError::NotPe);
        };
        let Some(magic) = u16_at(bytes, offset) else {
            return Err(PeError::NotPe);
        };
        match u32_at(bytes, mark) {
            Some(PE_MARK) => Ok(OptionalHeader {
                offset,
                size,
                magic,
            }),
            _ => Err(PeError::NotPe),
        }
    }

    /// The format by the magic number.
    pub(crate) fn format(self) -> Result<PeFormat, PeError>
        ensures { MatchResult result
            (λ format. IsMagic self.magic × (format ≡ format_of self.magic))
            (λ e. (IsMagic self.magic → ⊥) × (e ≡ PeError.WrongMagic self.magic)) }
    {
        match PeFormat::named(self.magic) {
            Some(format) => Ok(format),
            None => Err(PeError::WrongMagic { got: self.magic }),
        }
    }
}

/// The offset of the PE mark, from the MS-DOS header.
pub(crate) fn pe_mark(bytes: &[u8]) -> Result<u32, PeError>
    ensures { MatchResult result
        (λ offset. HasDosHeader bytes.now × (offset ≡ mark_offset bytes.now))
        (LacksDosHeader bytes.now) }
{
    let Some(offset) = u32_at(bytes, MARK_OFFSET) else {
        return Err(PeError::NotMz);
    };
    match u16_at(bytes, 0) {
        Some(DOS_MARK) => Ok(offset),
        _ => Err(PeError::NotMz),
    }
}

/// The certificate table's entry: its offset in the file, and the offset and the size of the table.
#[derive(Clone, Copy)]
pub(crate) struct TableEntry {
    pub(crate) offset: usize,
    pub(crate) address: u32,
    size: u32,
}

impl TableEntry {
    /// The entry in the data directories of an optional header.
    pub(crate) fn of(
        bytes: &[u8],
        header: OptionalHeader,
        format: PeFormat,
    ) -> Result<TableEntry, PeError>
        requires at { header.offset ≡ header_offset bytes.now }
        requires size { header.size ≡ header_size bytes.now }
        requires format { format ≡ format_of (magic_of bytes.now) }
        ensures { MatchResult result
            (λ entry. HasDirectory bytes.now × (entry.offset ≡ entry_offset bytes.now)
            × (entry.address ≡ table_offset bytes.now) × (entry.size ≡ table_size bytes.now))
            (LacksDirectory bytes.now) }
    {
        let in_header = format.directories_offset() + CERTIFICATE_ENTRY;
        if (header.size as usize) < in_header + ENTRY_LENGTH {
            return Err(PeError::NoDirectory);
        }
        let offset = header.offset + in_header;
        let Some(address) = u32_at(bytes, offset) else {
            return Err(PeError::NoDirectory);
        };
        let Some(size) = u32_at(bytes, offset + 4) else {
            return Err(PeError::NoDirectory);
        };
        match u32_at(bytes, header.offset + format.count_offset()) {
            Some(count) if count >= LEAST_DIRECTORIES => Ok(TableEntry {
                offset,
                address,
                size,
            }),
            _ => Err(PeError::NoDirectory),
        }
    }

    /// Checks that there is a table, and that it is the end of the file behind the entry.
    pub(crate) fn expect_last(self, bytes: &[u8]) -> Result<(), PeError>
        requires offset { self.offset ≡ entry_offset bytes.now }
        requires address { self.address ≡ table_offset bytes.now }
        requires size { self.size ≡ table_size bytes.now }
        requires within { self.offset + 8 ≤ length bytes.now }
        ensures { MatchResult result
            (λ _. (table_size bytes.now ≢ 0) × EndsWithTable bytes.now)
            (IsFirstBroken (table_rules bytes.now)) }
    {
        if self.size == 0 {
            return Err(PeError::NoTable);
        }
        let address = self.address as usize;
        let end = address + self.size as usize;
        if address < self.offset + ENTRY_LENGTH || end != bytes.len() {
            return Err(PeError::TableOutside {
                address: self.address,
                size: self.size,
                len: bytes.len(),
            });
        }
        Ok(())
    }
}
