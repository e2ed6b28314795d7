//! Where an image has its headers and the data of its sections.

ghost use Rattle.std.specs.Prelude.{◌≡◌, ◌↔◌, ◌+◌, ◌*◌, ◌<◌, ◌≤◌, length, IsTrue, MatchResult};
ghost use Rattle.pe_core.specs.Fields.{header_offset, table_offset};
ghost use Rattle.pe_core.specs.Layout.{HasHeadersInside, HasHeadersOutside, HasSectionOutside, HasSectionsInside, IsInside, section_count, sections_offset, size_of_headers};

use crate::fields::{known_u16, known_u32};
use crate::header::{COFF_LENGTH, HEADER_SIZE, MARK_OFFSET};
use crate::layout_error::LayoutError;

/// The offset of the number of sections, from the PE mark.
const SECTION_COUNT: usize = 6;

/// The offset of the headers' size in an optional header.
const SIZE_OF_HEADERS: usize = 60;

/// How many octets a section's header has.
const SECTION_LENGTH: usize = 40;

/// The offset of the size of a section's data in its header.
const RAW_SIZE: usize = 16;

/// The offset of the offset of a section's data in its header.
const RAW_OFFSET: usize = 20;

/// The section table of an image whose headers are inside, borrowed.
#[derive(Clone, Copy)]
pub(crate) struct SectionTable<'a> {
    file: &'a [u8],
    offset: usize,
    count: u16,
    headers: usize,
    table: usize,
    ghost offset_is: { offset ≡ sections_offset file.now },
    ghost count_is: { count ≡ section_count file.now },
    ghost headers_is: { headers ≡ size_of_headers file.now },
    ghost table_is: { table ≡ table_offset file.now },
    ghost sections: { offset + 40 * count ≤ headers },
    ghost ahead: { headers ≤ table },
    ghost within: { table ≤ length file.now },
}

impl<'a> SectionTable<'a> {
    /// The section table of an image with this certificate table.
    pub(crate) fn of(file: &'a [u8], table: usize) -> Result<SectionTable<'a>, LayoutError>
        requires fields { header_offset file.now + 64 ≤ length file.now }
        requires table_is { table ≡ table_offset file.now }
        requires within { table ≤ length file.now }
        ensures { MatchResult result
            (λ sections. HasHeadersInside file.now × (sections.file.now ≡ file.now))
            (HasHeadersOutside file.now) }
    {
        let mark = known_u32(file, MARK_OFFSET) as usize;
        let header = mark + COFF_LENGTH;
        let count = known_u16(file, mark + SECTION_COUNT);
        let offset = header + usize::from(known_u16(file, mark + HEADER_SIZE));
        let headers = known_u32(file, header + SIZE_OF_HEADERS) as usize;
        if offset + SECTION_LENGTH * usize::from(count) > headers || headers > table {
            return Err(LayoutError::HeadersOutside);
        }
        Ok(SectionTable {
            file,
            offset,
            count,
            headers,
            table,
        })
    }

    /// Checks that each section is inside, and reports the first that isn't.
    pub(crate) fn expect_inside(self) -> Result<(), LayoutError>
        ensures { MatchResult result (λ _. HasSectionsInside self.entry.file.now)
            (HasSectionOutside self.entry.file.now) }
    {
        for section in 0..self.count {
            if !self.is_inside(section) {
                return Err(LayoutError::SectionOutside { section });
            }
        }
        Ok(())
    }

    /// Whether a section is inside: it has no data, or has it behind the headers and ahead of the
    /// certificate table.
    fn is_inside(self, section: u16) -> bool
        requires { section < section_count self.file.now }
        ensures { IsTrue result ↔ IsInside self.entry.file.now section }
    {
        let header = self.offset + SECTION_LENGTH * usize::from(section);
        let size = known_u32(self.file, header + RAW_SIZE) as usize;
        let offset = known_u32(self.file, header + RAW_OFFSET) as usize;
        size == 0 || (self.headers <= offset && offset + size <= self.table)
    }
}
