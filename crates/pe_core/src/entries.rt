//! The entries of a certificate table, borrowed.

ghost use Rattle.std.specs.Prelude.{◌≡◌, ◌↔◌, ◌<◌, ◌≤◌, ℕ, List, [], ◌∷◌, ◌++◌, length, drop, replicate, slice_range, IsTrue, MatchOption, MatchResult};
ghost use Rattle.pe_core.specs.Entries.{HasEntries, HasTable, IsEntry, IsTable, padding_size};
ghost use Rattle.pe_core.specs.Facts.Entries.{HasEntries-prop, IsEntry-prop};
ghost use Rattle.pe_core.specs.Fields.{u16_at};

use crate::fields::{known_u16, u32_at};
use crate::layout_error::BadTable;

/// How many octets the header of an entry has, and of how many octets the offset of an entry is a
/// multiple.
const HEADER_LENGTH: usize = 8;

/// The offset of the revision in an entry.
const REVISION: usize = 4;

/// The offset of the type in an entry.
const CERTIFICATE_TYPE: usize = 6;

/// An entry of a certificate table, borrowed: a WIN_CERTIFICATE (PE Format, "The Attribute
/// Certificate Table").
#[derive(Clone, Copy, Debug)]
pub struct Entry<'a> {
    whole: &'a [u8],
    ghost is: { IsEntry whole.now } by { IsEntry-prop whole.now },
}

impl<'a> Entry<'a> {
    /// The octets of the entry, its header included.
    pub fn whole(&self) -> &'a [u8]
        ensures { result.now ≡ self.now.whole.now }
    {
        self.whole
    }

    /// The revision, wRevision: 0x0200 for 2.0.
    pub fn revision(&self) -> u16
        ensures { result ≡ u16_at self.now.whole.now 4 }
    {
        known_u16(self.whole, REVISION)
    }

    /// The type, wCertificateType: 2 for signed data of PKCS #7.
    pub fn certificate_type(&self) -> u16
        ensures { result ≡ u16_at self.now.whole.now 6 }
    {
        known_u16(self.whole, CERTIFICATE_TYPE)
    }

    /// The octets behind the header.
    pub fn certificate(&self) -> &'a [u8]
        ensures { result.now ≡ slice_range self.now.whole.now 8 (length self.now.whole.now) }
    {
        &self.whole[HEADER_LENGTH..]
    }
}

/// Entries of a certificate table, one after another, borrowed.
#[derive(Clone, Copy, Debug)]
pub struct Entries<'a> {
    rest: &'a [u8],
    pub ghost are: { HasEntries rest.now } by { HasEntries-prop rest.now },
}

impl<'a> Entries<'a> {
    /// The entries of a certificate table, where it is a list of entries.
    pub(crate) fn of(table: &'a [u8]) -> Result<Entries<'a>, BadTable>
        ensures { MatchResult result
            (λ entries. IsTable table.now entries.are.0)
            (λ _. HasTable table.now → ⊥) }
    {
        if is_table(table) {
            Ok(Entries { rest: table })
        } else {
            Err(BadTable)
        }
    }

    /// The next entry, `None` if none is left.
    pub fn next(&mut self) -> Option<Entry<'a>>
        ensures { MatchOption result
            ((self.old.are.0 ≡ []) × (self.new.are.0 ≡ []))
            (λ entry. self.old.are.0 ≡ entry.whole.now ∷ self.new.are.0) }
    {
        let Some((whole, behind)) = split_entry(self.rest) else {
            return None;
        };
        self.rest = without_padding(behind, whole.len());
        Some(Entry { whole })
    }
}

/// Whether octets are a certificate table.
fn is_table(table: &[u8]) -> bool
    ensures { IsTrue result ↔ HasTable table.now }
{
    let mut rest = table;
    while let Some((entry, behind)) = split_entry(rest) {
        if behind.len() < HEADER_LENGTH {
            return is_zeros(behind);
        }
        let (filling, next) = behind.split_at(padding_length(entry.len()));
        if !is_zeros(filling) {
            return false;
        }
        rest = next;
    }
    false
}

/// The entry that octets begin with, and the octets behind it; `None` if they begin with none.
fn split_entry(bytes: &[u8]) -> Option<(&[u8], &[u8])>
    ensures { MatchOption result
        ((entry behind : List ℕ) → IsEntry entry → bytes.now ≡ entry ++ behind → ⊥)
        (λ parts. IsEntry parts.0.now × (bytes.now ≡ parts.0.now ++ parts.1.now)) }
{
    let size = u32_at(bytes, 0)? as usize;
    if size < HEADER_LENGTH {
        return None;
    }
    if bytes.len() < size {
        return None;
    }
    Some(bytes.split_at(size))
}

/// What is left of the octets behind an entry of this length: all of them if there is no other entry,
/// else those from the next multiple of eight on.
fn without_padding(behind: &[u8], size: usize) -> &[u8]
    ensures last { length behind.now < 8 → result.now ≡ behind.now }
    ensures more { 8 ≤ length behind.now → result.now ≡ drop (padding_size size) behind.now }
{
    if behind.len() < HEADER_LENGTH {
        return behind;
    }
    &behind[padding_length(size)..]
}

/// How many octets there are from a length on up to the next multiple of eight.
fn padding_length(size: usize) -> usize
    ensures { result ≡ padding_size size }
{
    (HEADER_LENGTH - size % HEADER_LENGTH) % HEADER_LENGTH
}

/// Whether all octets are zero.
fn is_zeros(bytes: &[u8]) -> bool
    ensures { IsTrue result ↔ (bytes.now ≡ replicate (length bytes.now) 0) }
{
    bytes.iter().all(|octet| *octet == 0)
}
