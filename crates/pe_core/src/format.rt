//! The two formats of an optional header.

ghost use Rattle.std.specs.Prelude.{◌≡◌, MatchOption};
ghost use Rattle.pe_core.specs.Fields.{count_offset, directories_offset, format_of};
ghost use Rattle.pe_core.specs.Image.{IsMagic};

/// The format of an optional header (PE Format, "Optional Header").
#[derive(Clone, Copy, Debug, PartialEq, Eq)]
pub(crate) enum PeFormat {
    /// For addresses of 32 bits.
    Pe32,
    /// For addresses of 64 bits.
    Pe32Plus,
}

impl PeFormat {
    /// The format with this magic number, if any.
    pub(crate) fn named(magic: u16) -> Option<PeFormat>
        ensures { MatchOption result (IsMagic magic → ⊥)
            (λ format. IsMagic magic × (format ≡ format_of magic)) }
    {
        match magic {
            0x010b => Some(PeFormat::Pe32),
            0x020b => Some(PeFormat::Pe32Plus),
            _ => None,
        }
    }

    /// The offset of the number of data directories in the optional header.
    pub(crate) fn count_offset(self) -> usize
        ensures { result ≡ count_offset self }
    {
        match self {
            PeFormat::Pe32 => 92,
            PeFormat::Pe32Plus => 108,
        }
    }

    /// The offset of the data directories in the optional header.
    pub(crate) fn directories_offset(self) -> usize
        ensures { result ≡ directories_offset self }
    {
        match self {
            PeFormat::Pe32 => 96,
            PeFormat::Pe32Plus => 112,
        }
    }
}
