//! The strings of names.

ghost use Rattle.name_types.specs.DirectoryString.{IsStringTag};
ghost use Rattle.std.specs.Prelude.{◌≡◌, ◌↔◌, IfOk, IsTrue};

use der_core::tag::{BMP_STRING, PRINTABLE_STRING, TELETEX_STRING, UTF8_STRING};
use der_core::{DerError, Elem, Octets, Structure, Tree, leaf};
use std::alloc::{AllocError, Global};

/// A string in a name by its type, with its contents octets as they are (RFC 5280 4.1.2.4). A
/// UniversalString isn't among them: it is an `OtherValue`.
#[derive(Debug, Drop)]
pub enum DirectoryString {
    /// A PrintableString (X.680 41).
    PrintableString(Octets),
    /// A UTF8String (X.680 41).
    Utf8String(Octets),
    /// A TeletexString, also called T61String (X.680 41).
    TeletexString(Octets),
    /// A BMPString, two octets a character (X.680 41).
    BmpString(Octets),
}

impl DirectoryString {
    ghost use Rattle.name_types.specs.DirectoryString.{string_tag, string_octets};
    ghost use Rattle.name_types.specs.declared.directory_string.DirectoryString.TheVariants.{Utf8String};

    /// The text as a UTF8String.
    pub fn from_text(alloc: Global, text: &str) -> Result<DirectoryString, AllocError>
        ensures { IfOk result (λ string. string ≡ Utf8String text.now) }
    {
        Ok(DirectoryString::Utf8String(Octets::from_slice(alloc, text.as_bytes())?))
    }

    /// The tag of the string's type.
    pub fn tag(&self) -> u8
        ensures { result ≡ string_tag self.now }
    {
        match self {
            DirectoryString::PrintableString(_) => PRINTABLE_STRING,
            DirectoryString::Utf8String(_) => UTF8_STRING,
            DirectoryString::TeletexString(_) => TELETEX_STRING,
            DirectoryString::BmpString(_) => BMP_STRING,
        }
    }

    /// The contents octets.
    pub fn as_bytes(&self) -> &[u8]
        ensures { result.now ≡ string_octets self.now }
    {
        match self {
            DirectoryString::PrintableString(octets)
            | DirectoryString::Utf8String(octets)
            | DirectoryString::TeletexString(octets)
            | DirectoryString::BmpString(octets) => octets.as_slice(),
        }
    }
}

impl Structure for DirectoryString {
    ghost use Rattle.name_types.specs.DirectoryString.{directory_string};
    ghost use Rattle.name_types.specs.Facts.Names.{directory_strings};

    ghost written = { directory_string };

    ghost spells = { λ element string. element ≡ directory_string string };

    fn has_shape(elem: Elem<'_>) -> bool {
        is_string_tag(elem.tag)
    }

    fn read_at(alloc: Global, elem: Elem<'_>) -> Result<DirectoryString, DerError> {
        if !is_string_tag(elem.tag) {
            return Err(DerError::Shape);
        }
        let octets = Octets::from_slice(alloc, elem.content)?;
        match elem.tag {
            PRINTABLE_STRING => Ok(DirectoryString::PrintableString(octets)),
            UTF8_STRING => Ok(DirectoryString::Utf8String(octets)),
            TELETEX_STRING => Ok(DirectoryString::TeletexString(octets)),
            BMP_STRING => Ok(DirectoryString::BmpString(octets)),
            _ => Err(DerError::Shape),
        }
    }

    fn write(&self, alloc: Global) -> Result<Tree, DerError> {
        Ok(leaf(alloc, self.tag(), self.as_bytes())?)
    }

    fn try_clone(&self, alloc: Global) -> Result<DirectoryString, AllocError> {
        Ok(match self {
            DirectoryString::PrintableString(octets) => {
                DirectoryString::PrintableString(octets.try_clone(alloc)?)
            }
            DirectoryString::Utf8String(octets) => {
                DirectoryString::Utf8String(octets.try_clone(alloc)?)
            }
            DirectoryString::TeletexString(octets) => {
                DirectoryString::TeletexString(octets.try_clone(alloc)?)
            }
            DirectoryString::BmpString(octets) => {
                DirectoryString::BmpString(octets.try_clone(alloc)?)
            }
        })
    }

    ghost grammar = { directory_strings };
}

/// Whether the tag is that of a string in names.
fn is_string_tag(tag: u8) -> bool
    ensures { IsTrue result ↔ IsStringTag tag }
{
    tag == UTF8_STRING || tag == PRINTABLE_STRING || tag == TELETEX_STRING || tag == BMP_STRING
}

/// Strings are equal exactly if their encodings are.
impl PartialEq for DirectoryString {
    ghost use Rattle.der_core.specs.Equality.{same_octets};
    ghost use Rattle.der_core.specs.Facts.Equality.{same_octets_per};
    ghost use Rattle.name_types.specs.DirectoryString.{directory_string};

    ghost eq = { same_octets directory_string };

    ghost laws = { same_octets_per directory_string };

    fn eq(&self, other: &DirectoryString) -> bool
        ensures octets { result ≡ same_octets directory_string self.now other.now }
        ensures same { IsTrue result ↔ (self.now ≡ other.now) }
    {
        self.tag() == other.tag() && self.as_bytes() == other.as_bytes()
    }
}

impl Eq for DirectoryString {
    ghost use Rattle.der_core.specs.Facts.Equality.{same_octets_equiv};
    ghost use Rattle.name_types.specs.DirectoryString.{directory_string};

    ghost laws = { same_octets_equiv directory_string };
}
