//! Strings of Authenticode.

ghost use Rattle.std.specs.Prelude.{◌≡◌, ◌↔◌, ◌≤◌, ◌++◌, IfOk, OnOk, IsTrue, MatchResult, Err};
ghost use Rattle.std.proofs.Props.{props};
ghost use Rattle.asn1_types.specs.Contents.{RefusesContents};
ghost use Rattle.asn1_types.specs.Ia5String.{RefusesCharSet};
ghost use Rattle.cms_types.specs.Units.{AreUnits, IsBasicPlane, text_units, unit_octets};

use asn1_types::CharSetError;
use der_core::{DerError, Elem, Octets, Structure, Tree, leaf, leaf_at};
use std::alloc::{AllocError, Global};

/// The tag of a string with two octets a unit (Windows Authenticode Portable Executable Signature
/// Format, SpcString).
pub const UNICODE: u8 = 0x80;

/// A string of 16-bit units in big-endian order: an SpcString of the form `unicode`, which is a
/// BMPString (Windows Authenticode Portable Executable Signature Format, X.690 8.23.8). Any units
/// are read, even those that are no character. The form `ascii` is not read.
#[derive(Debug, Drop)]
pub struct SpcString {
    octets: Octets,
    pub ghost whole: { AreUnits octets } by { Prim.hlevel props },
}

impl SpcString {
    /// The string with this text, `CharSet` exactly where one of its characters is past U+FFFF.
    pub fn from_text(alloc: Global, text: &str) -> Result<SpcString, CharSetError>
        ensures made { MatchResult result
            (λ string. string.octets ≡ text_units text.now)
            (RefusesCharSet (IsBasicPlane text.now)) }
        // A refusal comes before anything is allocated.
        ensures refused { (IsBasicPlane text.now → ⊥) → result ≡ Err CharSetError.CharSet }
    {
        if !is_basic(text) {
            return Err(CharSetError::CharSet);
        }
        Ok(SpcString {
            octets: units_of(alloc, text)?,
        })
    }

    /// Whether octets are those of a string: there are two for each unit.
    pub fn is_content(bytes: &[u8]) -> bool
        ensures formed { IsTrue result ↔ AreUnits bytes.now }
    {
        bytes.len() % 2 == 0
    }

    /// The string with these octets, `Shape` exactly where their number is odd.
    pub fn from_content(alloc: Global, bytes: &[u8]) -> Result<SpcString, DerError>
        ensures read { MatchResult result
            (λ string. string.octets ≡ bytes.now)
            (RefusesContents (AreUnits bytes.now)) }
        // A refusal comes before anything is allocated.
        ensures refused { (AreUnits bytes.now → ⊥) → result ≡ Err DerError.Shape }
    {
        if !SpcString::is_content(bytes) {
            return Err(DerError::Shape);
        }
        Ok(SpcString {
            octets: Octets::from_slice(alloc, bytes)?,
        })
    }

    /// The octets of the units, in big-endian order.
    pub fn as_bytes(&self) -> &[u8]
        ensures { result.now ≡ self.now.octets }
    {
        self.octets.as_slice()
    }
}

/// Whether each character is in the basic plane, and so is one unit.
fn is_basic(text: &str) -> bool
    ensures { IsTrue result ↔ IsBasicPlane text.now }
{
    for character in text.chars() {
        if character as u32 > 0xFFFF {
            return false;
        }
    }
    true
}

/// The octets of the units of a text.
fn units_of(alloc: Global, text: &str) -> Result<Octets, AllocError>
    requires { IsBasicPlane text.now }
    ensures { IfOk result (λ octets. octets ≡ text_units text.now) }
{
    let mut octets = Vec::new(alloc);
    for character in text.chars() {
        push_unit(&mut octets, character)?;
    }
    Ok(Octets::from(octets))
}

fn push_unit(octets: &mut Vec<u8>, character: char) -> Result<(), AllocError>
    requires { character ≤ 0xFFFF }
    ensures { OnOk result (octets.new.items ≡ octets.old.items ++ unit_octets character) }
{
    let unit = character as u32 as u16;
    octets.extend_from_slice(&unit.to_be_bytes())
}

impl Structure for SpcString {
    ghost use Rattle.cms_types.specs.SpcString.{spc_string};
    ghost use Rattle.cms_types.specs.Facts.SpcStrings.{spc_strings};

    ghost written = { spc_string };

    ghost spells = { λ element string. element ≡ spc_string string };

    fn has_shape(elem: Elem<'_>) -> bool {
        match leaf_at(elem, UNICODE) {
            Some(content) => SpcString::is_content(content),
            None => false,
        }
    }

    fn read_at(alloc: Global, elem: Elem<'_>) -> Result<SpcString, DerError> {
        match leaf_at(elem, UNICODE) {
            Some(content) => SpcString::from_content(alloc, content),
            None => Err(DerError::Shape),
        }
    }

    fn write(&self, alloc: Global) -> Result<Tree, DerError> {
        Ok(leaf(alloc, UNICODE, self.as_bytes())?)
    }

    fn try_clone(&self, alloc: Global) -> Result<SpcString, AllocError> {
        Ok(SpcString {
            octets: self.octets.try_clone(alloc)?,
        })
    }

    ghost grammar = { spc_strings };
}

/// Strings are equal exactly where their octets are.
impl PartialEq for SpcString {
    ghost use Rattle.der_core.specs.Equality.{same_octets};
    ghost use Rattle.der_core.specs.Facts.Equality.{same_octets_per};
    ghost use Rattle.cms_types.specs.SpcString.{spc_string};

    ghost eq = { same_octets spc_string };

    ghost laws = { same_octets_per spc_string };

    fn eq(&self, other: &SpcString) -> bool
        ensures octets { result ≡ same_octets spc_string self.now other.now }
        ensures same { IsTrue result ↔ (self.now ≡ other.now) }
    {
        self.octets == other.octets
    }
}

impl Eq for SpcString {
    ghost use Rattle.der_core.specs.Facts.Equality.{same_octets_equiv};
    ghost use Rattle.cms_types.specs.SpcString.{spc_string};

    ghost laws = { same_octets_equiv spc_string };
}
