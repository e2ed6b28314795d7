//! Object identifiers.

ghost use Rattle.std.specs.Prelude.{◌≡◌, ◌↔◌, IsTrue, IfOk, MatchResult, Err, string_bytes};
ghost use Rattle.asn1_types.specs.Contents.{RefusesContents};
ghost use Rattle.asn1_types.specs.ObjectIdentifier.{IsIdentifier, IsArcs, contents_of, dotted, IsDottedText, RefusesText};
ghost use Rattle.asn1_types.specs.KnownIdentifiers.{is_known};
ghost use Rattle.asn1_types.specs.Facts.OneIdentifier.{IsIdentifier-prop};

mod arcs;
mod borrowed;
mod subidentifier;
mod traits;

use crate::TextError;
use arcs::{is_dotted, parse_arcs, root_of};
pub use borrowed::LentIdentifier;
use der_core::{DerError, Octets};
use std::alloc::{AllocError, Global};
use subidentifier::{after_subidentifier, subidentifiers};

/// An OBJECT IDENTIFIER as its contents octets, the subidentifiers of its arcs (X.690 8.19). Each
/// subidentifier is below 2^128.
#[derive(Debug, Drop)]
pub struct ObjectIdentifier {
    contents: Octets,
    pub ghost formed: { IsIdentifier contents } by { IsIdentifier-prop contents },
}

impl ObjectIdentifier {
    /// The OID with this text: arcs in decimal digits without leading zeros, joined by dots.
    /// `BadText` exactly if the text isn't an OID's.
    pub fn from_text(alloc: Global, text: &str) -> Result<ObjectIdentifier, TextError>
        ensures read { MatchResult result
            (λ identifier. text.now ≡ dotted identifier.formed.arcs)
            (RefusesText (IsDottedText text.now)) }
        // A refusal comes before memory is allocated.
        ensures refused { (IsDottedText text.now → ⊥) → result ≡ Err TextError.BadText }
    {
        if !is_dotted(text) {
            return Err(TextError::BadText);
        }
        let arcs = parse_arcs(alloc, text)?;
        ObjectIdentifier::from_arcs(alloc, &arcs)
    }

    /// Whether octets are the contents of an OID.
    pub fn is_content(bytes: &[u8]) -> bool
        ensures formed { IsTrue result ↔ IsIdentifier bytes.now }
    {
        let mut rest = bytes;
        while let Some(after) = after_subidentifier(rest) {
            rest = after;
        }
        rest.is_empty() && !bytes.is_empty()
    }

    /// The OID with these contents octets, `Shape` exactly if they aren't an OID's.
    pub fn from_content(alloc: Global, bytes: &[u8]) -> Result<ObjectIdentifier, DerError>
        ensures read { MatchResult result
            (λ identifier. identifier.contents ≡ bytes.now)
            (RefusesContents (IsIdentifier bytes.now)) }
        // A refusal comes before memory is allocated.
        ensures refused { (IsIdentifier bytes.now → ⊥) → result ≡ Err DerError.Shape }
    {
        if !ObjectIdentifier::is_content(bytes) {
            return Err(DerError::Shape);
        }
        Ok(ObjectIdentifier {
            contents: Octets::from_slice(alloc, bytes)?,
        })
    }

    /// The OID of a row of the table, by the row's contents octets.
    pub fn from_known(alloc: Global, contents: &[u8]) -> Result<ObjectIdentifier, AllocError>
        requires { IsTrue (is_known contents.now) }
        ensures { IfOk result (λ identifier. identifier.contents ≡ contents.now) }
    {
        Ok(ObjectIdentifier {
            contents: Octets::from_slice(alloc, contents)?,
        })
    }

    fn from_arcs(alloc: Global, arcs: &[u128]) -> Result<ObjectIdentifier, TextError>
        ensures { MatchResult result
            (λ identifier. IsArcs arcs.now × (identifier.contents ≡ contents_of arcs.now))
            (RefusesText (IsArcs arcs.now)) }
    {
        let [first, second, more @ ..] = arcs else {
            return Err(TextError::BadText);
        };
        let Some(root) = root_of(*first, *second) else {
            return Err(TextError::BadText);
        };
        let contents = subidentifiers(alloc, root, more)?;
        Ok(ObjectIdentifier {
            contents: Octets::from(contents),
        })
    }

    /// The dotted text.
    pub fn to_text(&self, alloc: Global) -> Result<String, AllocError>
        ensures { IfOk result (λ text. string_bytes text ≡ dotted self.now.formed.arcs) }
    {
        self.to_string(alloc)
    }

    /// The contents octets.
    pub fn as_bytes(&self) -> &[u8]
        ensures { result.now ≡ self.now.contents }
    {
        self.contents.as_slice()
    }

    /// The OID, with borrowed contents octets.
    pub fn lent(&self) -> LentIdentifier<'_>
        ensures { result.contents.now ≡ self.now.contents }
    {
        LentIdentifier {
            contents: self.as_bytes(),
        }
    }

    /// A copy of the OID.
    pub fn try_clone(&self, alloc: Global) -> Result<ObjectIdentifier, AllocError>
        ensures { IfOk result (λ copy. copy ≡ self.now) }
    {
        Ok(ObjectIdentifier {
            contents: self.contents.try_clone(alloc)?,
        })
    }
}

/// Two OIDs have the same text exactly if they have the same contents octets. So parsing a printed
/// text, or printing a parsed one, gives the original back.
pub fn text_and_contents_agree(a: &ObjectIdentifier, b: &ObjectIdentifier)
    ensures { (dotted a.now.formed.arcs ≡ dotted b.now.formed.arcs)
        ↔ (a.now.contents ≡ b.now.contents) }
{}
