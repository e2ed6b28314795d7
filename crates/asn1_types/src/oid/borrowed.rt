//! Borrowed object identifiers.

ghost use Rattle.std.specs.Prelude.{◌≡◌, Some, IfOk, MatchOption};
ghost use Rattle.asn1_types.specs.ObjectIdentifier.{IsIdentifier, dotted};
ghost use Rattle.asn1_types.specs.Facts.OneIdentifier.{IsIdentifier-prop};

use super::ObjectIdentifier;
use super::arcs::first_arcs;
use super::subidentifier::split_subidentifier;
use der_core::Octets;
use std::alloc::{AllocError, Global};
use std::fmt;

/// An OBJECT IDENTIFIER with borrowed contents octets (X.690 8.19).
#[derive(Clone, Copy, Debug)]
pub struct LentIdentifier<'a> {
    pub(super) contents: &'a [u8],
    pub ghost formed: { IsIdentifier contents.now } by { IsIdentifier-prop contents.now },
}

impl<'a> LentIdentifier<'a> {
    /// The OID with these contents octets, `None` if they aren't an OID's.
    pub fn of(contents: &'a [u8]) -> Option<LentIdentifier<'a>>
        ensures { MatchOption result
            (IsIdentifier contents.now → ⊥)
            (λ identifier. identifier.contents.now ≡ contents.now) }
    {
        if ObjectIdentifier::is_content(contents) {
            Some(LentIdentifier { contents })
        } else {
            None
        }
    }

    /// The contents octets.
    pub fn as_bytes(&self) -> &'a [u8]
        ensures { result.now ≡ self.now.contents.now }
    {
        self.contents
    }

    /// The OID with a copy of the octets.
    pub fn to_identifier(&self, alloc: Global) -> Result<ObjectIdentifier, AllocError>
        ensures { IfOk result (λ identifier. identifier.contents ≡ self.now.contents.now) }
    {
        Ok(ObjectIdentifier {
            contents: Octets::from_slice(alloc, self.contents)?,
        })
    }
}

/// Prints the dotted text.
impl fmt::Display for LentIdentifier<'_> {
    ghost output = { λ identifier. Some (dotted identifier.formed.arcs) };

    fn fmt<W: fmt::Write>(&self, f: &mut fmt::Formatter<W>) -> fmt::Result {
        let Some((root, mut rest)) = split_subidentifier(self.contents) else {
            unreachable!();
        };
        let (first, second) = first_arcs(root);
        write!(f, "{first}.{second}")?;
        while let Some((arc, after)) = split_subidentifier(rest) {
            write!(f, ".{arc}")?;
            rest = after;
        }
        Ok(())
    }
}
