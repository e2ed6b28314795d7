//! OIDs print as their dotted text, and compare and hash as their contents octets.

ghost use Rattle.std.specs.Prelude.{◌≡◌, ◌↔◌, IsTrue, Some, bytes_eq};
ghost use Rattle.std.proofs.Common.{rules};
ghost use Rattle.std.specs.Hash as fed;
ghost use Rattle.std.specs.Cmp.{on_equiv, on_per, partial_equiv_from_equiv};
ghost use Rattle.std.specs.Cmp.Lexicographic.{nat_list_eq_equiv};
ghost use Rattle.std.specs.Cmp.Rules.{hashing};
ghost use Rattle.asn1_types.specs.ObjectIdentifier.{dotted};

use super::ObjectIdentifier;
use std::fmt;
use std::hash::{Hash, Hasher};

impl fmt::Display for ObjectIdentifier {
    ghost output = { λ identifier. Some (dotted identifier.formed.arcs) };

    fn fmt<W: fmt::Write>(&self, f: &mut fmt::Formatter<W>) -> fmt::Result {
        write!(f, "{}", self.lent())
    }
}

impl PartialEq for ObjectIdentifier {
    ghost eq = { λ a b. bytes_eq a.contents b.contents };

    ghost laws = { on_per (λ identifier. identifier.contents)
        (partial_equiv_from_equiv nat_list_eq_equiv) };

    fn eq(&self, other: &ObjectIdentifier) -> bool
        ensures value { result ≡ bytes_eq self.now.contents other.now.contents }
        ensures same { IsTrue result ↔ (self.now ≡ other.now) }
    {
        self.as_bytes() == other.as_bytes()
    }
}

impl Eq for ObjectIdentifier {
    ghost laws = { on_equiv (λ identifier. identifier.contents) nat_list_eq_equiv };
}

impl Hash for ObjectIdentifier {
    ghost hash_input = { λ identifier. fed.slice fed.u8 identifier.contents };

    ghost respects_eq = { Prim.search (hashing, rules) };

    fn hash<H: Hasher>(&self, state: &mut H) {
        self.as_bytes().hash(state);
    }
}
