//! Owned octets.

ghost use Rattle.std.specs.Prelude.{◌≡◌, ◌↔◌, IfOk, IsTrue, bytes_eq};
ghost use Rattle.std.specs.Cmp.Lexicographic.{nat_list_eq_equiv};
ghost use Rattle.std.specs.Cmp.{partial_equiv_from_equiv};

use smallvec::SmallVec;
use std::alloc::{AllocError, Global};
use std::marker::Model;

/// How many octets are stored in the value itself: enough for OIDs, numbers, key identifiers and
/// most texts in names.
const MOST_INLINE: usize = 24;

/// Owned octets. Contracts see the list of them. Few are stored in the value itself, without
/// allocating.
#[derive(Debug, Drop)]
pub struct Octets {
    bytes: SmallVec<u8, MOST_INLINE>,
}

impl Model for Octets {
    ghost use Rattle.std.specs.Prelude.{List, ℕ};

    ghost Value = { List ℕ };

    ghost view = { λ o. o.bytes.items };
}

impl Octets {
    /// A copy of the octets.
    pub fn from_slice(alloc: Global, bytes: &[u8]) -> Result<Octets, AllocError>
        ensures { IfOk result (λ octets. octets ≡ bytes.now) }
    {
        Ok(Octets {
            bytes: SmallVec::from_slice(alloc, bytes)?,
        })
    }

    /// The octets.
    pub fn as_slice(&self) -> &[u8]
        ensures { result.now ≡ self.now }
    {
        self.bytes.as_slice()
    }

    /// A copy of the value.
    pub fn try_clone(&self, alloc: Global) -> Result<Octets, AllocError>
        ensures { IfOk result (λ copy. copy ≡ self.now) }
    {
        Octets::from_slice(alloc, self.as_slice())
    }

    /// Overwrites the octets with zeros before they are freed, for secrets.
    pub fn overwrite(self) {
        let Octets { mut bytes } = self;
        bytes.as_mut_slice().fill(0);
    }
}

/// Takes the vector's octets; only few are copied.
impl From<Vec<u8>> for Octets {
    ghost from_gives = { λ bytes octets. octets ≡ bytes.items };

    fn from(bytes: Vec<u8>) -> Octets {
        Octets {
            bytes: SmallVec::from_vec(bytes),
        }
    }
}

impl PartialEq for Octets {
    ghost eq = { bytes_eq };

    ghost laws = { partial_equiv_from_equiv nat_list_eq_equiv };

    fn eq(&self, other: &Octets) -> bool
        ensures value { result ≡ bytes_eq self.now other.now }
        ensures same { IsTrue result ↔ (self.now ≡ other.now) }
    {
        self.as_slice() == other.as_slice()
    }
}

impl Eq for Octets {
    ghost laws = { nat_list_eq_equiv };
}

/// Whether the octets are equal.
#[inline(always)]
pub fn is_same(a: &[u8], b: &[u8]) -> bool
    ensures { IsTrue result ↔ (a.now ≡ b.now) }
{
    match (a, b) {
        // OIDs of extensions and of attributes of names: most differ in the last octet.
        ([a0, a1, a2], [b0, b1, b2]) => *a2 == *b2 && *a1 == *b1 && *a0 == *b0,
        _ => a == b,
    }
}
