//! Names (RFC 5280 4.1.2.4).

ghost use Rattle.std.specs.Prelude.{◌≡◌, ◌↔◌, ◌++◌, ◌∷◌, [], length, IfOk, OnOk, OnErr, IsTrue};
ghost use Rattle.std.specs.Slice.Iter.{iter_rest};
ghost use Rattle.std.specs.Iterator.Adapters.{IterYieldsInOrder, IterYieldsInReverse};

use crate::relative_name::RelativeDistinguishedName;
use der_core::tag::SEQUENCE;
use der_core::{
    DerError, Elem, ListOf, Structure, Tree, copy_each, has_list, read_list, write_list,
};
use std::alloc::{AllocError, Global};
use std::marker::Model;
use std::slice::Iter;

/// A name: sets of attributes, from the top of the directory down (RFC 5280 4.1.2.4). Contracts see
/// the list of the sets, each as the list of its members.
#[derive(Debug, Drop)]
pub struct Name {
    sets: ListOf<RelativeDistinguishedName>,
}

impl Model for Name {
    ghost use Rattle.std.specs.Prelude.{List};
    ghost use Rattle.name_types.specs.declared.attribute.AttributeTypeAndValue.{AttributeTypeAndValue};
    ghost use Rattle.name_types.specs.Facts.Names.{coded_name};

    ghost Value = { List (List AttributeTypeAndValue) };

    ghost coded = { coded_name };

    ghost view = { λ n. n.sets };
}

impl Name {
    /// The empty name.
    pub fn new(alloc: Global) -> Name
        ensures { result ≡ [] }
    {
        Name {
            sets: ListOf::new(alloc),
        }
    }

    /// Appends a set.
    pub fn push(&mut self, item: RelativeDistinguishedName) -> Result<(), AllocError>
        ensures ok { OnOk result (self.new ≡ self.old ++ item ∷ []) }
        ensures err { OnErr result (self.new ≡ self.old) }
    {
        self.sets.push(item)
    }

    /// The sets in order.
    pub fn as_slice(&self) -> &[RelativeDistinguishedName]
        ensures { result.now ≡ self.now }
    {
        self.sets.as_slice()
    }

    /// The sets in order.
    pub fn iter(&self) -> Iter<'_, RelativeDistinguishedName>
        ensures rest { iter_rest result ≡ self.now }
        ensures runs { IterYieldsInOrder RelativeDistinguishedName }
        ensures runs_back { IterYieldsInReverse RelativeDistinguishedName }
    {
        self.sets.iter()
    }

    /// How many sets there are.
    pub fn len(&self) -> usize
        ensures { result ≡ length self.now }
    {
        self.sets.len()
    }

    /// Whether there are none.
    pub fn is_empty(&self) -> bool
        ensures { IsTrue result ↔ (self.now ≡ []) }
    {
        self.sets.is_empty()
    }

    /// The allocator of the name.
    pub fn allocator(&self) -> Global {
        self.sets.allocator()
    }
}

impl Structure for Name {
    ghost use Rattle.name_types.specs.Name.{name, IsName};
    ghost use Rattle.name_types.specs.Facts.Names.{names};

    ghost written = { name };

    ghost spells = { IsName };

    fn has_shape(elem: Elem<'_>) -> bool {
        has_list::<RelativeDistinguishedName>(elem, SEQUENCE)
    }

    fn read_at(alloc: Global, elem: Elem<'_>) -> Result<Name, DerError> {
        Ok(Name {
            sets: read_list(alloc, elem, SEQUENCE)?,
        })
    }

    fn write(&self, alloc: Global) -> Result<Tree, DerError> {
        write_list(alloc, &self.sets, SEQUENCE)
    }

    fn try_clone(&self, alloc: Global) -> Result<Name, AllocError> {
        Ok(Name {
            sets: copy_each(alloc, &self.sets)?,
        })
    }

    ghost grammar = { names };
}

/// Names are equal exactly if their encodings are.
impl PartialEq for Name {
    ghost use Rattle.der_core.specs.Equality.{same_octets};
    ghost use Rattle.der_core.specs.Facts.Equality.{same_octets_per};
    ghost use Rattle.name_types.specs.Name.{name};

    ghost eq = { same_octets name };

    ghost laws = { same_octets_per name };

    fn eq(&self, other: &Name) -> bool
        ensures octets { result ≡ same_octets name self.now other.now }
        ensures same { IsTrue result ↔ (self.now ≡ other.now) }
    {
        self.sets == other.sets
    }
}

impl Eq for Name {
    ghost use Rattle.der_core.specs.Facts.Equality.{same_octets_equiv};
    ghost use Rattle.name_types.specs.Name.{name};

    ghost laws = { same_octets_equiv name };
}
