//! Sets of attributes (RFC 5280 4.1.2.4).

ghost use Rattle.std.specs.Prelude.{◌≡◌, ◌↔◌, ◌++◌, ◌∷◌, [], length, IfOk, OnOk, OnErr, IsTrue};
ghost use Rattle.std.specs.Slice.Iter.{iter_rest};
ghost use Rattle.std.specs.Iterator.Adapters.{IterYieldsInOrder, IterYieldsInReverse};

use crate::attribute::AttributeTypeAndValue;
use der_core::tag::SET;
use der_core::{
    DerError, Elem, ListOf, Structure, Tree, copy_each, has_list, read_list, write_list,
};
use std::alloc::{AllocError, Global};
use std::marker::Model;
use std::slice::Iter;

/// A set of attributes, its members in the order given (RFC 5280 4.1.2.4). An empty one is
/// accepted, too. Contracts see the list of the members.
#[derive(Debug, Drop)]
pub struct RelativeDistinguishedName {
    members: ListOf<AttributeTypeAndValue>,
}

impl Model for RelativeDistinguishedName {
    ghost use Rattle.std.specs.Prelude.{List};
    ghost use Rattle.name_types.specs.declared.attribute.AttributeTypeAndValue.{AttributeTypeAndValue};
    ghost use Rattle.name_types.specs.Facts.Names.{coded_set};

    ghost Value = { List AttributeTypeAndValue };

    ghost coded = { coded_set };

    ghost view = { λ n. n.members };
}

impl RelativeDistinguishedName {
    /// An empty set.
    pub fn new(alloc: Global) -> RelativeDistinguishedName
        ensures { result ≡ [] }
    {
        RelativeDistinguishedName {
            members: ListOf::new(alloc),
        }
    }

    /// Appends a member. Members are written in the order given; DER requires that of their
    /// encodings (X.690 11.6), which the caller must ensure.
    pub fn push(&mut self, item: AttributeTypeAndValue) -> Result<(), AllocError>
        ensures ok { OnOk result (self.new ≡ self.old ++ item ∷ []) }
        ensures err { OnErr result (self.new ≡ self.old) }
    {
        self.members.push(item)
    }

    /// The members in order.
    pub fn as_slice(&self) -> &[AttributeTypeAndValue]
        ensures { result.now ≡ self.now }
    {
        self.members.as_slice()
    }

    /// The members in order.
    pub fn iter(&self) -> Iter<'_, AttributeTypeAndValue>
        ensures rest { iter_rest result ≡ self.now }
        ensures runs { IterYieldsInOrder AttributeTypeAndValue }
        ensures runs_back { IterYieldsInReverse AttributeTypeAndValue }
    {
        self.members.iter()
    }

    /// How many members there are.
    pub fn len(&self) -> usize
        ensures { result ≡ length self.now }
    {
        self.members.len()
    }

    /// Whether there are none.
    pub fn is_empty(&self) -> bool
        ensures { IsTrue result ↔ (self.now ≡ []) }
    {
        self.members.is_empty()
    }

    /// The allocator of the set.
    pub fn allocator(&self) -> Global {
        self.members.allocator()
    }
}

impl Structure for RelativeDistinguishedName {
    ghost use Rattle.name_types.specs.Name.{relative_distinguished_name, IsRelativeDistinguishedName};
    ghost use Rattle.name_types.specs.Facts.Names.{relative_distinguished_names};

    ghost written = { relative_distinguished_name };

    ghost spells = { IsRelativeDistinguishedName };

    fn has_shape(elem: Elem<'_>) -> bool {
        has_list::<AttributeTypeAndValue>(elem, SET)
    }

    fn read_at(alloc: Global, elem: Elem<'_>) -> Result<RelativeDistinguishedName, DerError> {
        Ok(RelativeDistinguishedName {
            members: read_list(alloc, elem, SET)?,
        })
    }

    fn write(&self, alloc: Global) -> Result<Tree, DerError> {
        write_list(alloc, &self.members, SET)
    }

    fn try_clone(&self, alloc: Global) -> Result<RelativeDistinguishedName, AllocError> {
        Ok(RelativeDistinguishedName {
            members: copy_each(alloc, &self.members)?,
        })
    }

    ghost grammar = { relative_distinguished_names };
}

/// Sets are equal exactly if their encodings are.
impl PartialEq for RelativeDistinguishedName {
    ghost use Rattle.der_core.specs.Equality.{same_octets};
    ghost use Rattle.der_core.specs.Facts.Equality.{same_octets_per};
    ghost use Rattle.name_types.specs.Name.{relative_distinguished_name};

    ghost eq = { same_octets relative_distinguished_name };

    ghost laws = { same_octets_per relative_distinguished_name };

    fn eq(&self, other: &RelativeDistinguishedName) -> bool
        ensures octets { result ≡ same_octets relative_distinguished_name self.now other.now }
        ensures same { IsTrue result ↔ (self.now ≡ other.now) }
    {
        self.members == other.members
    }
}

impl Eq for RelativeDistinguishedName {
    ghost use Rattle.der_core.specs.Facts.Equality.{same_octets_equiv};
    ghost use Rattle.name_types.specs.Name.{relative_distinguished_name};

    ghost laws = { same_octets_equiv relative_distinguished_name };
}
