//! Lists of general names (RFC 5280 4.2.1.6).

ghost use Rattle.std.specs.Prelude.{◌≡◌, ◌↔◌, ◌++◌, ◌∷◌, [], length, IfOk, OnOk, OnErr, IsTrue};
ghost use Rattle.std.specs.Slice.Iter.{iter_rest};
ghost use Rattle.std.specs.Iterator.Adapters.{IterYieldsInOrder, IterYieldsInReverse};

use crate::general_name::RawGeneralName;
use der_core::tag::SEQUENCE;
use der_core::{
    DerError, Elem, ListOf, Structure, Tree, copy_each, has_list, read_list, write_list,
};
use std::alloc::{AllocError, Global};
use std::marker::Model;
use std::slice::Iter;

/// General names in order (RFC 5280 4.2.1.6), possibly none. Contracts see the list of them.
#[derive(Debug, Drop)]
pub struct RawGeneralNames {
    names: ListOf<RawGeneralName>,
}

impl Model for RawGeneralNames {
    ghost use Rattle.std.specs.Prelude.{List};
    ghost use Rattle.name_types.specs.declared.general_name.RawGeneralName.{RawGeneralName};
    ghost use Rattle.name_types.specs.Facts.GeneralNames.{coded_general_names};

    ghost Value = { List RawGeneralName };

    ghost coded = { coded_general_names };

    ghost view = { λ n. n.names };
}

impl RawGeneralNames {
    /// An empty list.
    pub fn new(alloc: Global) -> RawGeneralNames
        ensures { result ≡ [] }
    {
        RawGeneralNames {
            names: ListOf::new(alloc),
        }
    }

    /// Appends a name.
    pub fn push(&mut self, item: RawGeneralName) -> Result<(), AllocError>
        ensures ok { OnOk result (self.new ≡ self.old ++ item ∷ []) }
        ensures err { OnErr result (self.new ≡ self.old) }
    {
        self.names.push(item)
    }

    /// The names in order.
    pub fn as_slice(&self) -> &[RawGeneralName]
        ensures { result.now ≡ self.now }
    {
        self.names.as_slice()
    }

    /// The names in order.
    pub fn iter(&self) -> Iter<'_, RawGeneralName>
        ensures rest { iter_rest result ≡ self.now }
        ensures runs { IterYieldsInOrder RawGeneralName }
        ensures runs_back { IterYieldsInReverse RawGeneralName }
    {
        self.names.iter()
    }

    /// How many names there are.
    pub fn len(&self) -> usize
        ensures { result ≡ length self.now }
    {
        self.names.len()
    }

    /// Whether there are none.
    pub fn is_empty(&self) -> bool
        ensures { IsTrue result ↔ (self.now ≡ []) }
    {
        self.names.is_empty()
    }

    /// The allocator of the list.
    pub fn allocator(&self) -> Global {
        self.names.allocator()
    }
}

impl Structure for RawGeneralNames {
    ghost use Rattle.name_types.specs.GeneralName.{general_names, AreGeneralNames};
    ghost use Rattle.name_types.specs.Facts.GeneralNames.{general_name_lists};

    ghost written = { general_names };

    ghost spells = { AreGeneralNames };

    fn has_shape(elem: Elem<'_>) -> bool {
        has_list::<RawGeneralName>(elem, SEQUENCE)
    }

    fn read_at(alloc: Global, elem: Elem<'_>) -> Result<RawGeneralNames, DerError> {
        Ok(RawGeneralNames {
            names: read_list(alloc, elem, SEQUENCE)?,
        })
    }

    fn write(&self, alloc: Global) -> Result<Tree, DerError> {
        write_list(alloc, &self.names, SEQUENCE)
    }

    fn try_clone(&self, alloc: Global) -> Result<RawGeneralNames, AllocError> {
        Ok(RawGeneralNames {
            names: copy_each(alloc, &self.names)?,
        })
    }

    ghost grammar = { general_name_lists };
}

/// Lists of names are equal exactly if their encodings are.
impl PartialEq for RawGeneralNames {
    ghost use Rattle.der_core.specs.Equality.{same_octets};
    ghost use Rattle.der_core.specs.Facts.Equality.{same_octets_per};
    ghost use Rattle.name_types.specs.GeneralName.{general_names};

    ghost eq = { same_octets general_names };

    ghost laws = { same_octets_per general_names };

    fn eq(&self, other: &RawGeneralNames) -> bool
        ensures octets { result ≡ same_octets general_names self.now other.now }
        ensures same { IsTrue result ↔ (self.now ≡ other.now) }
    {
        self.names == other.names
    }
}

impl Eq for RawGeneralNames {
    ghost use Rattle.der_core.specs.Facts.Equality.{same_octets_equiv};
    ghost use Rattle.name_types.specs.GeneralName.{general_names};

    ghost laws = { same_octets_equiv general_names };
}
