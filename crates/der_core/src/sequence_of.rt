//! SEQUENCE OF as a structure (X.690 8.10).

ghost use Rattle.std.specs.Prelude.{flat_map};
ghost use Rattle.der_core.specs.Each.{IsListOf, list_element};
ghost use Rattle.der_core.specs.Facts.Grammars.{sequences};

use crate::elem::Elem;
use crate::error::DerError;
use crate::list::{ListOf, copy_each, has_list, read_list, write_list};
use crate::structure::Structure;
use crate::tag::SEQUENCE;
use crate::tree::Tree;
use std::alloc::{AllocError, Global};

impl<T: Structure> Structure for ListOf<T> {
    ghost written = { list_element 0x30 T.written };

    ghost spells = { IsListOf 0x30 T.spells };

    ghost inner = { flat_map T.inner };

    fn has_shape(elem: Elem<'_>) -> bool {
        has_list::<T>(elem, SEQUENCE)
    }

    fn read_at(alloc: Global, elem: Elem<'_>) -> Result<ListOf<T>, DerError> {
        read_list(alloc, elem, SEQUENCE)
    }

    fn write(&self, alloc: Global) -> Result<Tree, DerError> {
        write_list(alloc, self, SEQUENCE)
    }

    fn try_clone(&self, alloc: Global) -> Result<ListOf<T>, AllocError> {
        copy_each(alloc, self)
    }

    ghost grammar = { sequences T.spells T.written T.inner T.grammar };
}
