//! Values of one structure in order.

ghost use Rattle.std.specs.Prelude.{◌≡◌, ◌↔◌, ◌++◌, ◌∷◌, [], false, List, length, flat_map, IfOk, OnOk, OnErr, IsTrue, MatchResult};
ghost use Rattle.std.specs.Cmp.Lexicographic.{pointwise, lists_per, lists_equiv};
ghost use Rattle.std.specs.Slice.Iter.{iter_rest};
ghost use Rattle.std.specs.Iterator.Adapters.{IterYieldsInOrder, IterYieldsInReverse};
ghost use Rattle.der_core.specs.Encoding.{IsTag, form_bit};
ghost use Rattle.der_core.specs.Each.{AreEach, AreWritten, IsListOf, IsWrittenList};
ghost use Rattle.der_core.specs.Refusals.{RefusesShape, RefusesInner};
ghost use Rattle.der_core.specs.Structure.{Fits};

use crate::elem::Elem;
use crate::error::DerError;
use crate::kids::Kids;
use crate::new_kids::NewKids;
use crate::structure::Structure;
use crate::tree::Tree;
use std::alloc::{AllocError, Global};
use std::marker::Model;
use std::slice::Iter;

/// Values of one structure in order: SEQUENCE OF (X.690 8.10), unless a field gives the list
/// another tag. Contracts see the list of the values.
#[derive(Debug, Drop)]
pub struct ListOf<T> {
    items: Vec<T>,
}

impl<T> Model for ListOf<T> {
    ghost use Rattle.std.specs.Prelude.{List};
    ghost use Rattle.std.specs.Coded.{coded_list};

    ghost Value = { List T };

    ghost coded = { coded_list T.code };

    ghost view = { λ l. l.items.items };
}

impl<T> ListOf<T> {
    /// An empty list.
    pub fn new(alloc: Global) -> ListOf<T>
        ensures { result ≡ [] }
    {
        ListOf {
            items: Vec::new(alloc),
        }
    }

    /// An empty list with room for `capacity` values.
    pub fn with_capacity(alloc: Global, capacity: usize) -> Result<ListOf<T>, AllocError>
        ensures { IfOk result (λ list. list ≡ []) }
    {
        Ok(ListOf {
            items: Vec::with_capacity(alloc, capacity)?,
        })
    }

    /// Appends a value.
    pub fn push(&mut self, item: T) -> Result<(), AllocError>
    where
        T: Drop,
        ensures ok { OnOk result (self.new ≡ self.old ++ item ∷ []) }
        ensures err { OnErr result (self.new ≡ self.old) }
    {
        self.items.push(item)?;
        Ok(())
    }

    /// The allocator of the list.
    pub fn allocator(&self) -> Global {
        *self.items.allocator()
    }

    /// The values in order.
    pub fn as_slice(&self) -> &[T]
        ensures { result.now ≡ self.now }
    {
        &self.items
    }

    /// The values in order.
    pub fn iter(&self) -> Iter<'_, T>
        ensures rest { iter_rest result ≡ self.now }
        ensures runs { IterYieldsInOrder T }
        ensures runs_back { IterYieldsInReverse T }
    {
        self.items.iter()
    }

    /// How many values there are.
    pub fn len(&self) -> usize
        ensures { result ≡ length self.now }
    {
        self.items.len()
    }

    /// Whether there are none.
    pub fn is_empty(&self) -> bool
        ensures { IsTrue result ↔ (self.now ≡ []) }
    {
        self.items.is_empty()
    }
}

impl<T: Structure> ListOf<T> {
    /// A copy of the list.
    pub fn try_clone(&self, alloc: Global) -> Result<ListOf<T>, AllocError>
        ensures { IfOk result (λ copy. copy ≡ self.now) }
    {
        copy_each(alloc, self)
    }
}

impl<T: PartialEq> PartialEq for ListOf<T> {
    ghost eq = { pointwise T.eq };

    ghost laws = { lists_per T.laws };

    fn eq(&self, other: &Self) -> bool {
        self.items == other.items
    }
}

impl<T: Eq> Eq for ListOf<T> {
    ghost laws = { lists_equiv T.Eq.laws };
}

/// Whether each of the elements encodes a value.
pub fn has_each<T: Structure>(mut kids: Kids<'_>) -> bool
    ensures fits { IsTrue result → Fits (AreEach T.spells) kids.entry.are.0 }
    ensures unfit { result ≡ false → (values : List T) → AreEach T.spells kids.entry.are.0 values
        → ⊥ }
{
    while let Some(kid) = kids.next() {
        if !T::has_shape(kid) {
            return false;
        }
    }
    true
}

/// The values of the elements, in order. Fails with `Shape`, if an element encodes none, or
/// `Memory`.
pub fn read_each<T: Structure>(alloc: Global, mut kids: Kids<'_>) -> Result<ListOf<T>, DerError>
    ensures { MatchResult result (AreEach T.spells kids.entry.are.0)
        (RefusesShape (AreEach T.spells kids.entry.are.0)) }
{
    let mut values = ListOf::with_capacity(alloc, kids.room())?;
    while let Some(kid) = kids.next() {
        values.push(T::read_at(alloc, kid)?)?;
    }
    Ok(values)
}

/// The elements of the values, in order. Fails as `Structure::write` does for the first value that
/// can't be written.
pub fn write_each<T: Structure>(alloc: Global, values: &ListOf<T>) -> Result<NewKids, DerError>
    ensures { MatchResult result (λ new. AreWritten T.written T.inner values.now new.kids)
        (RefusesInner (flat_map T.inner values.now)) }
{
    let mut kids = NewKids::new(alloc);
    let mut rest = values.as_slice();
    while let Some((value, others)) = rest.split_first() {
        kids.push(value.write(alloc)?)?;
        rest = others;
    }
    Ok(kids)
}

/// A copy of the list.
pub fn copy_each<T: Structure>(alloc: Global, values: &ListOf<T>) -> Result<ListOf<T>, AllocError>
    ensures { IfOk result (λ copies. copies ≡ values.now) }
{
    let mut copies = ListOf::with_capacity(alloc, values.len())?;
    for value in values.as_slice() {
        copies.push(value.try_clone(alloc)?)?;
    }
    Ok(copies)
}

/// Whether the element has this tag, of a SEQUENCE OF or a SET OF, and holds encodings of such
/// values.
pub fn has_list<T: Structure>(elem: Elem<'_>, tag: u8) -> bool
    ensures fits { IsTrue result → Fits (IsListOf tag T.spells) elem.entry.is.0 }
    ensures unfit { result ≡ false → (values : List T)
        → IsListOf tag T.spells elem.entry.is.0 values → ⊥ }
{
    match Kids::of(elem, tag) {
        Some(kids) => has_each::<T>(kids),
        None => false,
    }
}

/// The values in a SEQUENCE OF or a SET OF with this tag. Fails with `Shape` for any other element,
/// or with `Memory`.
pub fn read_list<T: Structure>(
    alloc: Global,
    elem: Elem<'_>,
    tag: u8,
) -> Result<ListOf<T>, DerError>
    ensures { MatchResult result (IsListOf tag T.spells elem.entry.is.0)
        (RefusesShape (IsListOf tag T.spells elem.entry.is.0)) }
{
    match Kids::of(elem, tag) {
        Some(kids) => read_each(alloc, kids),
        None => Err(DerError::Shape),
    }
}

/// The SEQUENCE OF or the SET OF the values, with this tag. Fails as `write_each` does.
pub fn write_list<T: Structure>(
    alloc: Global,
    values: &ListOf<T>,
    tag: u8,
) -> Result<Tree, DerError>
    requires { IsTag tag × (form_bit tag ≡ 1) }
    ensures { MatchResult result (IsWrittenList tag T.written T.inner values.now)
        (RefusesInner (flat_map T.inner values.now)) }
{
    Ok(write_each(alloc, values)?.into_branch(tag))
}
