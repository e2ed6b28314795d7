//! A cursor over DER elements in borrowed octets.

ghost use Rattle.std.specs.Prelude.{◌≡◌, ◌≢◌, ◌↔◌, ℕ, ◌+◌, ◌<◌, ◌≤◌, ◌^◌, [], length, Ok, Err, Some, None, IfOk, IfSome, IfErr, IsOk, MatchOption, MatchResult};
ghost use Rattle.der_core.specs.DerElement.{DerElement};
ghost use Rattle.der_core.specs.Encoding.{form_bit};
ghost use Rattle.der_core.specs.Fault.{IsFirstFault};
ghost use Rattle.der_core.specs.Reading.{IsFaultFrom};
ghost use Rattle.der_core.specs.Cursor.{BeginsAt, MovesPast, WereTested};
ghost use Rattle.der_core.specs.Facts.Cursor.{WereTested-prop};
ghost use Rattle.der_core.specs.declared.fault.DerFault.{DerFault};

use crate::elem::Elem;
use crate::fault::Malformed;
use crate::header::is_constructed;
use crate::kids::Kids;
use crate::testing::first_from;

/// Borrowed octets, read element by element without allocating: the octets that are left, the
/// offset of the first of them, and the level of the elements: 1 for octets that were handed in, 2
/// inside an element that was tested, however deep.
#[derive(Clone, Copy, Debug)]
pub struct Cursor<'a> {
    rest: &'a [u8],
    place: usize,
    level: u8,
    ghost placed: { place + length rest.now < 2 ^ 64 },
    ghost leveled: { level ≤ 2 },
    ghost tested: { WereTested level rest.now } by { WereTested-prop level rest.now },
}

impl<'a> Cursor<'a> {
    /// A cursor over all of the octets, at offset 0 and level 1.
    pub fn new(bytes: &'a [u8]) -> Cursor<'a>
        ensures rest { result.rest.now ≡ bytes.now }
        ensures place { result.place ≡ 0 }
        ensures level { result.level ≡ 1 }
    {
        Cursor {
            rest: bytes,
            place: 0,
            level: 1,
        }
    }

    /// The octets that are left.
    pub fn rest(&self) -> &'a [u8]
        ensures { result.now ≡ self.now.rest.now }
    {
        self.rest
    }

    /// The offset of the octets that are left: how many were read before them.
    pub fn place(&self) -> usize
        ensures { result ≡ self.now.place }
    {
        self.place
    }

    /// The level of the elements: 1 for octets that were handed in, 2 inside an element that was
    /// tested, however deep.
    pub fn level(&self) -> u8
        ensures { result ≡ self.now.level }
    {
        self.level
    }

    /// The next element, `None` exactly if no octets are left. Octets that don't begin with an
    /// element are refused with their first fault, again on each further call. Inside an element
    /// that was tested only heads are read, and nothing is refused.
    pub fn next(&mut self) -> Result<Option<Elem<'a>>, Malformed>
        ensures end { (result ≡ Ok None) ↔ (self.old.rest.now ≡ []) }
        // The element returned is the one that the octets begin with.
        ensures given { IfOk result (λ next. IfSome next (λ elem. BeginsAt self.old.level
            self.old.rest.now elem.is.0 (length elem.whole.now))) }
        ensures moved { IfOk result (λ next. IfSome next (λ elem. MovesPast elem.whole.now
            self.old.rest.now self.new.rest.now self.old.place self.new.place)) }
        // If the octets begin with an element, it is returned.
        ensures only { (element : DerElement) (n : ℕ)
            → BeginsAt self.old.level self.old.rest.now element n
            → IsOk result
            × IfOk result (λ next. (next ≢ None) × IfSome next (λ elem. elem.is.0 ≡ element)) }
        // The error is the first fault; its offset counts from where the cursor began.
        ensures refused { IfErr result
            (IsFaultFrom self.old.place (IsFirstFault self.old.rest.now)) }
        ensures faulty { (k : ℕ) (fault : DerFault) → self.old.rest.now ≢ []
            → IsFirstFault self.old.rest.now k fault
            → result ≡ Err (record { at = self.old.place + k; fault = fault }) }
        ensures never { 1 < self.old.level → IsOk result }
        ensures level { self.new.level ≡ self.old.level }
        // If no element is returned, nothing changes.
        ensures none { result ≡ Ok None
            → (self.new.rest.now ≡ self.old.rest.now) × (self.new.place ≡ self.old.place) }
        ensures stays { IfErr result
            (λ _. (self.new.rest.now ≡ self.old.rest.now) × (self.new.place ≡ self.old.place)) }
    {
        if self.rest.is_empty() {
            return Ok(None);
        }
        let elem = self.first()?;
        let (_, rest) = self.rest.split_at(elem.whole.len());
        *self = Cursor {
            rest,
            place: self.place + elem.whole.len(),
            level: self.level,
        };
        Ok(Some(elem))
    }

    /// The element that the octets begin with.
    fn first(&self) -> Result<Elem<'a>, Malformed>
        requires { self.now.rest.now ≢ [] }
        ensures { MatchResult result
            (λ elem. BeginsAt self.now.level self.now.rest.now elem.is.0 (length elem.whole.now))
            (λ m. (self.now.level ≤ 1)
            × IsFaultFrom self.now.place (IsFirstFault self.now.rest.now) m) }
    {
        if self.level <= 1 {
            return first_from(self.rest, self.place);
        }
        let mut kids = Kids { rest: self.rest };
        match kids.next() {
            Some(elem) => Ok(elem),
            None => unreachable!(),
        }
    }
}

impl<'a> Elem<'a> {
    /// The contents octets as elements, `None` exactly for a primitive element. Offsets count from
    /// the first contents octet.
    pub fn kids(&self) -> Option<Cursor<'a>>
        ensures { MatchOption result (form_bit self.now.tag ≢ 1)
            (λ cursor. (form_bit self.now.tag ≡ 1) × (cursor.rest.now ≡ self.now.content.now)
            × (cursor.place ≡ 0) × (cursor.level ≡ 2)) }
    {
        if is_constructed(self.tag) {
            Some(Cursor {
                rest: self.content,
                place: 0,
                level: 2,
            })
        } else {
            None
        }
    }
}
