//! Borrowed algorithm identifiers.

ghost use Rattle.std.specs.Prelude.{◌≡◌, ◌≢◌, Option, MatchOption};
ghost use Rattle.der_core.specs.DerElement.{DerElement};
ghost use Rattle.der_core.specs.BorrowedOption.{at_option};
ghost use Rattle.key_types.specs.AlgorithmIdentifier.{algorithm_of};

use der_core::tag::SEQUENCE;
use der_core::{Elem, Kids};

/// The fields of an AlgorithmIdentifier, each as any element.
#[derive(Clone, Copy)]
pub(crate) struct AlgorithmFields<'a> {
    pub oid: Elem<'a>,
    pub parameters: Option<Elem<'a>>,
}

impl<'a> AlgorithmFields<'a> {
    /// The fields of the element.
    #[inline(always)]
    pub(crate) fn of(elem: Elem<'a>) -> Option<AlgorithmFields<'a>>
        ensures { MatchOption result
            ((oid : DerElement) (parameters : Option DerElement)
            → elem.entry.is.0 ≢ algorithm_of oid parameters)
            (λ fields. elem.entry.is.0 ≡ algorithm_of fields.oid.is.0
            (at_option fields.parameters)) }
    {
        let mut kids = Kids::of(elem, SEQUENCE)?;
        let oid = kids.next()?;
        let parameters = kids.next();
        kids.end()?;
        Some(AlgorithmFields { oid, parameters })
    }
}
