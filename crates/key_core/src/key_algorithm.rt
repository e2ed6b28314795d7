//! Key algorithms, by OID alone.

ghost use Rattle.std.specs.Prelude.{◌≡◌, MatchOption};
ghost use Rattle.key_types.specs.AlgorithmIdentifier.{algorithm_identifier};
ghost use Rattle.key_types.specs.declared.algorithm.AlgorithmIdentifier.{AlgorithmIdentifier};
ghost use Rattle.key_core.specs.KeyAlgorithm.{Names};

use der_core::tag::{OBJECT_IDENTIFIER, SEQUENCE};
use der_core::{Elem, Kids, Structure, leaf_at};
use key_types::{AlgorithmIdentifier, KeyKind};

/// The kind of the keys that the borrowed AlgorithmIdentifier names.
pub(crate) fn kind_at(elem: Elem<'_>) -> Option<KeyKind>
    ensures { MatchOption result
        ((kind : KeyKind) (algorithm : AlgorithmIdentifier)
        → elem.entry.is.0 ≡ algorithm_identifier algorithm → Names algorithm kind → ⊥)
        (λ kind. (algorithm : AlgorithmIdentifier)
        × (elem.entry.is.0 ≡ algorithm_identifier algorithm) × Names algorithm kind) }
{
    if !AlgorithmIdentifier::has_shape(elem) {
        return None;
    }
    let mut kids = Kids::of(elem, SEQUENCE)?;
    let oid = leaf_at(kids.next()?, OBJECT_IDENTIFIER)?;
    Some(KeyKind::named(oid)?)
}
