//! The digest algorithm of a signer.

ghost use Rattle.std.specs.Prelude.{List, ℕ, MatchOption};
ghost use Rattle.der_core.specs.DerElement.{DerElement};
ghost use Rattle.der_core.specs.Owned.{IsKept};
ghost use Rattle.sig_core.specs.declared.hash.HashAlgorithm.{HashAlgorithm};
ghost use Rattle.authenticode_core.specs.Inside.SigningSteps.{IsOfIdentifier};
ghost use Rattle.authenticode_core.specs.SigningRules.{NamesDigest};

use der_core::tag::{OBJECT_IDENTIFIER, SEQUENCE};
use der_core::{Elem, Kids, leaf_at, whole_element};
use sig_core::{HashAlgorithm, ShaVariant};

/// The digest algorithm of an AlgorithmIdentifier, given as octets. It doesn't allocate.
pub fn digest_named(algorithm: &[u8]) -> Option<HashAlgorithm>
    ensures { (element : DerElement) → IsKept algorithm.now element → MatchOption result
        ((hash : HashAlgorithm) → NamesDigest element hash → ⊥)
        (NamesDigest element) }
{
    let oid = identifier_of(algorithm)?;
    let variant = ShaVariant::named(oid)?;
    Some(variant.hash())
}

/// The contents octets of the OID in an AlgorithmIdentifier, given as octets.
fn identifier_of(algorithm: &[u8]) -> Option<&[u8]>
    ensures { (element : DerElement) → IsKept algorithm.now element → MatchOption result
        ((oid : List ℕ) → IsOfIdentifier element oid → ⊥)
        (λ oid. IsOfIdentifier element oid.now) }
{
    let elem = whole_element(algorithm)?;
    first_identifier(elem)
}

/// The contents octets of the OID that is the first element in a SEQUENCE.
fn first_identifier<'a>(elem: Elem<'a>) -> Option<&'a [u8]>
    ensures { MatchOption result
        ((oid : List ℕ) → IsOfIdentifier elem.entry.is.0 oid → ⊥)
        (λ oid. IsOfIdentifier elem.entry.is.0 oid.now) }
{
    let mut kids = Kids::of(elem, SEQUENCE)?;
    let first = kids.next()?;
    leaf_at(first, OBJECT_IDENTIFIER)
}
