//! Public keys with their algorithms.

ghost use Rattle.std.specs.Prelude.{◌≡◌, ◌↔◌, IsTrue, MatchOption};
ghost use Rattle.key_types.specs.SubjectKey.{kind_of_key};
ghost use Rattle.key_types.specs.KeyKind.{IsAlgorithmOf};
ghost use Rattle.key_types.specs.Facts.Kinds.{IsAlgorithmOf-prop};

use crate::algorithm::AlgorithmIdentifier;
use crate::key_kind::KeyKind;
use crate::subject_key::SubjectKey;
use der_core::tag::SEQUENCE;
use der_core::{DerError, Elem, NewKids, Structure, Tree, two_kids};
use std::alloc::{AllocError, Global};

/// A public key with its algorithm, which is one for keys of its kind (RFC 5280 4.1.2.7). An
/// algorithm of no known kind is refused as `Shape`.
#[derive(Debug, Drop)]
pub struct SubjectPublicKeyInfo {
    pub algorithm: AlgorithmIdentifier,
    pub subject_public_key: SubjectKey,
    pub ghost fits: { IsAlgorithmOf (kind_of_key subject_public_key) algorithm } by { IsAlgorithmOf-prop (kind_of_key subject_public_key) algorithm },
}

impl SubjectPublicKeyInfo {
    /// The key with its algorithm, `None` exactly if the algorithm isn't one for keys of its kind.
    pub fn new(algorithm: AlgorithmIdentifier, key: SubjectKey) -> Option<SubjectPublicKeyInfo>
        ensures { MatchOption result
            (IsAlgorithmOf (kind_of_key key) algorithm → ⊥)
            (λ info. (info.algorithm ≡ algorithm) × (info.subject_public_key ≡ key)) }
    {
        match KeyKind::of(&algorithm) {
            Some(kind) if kind == key.kind() => Some(SubjectPublicKeyInfo {
                algorithm,
                subject_public_key: key,
            }),
            _ => None,
        }
    }
}

impl Structure for SubjectPublicKeyInfo {
    ghost use Rattle.key_types.specs.PublicKeyInfo.{public_key_info, inner_key, IsPublicKeyInfo};
    ghost use Rattle.key_types.specs.Facts.Keys.{public_key_infos};

    ghost written = { public_key_info };

    ghost spells = { IsPublicKeyInfo };

    ghost inner = { λ info. inner_key info.subject_public_key };

    fn has_shape(elem: Elem<'_>) -> bool {
        let Some((algorithm, key)) = two_kids(elem, SEQUENCE) else {
            return false;
        };
        match KeyKind::at(algorithm) {
            Some(kind) => SubjectKey::has_shape_of(kind, key),
            None => false,
        }
    }

    fn read_at(alloc: Global, elem: Elem<'_>) -> Result<SubjectPublicKeyInfo, DerError> {
        let Some((algorithm, key)) = two_kids(elem, SEQUENCE) else {
            return Err(DerError::Shape);
        };
        let algorithm = AlgorithmIdentifier::read_at(alloc, algorithm)?;
        let Some(kind) = KeyKind::of(&algorithm) else {
            return Err(DerError::Shape);
        };
        let subject_public_key = SubjectKey::read_at(alloc, kind, key)?;
        Ok(SubjectPublicKeyInfo {
            algorithm,
            subject_public_key,
        })
    }

    fn write(&self, alloc: Global) -> Result<Tree, DerError> {
        let mut kids = NewKids::new(alloc);
        kids.push(self.algorithm.write(alloc)?)?;
        kids.push(self.subject_public_key.write(alloc)?)?;
        Ok(kids.into_branch(SEQUENCE))
    }

    fn try_clone(&self, alloc: Global) -> Result<SubjectPublicKeyInfo, AllocError> {
        Ok(SubjectPublicKeyInfo {
            algorithm: self.algorithm.try_clone(alloc)?,
            subject_public_key: self.subject_public_key.try_clone(alloc)?,
        })
    }

    ghost grammar = { public_key_infos };
}

/// Keys with their algorithms are equal exactly if their encodings are.
impl PartialEq for SubjectPublicKeyInfo {
    ghost use Rattle.der_core.specs.Equality.{same_octets};
    ghost use Rattle.der_core.specs.Facts.Equality.{same_octets_per};
    ghost use Rattle.key_types.specs.PublicKeyInfo.{public_key_info};

    ghost eq = { same_octets public_key_info };

    ghost laws = { same_octets_per public_key_info };

    fn eq(&self, other: &SubjectPublicKeyInfo) -> bool
        ensures octets { result ≡ same_octets public_key_info self.now other.now }
        ensures same { IsTrue result ↔ (self.now ≡ other.now) }
    {
        self.algorithm == other.algorithm && self.subject_public_key == other.subject_public_key
    }
}

impl Eq for SubjectPublicKeyInfo {
    ghost use Rattle.der_core.specs.Facts.Equality.{same_octets_equiv};
    ghost use Rattle.key_types.specs.PublicKeyInfo.{public_key_info};

    ghost laws = { same_octets_equiv public_key_info };
}
