//! Private keys with their algorithms.

ghost use Rattle.std.specs.Prelude.{◌≡◌, ◌≢◌, ◌∷◌, ◌++◌, [], ◌↔◌, false, Option, IfOk, IsTrue, MatchOption, MatchResult, option_to_list};
ghost use Rattle.std.specs.Option.{option_copied, option_map};
ghost use Rattle.der_core.specs.Elements.{octet_string, optional_leaf};
ghost use Rattle.der_core.specs.BorrowedOption.{at_option, kept_option};
ghost use Rattle.key_core.specs.PrivateKeyFields.{HaveTag};
ghost use Rattle.der_core.specs.Encoding.{encoding, IsDer, IsWellFormed};
ghost use Rattle.der_core.specs.Refusals.{RefusesShape, RefusesInner};
ghost use Rattle.asn1_types.specs.Values.{bit_string_contents};
ghost use Rattle.asn1_types.specs.declared.bit_string.BitString.{BitString};
ghost use Rattle.key_core.specs.Agreement.{Agree};
ghost use Rattle.key_core.specs.KeyAlgorithm.{Names};
ghost use Rattle.key_core.specs.PrivateKeyValue.{private_key, private_kind, IsPrivateKeyOf};
ghost use Rattle.key_core.specs.declared.private_key_value.PrivateKeyValue.{PrivateKeyValue};
ghost use Rattle.key_core.specs.Facts.Agreements.{Agree-prop};

use crate::key_algorithm::kind_at;
use crate::private_key_fields::{ATTRIBUTES, PUBLIC_KEY, PrivateKeyFields};
use crate::private_key_value::PrivateKeyValue;
use crate::private_key_version::PrivateKeyVersion;
use asn1_types::BitString;
use der_core::tag::{OCTET_STRING, SEQUENCE};
use der_core::{DerError, Elem, NewKids, Raw, Structure, Tree, copy_option, push_value};
use key_types::{AlgorithmIdentifier, KeyKind};
use std::alloc::{AllocError, Global};

/// A private key with its algorithm, which names keys of its kind (RFC 5208 5, RFC 5958 2). Neither
/// the parameters of the algorithm are checked, nor the attributes, which are stored as an element
/// with the tag \[0\], nor whether the public key beside the private one belongs to it. A key of an
/// unknown algorithm, such as ML-DSA, is `Shape`. It has no `Debug`, so no secret is printed by
/// mistake.
#[derive(Drop)]
pub struct PrivateKeyInfo {
    pub version: PrivateKeyVersion,
    pub private_key_algorithm: AlgorithmIdentifier,
    pub private_key: PrivateKeyValue,
    pub attributes: Option<Raw>,
    pub public_key: Option<BitString>,
    pub ghost agree: { Agree private_key_algorithm private_key attributes } by { Agree-prop private_key_algorithm private_key attributes },
}

impl PrivateKeyInfo {
    /// The key with its algorithm. None exactly where the algorithm doesn't name keys of its kind,
    /// or the attributes haven't the tag \[0\].
    pub fn new(
        version: PrivateKeyVersion,
        private_key_algorithm: AlgorithmIdentifier,
        private_key: PrivateKeyValue,
        attributes: Option<Raw>,
        public_key: Option<BitString>,
    ) -> Option<PrivateKeyInfo>
        ensures { MatchOption result (Agree private_key_algorithm private_key attributes → ⊥)
            (λ info. (info.version ≡ version) × (info.private_key_algorithm ≡ private_key_algorithm)
            × (info.private_key ≡ private_key) × (info.attributes ≡ attributes)
            × (info.public_key ≡ public_key)) }
    {
        let oid = private_key_algorithm.oid().as_bytes();
        if !private_key.kind().is_named(oid) || !have_tag(&attributes) {
            return None;
        }
        Some(PrivateKeyInfo {
            version,
            private_key_algorithm,
            private_key,
            attributes,
            public_key,
        })
    }
}

/// Whether the attributes, if any, have their tag.
fn have_tag(attributes: &Option<Raw>) -> bool
    ensures { IsTrue result ↔ HaveTag (kept_option attributes.now) }
{
    match attributes {
        Some(attributes) => attributes.tag() == ATTRIBUTES,
        None => true,
    }
}

/// Whether the contents octets, if any, are those of a BIT STRING.
fn has_bits(content: Option<&[u8]>) -> bool
    ensures fits { IsTrue result
        → (bits : Option BitString)
        × (option_copied content.entry ≡ option_map bit_string_contents bits) }
    ensures unfit { result ≡ false → (bits : Option BitString)
        → option_copied content.entry ≢ option_map bit_string_contents bits }
{
    match content {
        Some(content) => BitString::is_content(content),
        None => true,
    }
}

/// The BIT STRING with these contents octets, if any.
fn read_bits(alloc: Global, content: Option<&[u8]>) -> Result<Option<BitString>, DerError>
    ensures { MatchResult result
        (λ bits. option_copied content.entry ≡ option_map bit_string_contents bits)
        (RefusesShape (λ (bits : Option BitString). option_copied content.entry
        ≡ option_map bit_string_contents bits)) }
{
    match content {
        Some(content) => Ok(Some(BitString::from_content(alloc, content)?)),
        None => Ok(None),
    }
}

/// Copies the attributes, if any.
fn read_attributes(alloc: Global, attributes: Option<Elem<'_>>) -> Result<Option<Raw>, AllocError>
    ensures { IfOk result (λ kept. kept_option kept ≡ at_option attributes.entry) }
{
    match attributes {
        Some(attributes) => Ok(Some(Raw::from_elem(alloc, attributes)?)),
        None => Ok(None),
    }
}

/// Reads a key of the kind that the algorithm names.
fn read_key(
    alloc: Global,
    algorithm: &AlgorithmIdentifier,
    octets: &[u8],
) -> Result<PrivateKeyValue, DerError>
    ensures { MatchResult result
        (λ key. Names algorithm.now (private_kind key)
        × IsPrivateKeyOf (private_kind key) octets.now key)
        (RefusesShape (λ (key : PrivateKeyValue). Names algorithm.now (private_kind key)
        × IsPrivateKeyOf (private_kind key) octets.now key)) }
{
    match KeyKind::named(algorithm.oid().as_bytes()) {
        Some(kind) => PrivateKeyValue::read(alloc, kind, octets),
        None => Err(DerError::Shape),
    }
}

/// The OCTET STRING of the key.
fn write_key(alloc: Global, key: &PrivateKeyValue) -> Result<Tree, DerError>
    ensures { MatchResult result
        (λ tree. (tree ≡ octet_string (encoding (private_key key.now))) × IsWellFormed tree
        × IsDer (private_key key.now))
        (RefusesInner (private_key key.now ∷ [])) }
{
    Ok(Tree::leaf(OCTET_STRING, key.write(alloc)?))
}

/// Appends the OCTET STRING of the key.
fn push_key(alloc: Global, kids: &mut NewKids, key: &PrivateKeyValue) -> Result<(), DerError>
    ensures { MatchResult result
        (λ _. (kids.new.kids ≡ kids.old.kids ++ octet_string (encoding (private_key key.now)) ∷ [])
        × IsDer (private_key key.now))
        (RefusesInner (private_key key.now ∷ [])) }
{
    Ok(kids.push(write_key(alloc, key)?)?)
}

/// Appends the attributes, if any.
fn push_attributes(
    alloc: Global,
    kids: &mut NewKids,
    attributes: &Option<Raw>,
) -> Result<(), DerError>
    ensures { MatchResult result
        (λ _. kids.new.kids ≡ kids.old.kids ++ option_to_list (kept_option attributes.now))
        (RefusesInner []) }
{
    match attributes {
        Some(attributes) => push_value(alloc, kids, attributes),
        None => Ok(()),
    }
}

/// Appends the public key, if any.
fn push_public_key(
    alloc: Global,
    kids: &mut NewKids,
    public_key: &Option<BitString>,
) -> Result<(), AllocError>
    ensures { IfOk result (λ _. kids.new.kids ≡ kids.old.kids
        ++ optional_leaf 0x81 (option_map bit_string_contents public_key.now)) }
{
    match public_key {
        Some(public_key) => kids.push(Tree::leaf(PUBLIC_KEY, public_key.to_content(alloc)?)),
        None => Ok(()),
    }
}

impl Structure for PrivateKeyInfo {
    ghost use Rattle.key_core.specs.PrivateKeyInfo.{private_key_info, inner_private_key, IsPrivateKeyInfo};
    ghost use Rattle.key_core.specs.Facts.PrivateKeyInfos.{private_key_infos};

    ghost written = { private_key_info };

    ghost spells = { IsPrivateKeyInfo };

    ghost inner = { inner_private_key };

    fn has_shape(elem: Elem<'_>) -> bool {
        let Some(fields) = PrivateKeyFields::of(elem) else {
            return false;
        };
        match kind_at(fields.algorithm) {
            Some(kind) => {
                PrivateKeyValue::is_of(kind, fields.private_key) && has_bits(fields.public_key)
            }
            None => false,
        }
    }

    fn read_at(alloc: Global, elem: Elem<'_>) -> Result<PrivateKeyInfo, DerError> {
        let Some(fields) = PrivateKeyFields::of(elem) else {
            return Err(DerError::Shape);
        };
        let attributes = read_attributes(alloc, fields.attributes)?;
        let public_key = read_bits(alloc, fields.public_key)?;
        let private_key_algorithm = AlgorithmIdentifier::read_at(alloc, fields.algorithm)?;
        let private_key = read_key(alloc, &private_key_algorithm, fields.private_key)?;
        Ok(PrivateKeyInfo {
            version: fields.version,
            private_key_algorithm,
            private_key,
            attributes,
            public_key,
        })
    }

    fn write(&self, alloc: Global) -> Result<Tree, DerError> {
        let mut kids = NewKids::new(alloc);
        kids.push(self.version.write(alloc)?)?;
        push_value(alloc, &mut kids, &self.private_key_algorithm)?;
        push_key(alloc, &mut kids, &self.private_key)?;
        push_attributes(alloc, &mut kids, &self.attributes)?;
        push_public_key(alloc, &mut kids, &self.public_key)?;
        Ok(kids.into_branch(SEQUENCE))
    }

    fn try_clone(&self, alloc: Global) -> Result<PrivateKeyInfo, AllocError> {
        Ok(PrivateKeyInfo {
            version: self.version,
            private_key_algorithm: self.private_key_algorithm.try_clone(alloc)?,
            private_key: self.private_key.try_clone(alloc)?,
            attributes: copy_option(alloc, &self.attributes)?,
            public_key: copy_option(alloc, &self.public_key)?,
        })
    }

    ghost grammar = { private_key_infos };
}

/// Keys with their algorithms are equal exactly where their encodings are. Not constant-time.
impl PartialEq for PrivateKeyInfo {
    ghost use Rattle.der_core.specs.Equality.{same_octets};
    ghost use Rattle.der_core.specs.Facts.Equality.{same_octets_per};
    ghost use Rattle.key_core.specs.PrivateKeyInfo.{private_key_info};

    ghost eq = { same_octets private_key_info };

    ghost laws = { same_octets_per private_key_info };

    fn eq(&self, other: &PrivateKeyInfo) -> bool
        ensures octets { result ≡ same_octets private_key_info self.now other.now }
        ensures same { IsTrue result ↔ (self.now ≡ other.now) }
    {
        self.version == other.version
            && self.private_key_algorithm == other.private_key_algorithm
            && self.private_key == other.private_key
            && are_same(&self.attributes, &other.attributes)
            && are_same_bits(&self.public_key, &other.public_key)
    }
}

impl Eq for PrivateKeyInfo {
    ghost use Rattle.der_core.specs.Facts.Equality.{same_octets_equiv};
    ghost use Rattle.key_core.specs.PrivateKeyInfo.{private_key_info};

    ghost laws = { same_octets_equiv private_key_info };
}

/// Whether attributes are the same.
fn are_same(a: &Option<Raw>, b: &Option<Raw>) -> bool
    ensures { IsTrue result ↔ (a.now ≡ b.now) }
{
    match (a, b) {
        (Some(a), Some(b)) => *a == *b,
        (None, None) => true,
        _ => false,
    }
}

/// Whether public keys are the same.
pub(crate) fn are_same_bits(a: &Option<BitString>, b: &Option<BitString>) -> bool
    ensures { IsTrue result ↔ (a.now ≡ b.now) }
{
    match (a, b) {
        (Some(a), Some(b)) => *a == *b,
        (None, None) => true,
        _ => false,
    }
}
