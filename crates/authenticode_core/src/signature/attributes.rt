//! The signed attributes of a signer, borrowed.

ghost use Rattle.std.specs.Prelude.{◌≡◌, [], List, ℕ, IfOk, MatchOption};
ghost use Rattle.der_core.specs.DerElement.{DerElement, tag_of};
ghost use Rattle.der_core.specs.Encoding.{encoding, form_bit};
ghost use Rattle.der_core.specs.Elements.{set};
ghost use Rattle.der_core.specs.Optional.{members_of};
ghost use Rattle.cms_types.specs.SignerView.{signer_elements_at};
ghost use Rattle.authenticode_core.specs.SignedFields.{HasMessageDigest, IsAttributeOf, IsFirstAttribute, signed_attributes_of, signed_message};

use asn1_types::oids::MESSAGE_DIGEST;
use cms_types::SignerView;
use der_core::tag::{OBJECT_IDENTIFIER, OCTET_STRING, SEQUENCE, SET};
use der_core::{Elem, Kids, expect_leaf, leaf_at, two_kids};
use std::alloc::{AllocError, Global};

/// The octets that a signer signs: its attributes with the tag of a SET, an empty one if they are
/// absent (RFC 2315 9.3). Their other octets aren't changed.
pub(crate) fn signed_message_of(
    alloc: Global,
    signer: &SignerView<'_>,
) -> Result<Vec<u8>, AllocError>
    ensures { IfOk result
        (λ octets. octets.items ≡ signed_message (signer_elements_at signer.now)) }
{
    match signer.signed_attributes() {
        Some(attributes) => as_set(alloc, attributes),
        None => Vec::from_slice(alloc, &[SET, 0]),
    }
}

/// The octets of a constructed element with the tag of a SET.
fn as_set(alloc: Global, attributes: Elem<'_>) -> Result<Vec<u8>, AllocError>
    requires { form_bit (tag_of attributes.is.0) ≡ 1 }
    ensures { IfOk result
        (λ octets. octets.items ≡ encoding (set (members_of (Some attributes.entry.is.0)))) }
{
    let mut octets = Vec::from_slice(alloc, attributes.whole)?;
    octets[0] = SET;
    Ok(octets)
}

/// The first value of the first message digest in the signed attributes (RFC 2985 5.3.2).
pub(crate) fn message_digest_of<'a>(signer: &SignerView<'a>) -> Option<&'a [u8]>
    ensures { MatchOption result
        ((digest : List ℕ) → HasMessageDigest (signer_elements_at signer.now) digest → ⊥)
        (λ digest. HasMessageDigest (signer_elements_at signer.now) digest.now) }
{
    let attributes = attributes_of(signer)?;
    let mut values = first_values(attributes, MESSAGE_DIGEST)?;
    let first = values.next()?;
    leaf_at(first, OCTET_STRING)
}

/// The signed attributes, if they aren't absent.
fn attributes_of<'a>(signer: &SignerView<'a>) -> Option<Kids<'a>>
    ensures { MatchOption result
        (signed_attributes_of (signer_elements_at signer.now) ≡ [])
        (λ kids. signed_attributes_of (signer_elements_at signer.now) ≡ kids.are.0) }
{
    let attributes = signer.signed_attributes()?;
    Kids::within(attributes)
}

/// The values of the first attribute with this OID, given as contents octets.
fn first_values<'a>(mut attributes: Kids<'a>, oid: &[u8]) -> Option<Kids<'a>>
    ensures { MatchOption result
        ((values : List DerElement) → IsFirstAttribute oid.now attributes.entry.are.0 values → ⊥)
        (λ values. IsFirstAttribute oid.now attributes.entry.are.0 values.are.0) }
{
    while let Some(attribute) = attributes.next() {
        if let Some(values) = values_of(attribute, oid) {
            return Some(values);
        }
    }
    None
}

/// The values of an attribute with this OID, given as contents octets (RFC 5652 5.3).
pub(crate) fn values_of<'a>(attribute: Elem<'a>, oid: &[u8]) -> Option<Kids<'a>>
    ensures { MatchOption result
        ((values : List DerElement) → IsAttributeOf oid.now attribute.entry.is.0 values → ⊥)
        (λ values. IsAttributeOf oid.now attribute.entry.is.0 values.are.0) }
{
    let (ty, values) = two_kids(attribute, SEQUENCE)?;
    expect_leaf(ty, OBJECT_IDENTIFIER, oid)?;
    Kids::of(values, SET)
}
