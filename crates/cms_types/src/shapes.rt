//! Whether elements are signers, unsigned attributes or signed data, which contain one another.

ghost use Rattle.std.specs.Prelude.{◌≡◌, false, IsTrue, List};
ghost use Rattle.der_core.specs.DerElement.{DerElement};
ghost use Rattle.der_core.specs.Structure.{Fits};
ghost use Rattle.cms_types.specs.SignerSet.{IsSetOfSigners};
ghost use Rattle.cms_types.specs.Signers.{IsSignerInfo, IsUnsignedAttribute, IsSignedData, IsPkcs7, AreSignerInfos, AreUnsignedAttributes, ArePkcs7s};

use crate::levels::{UnsignedFields, signed_data_in};
use crate::signed_data::fields::SignedDataFields;
use crate::signer_info::fields::{SignerFields, UNSIGNED_ATTRIBUTES};
use crate::unsigned_attribute::kind::UnsignedKind;
use der_core::tag::SET;
use der_core::{Elem, Kids};

/// Whether the element is a signer.
#[cycle(signers)]
pub(crate) fn is_signer_info(elem: Elem<'_>) -> bool
    ensures fits { IsTrue result → IsSignerInfo elem.entry.is.0 }
    ensures unfit { result ≡ false → IsSignerInfo elem.entry.is.0 → ⊥ }
{
    let Some(fields) = SignerFields::of(elem) else {
        return false;
    };
    let Some(attributes) = fields.unsigned_attrs else {
        return true;
    };
    match Kids::of(attributes, UNSIGNED_ATTRIBUTES) {
        Some(kids) => are_unsigned_attributes(kids),
        None => false,
    }
}

/// Whether each element is an unsigned attribute.
#[cycle(signers)]
fn are_unsigned_attributes(mut kids: Kids<'_>) -> bool
    ensures fits { IsTrue result → AreUnsignedAttributes kids.entry.are.0 }
    ensures unfit { result ≡ false → AreUnsignedAttributes kids.entry.are.0 → ⊥ }
{
    while let Some(kid) = kids.next() {
        if !is_unsigned_attribute(kid) {
            return false;
        }
    }
    true
}

/// Whether the element is an unsigned attribute.
#[cycle(signers)]
pub(crate) fn is_unsigned_attribute(elem: Elem<'_>) -> bool
    ensures fits { IsTrue result → IsUnsignedAttribute elem.entry.is.0 }
    ensures unfit { result ≡ false → IsUnsignedAttribute elem.entry.is.0 → ⊥ }
{
    let Some(fields) = UnsignedFields::of(elem) else {
        return false;
    };
    match fields.kind {
        UnsignedKind::CounterSign => are_signer_infos(fields.values),
        UnsignedKind::MsCounterSign => are_pkcs7s(fields.values),
        UnsignedKind::Other => true,
    }
}

/// Whether each element is a signer.
#[cycle(signers)]
pub(crate) fn are_signer_infos(mut kids: Kids<'_>) -> bool
    ensures fits { IsTrue result → AreSignerInfos kids.entry.are.0 }
    ensures unfit { result ≡ false → AreSignerInfos kids.entry.are.0 → ⊥ }
{
    while let Some(kid) = kids.next() {
        if !is_signer_info(kid) {
            return false;
        }
    }
    true
}

/// Whether the element is signed data.
#[cycle(signers)]
pub(crate) fn is_signed_data(elem: Elem<'_>) -> bool
    ensures fits { IsTrue result → IsSignedData elem.entry.is.0 }
    ensures unfit { result ≡ false → IsSignedData elem.entry.is.0 → ⊥ }
{
    let Some(fields) = SignedDataFields::of(elem) else {
        return false;
    };
    match Kids::of(fields.signers_infos, SET) {
        Some(kids) => are_signer_infos(kids),
        None => false,
    }
}

/// Whether the element is signed data with its type.
#[cycle(signers)]
pub(crate) fn is_pkcs7(elem: Elem<'_>) -> bool
    ensures fits { IsTrue result → IsPkcs7 elem.entry.is.0 }
    ensures unfit { result ≡ false → IsPkcs7 elem.entry.is.0 → ⊥ }
{
    match signed_data_in(elem) {
        Some(signed_data) => is_signed_data(signed_data),
        None => false,
    }
}

/// Whether each element is signed data with its type.
#[cycle(signers)]
pub(crate) fn are_pkcs7s(mut kids: Kids<'_>) -> bool
    ensures fits { IsTrue result → ArePkcs7s kids.entry.are.0 }
    ensures unfit { result ≡ false → ArePkcs7s kids.entry.are.0 → ⊥ }
{
    while let Some(kid) = kids.next() {
        if !is_pkcs7(kid) {
            return false;
        }
    }
    true
}

/// Whether the element is a set of signers.
pub(crate) fn has_signers(elem: Elem<'_>) -> bool
    ensures fits { IsTrue result → Fits IsSetOfSigners elem.entry.is.0 }
    ensures unfit { (signers : List DerElement) → result ≡ false
        → IsSetOfSigners elem.entry.is.0 signers → ⊥ }
{
    match Kids::of(elem, SET) {
        Some(kids) => are_signer_infos(kids),
        None => false,
    }
}
