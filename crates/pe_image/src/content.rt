//! Which digest algorithm the signature of a program names for its digest. Nothing here allocates.

ghost use Rattle.std.specs.Prelude.{MatchOption};
ghost use Rattle.authenticode_core.specs.Basic.{HasSignedData};
ghost use Rattle.authenticode_core.specs.SigningRules.{NamesDigest};
ghost use Rattle.cms_types.specs.SignedDataElements.{SignedDataElements};
ghost use Rattle.cms_types.specs.SignedView.{data_elements};
ghost use Rattle.sig_core.specs.declared.hash.HashAlgorithm.{HashAlgorithm};
ghost use Rattle.pe_image.specs.ImageHash.{NamesImageDigest};

use asn1_types::oids::SPC_INDIRECT_DATA;
use authenticode_core::padded_element;
use cms_types::SignedView;
use der_core::tag::{OBJECT_IDENTIFIER, SEQUENCE};
use der_core::{Elem, Kids, is_same, leaf_at, one_first_fault, two_kids};
use sig_core::{HashAlgorithm, ShaVariant};
use wincert_core::certificate_of;

/// The digest algorithm in the indirect data that the first entry of a certificate table signs.
pub(crate) fn algorithm_in(table: &[u8]) -> Option<HashAlgorithm>
    ensures { MatchOption result
        ((algorithm : HashAlgorithm) → NamesImageDigest table.now algorithm → ⊥)
        (NamesImageDigest table.now) }
{
    let signed_data = signed_data_in(table)?;
    let content = signed_data.content()?;
    if !is_same(signed_data.content_type(), SPC_INDIRECT_DATA) {
        return None;
    }
    let (_image, digest_info) = two_kids(content, SEQUENCE)?;
    let (algorithm, _digest) = two_kids(digest_info, SEQUENCE)?;
    digest_named(algorithm)
}

/// The signed data in the first entry of a certificate table.
fn signed_data_in<'a>(table: &'a [u8]) -> Option<SignedView<'a>>
    ensures { MatchOption result ((f : SignedDataElements) → HasSignedData table.now f → ⊥)
        (λ view. HasSignedData table.now (data_elements view)) }
{
    // a law that the proof uses; the call does nothing
    one_first_fault();
    let Ok(certificate) = certificate_of(table) else {
        return None;
    };
    match padded_element(certificate) {
        Ok(elem) => SignedView::read(elem),
        Err(_) => None,
    }
}

/// The digest algorithm of an AlgorithmIdentifier.
fn digest_named<'a>(algorithm: Elem<'a>) -> Option<HashAlgorithm>
    ensures { MatchOption result
        ((hash : HashAlgorithm) → NamesDigest algorithm.entry.is.0 hash → ⊥)
        (NamesDigest algorithm.entry.is.0) }
{
    let mut kids = Kids::of(algorithm, SEQUENCE)?;
    let oid = leaf_at(kids.next()?, OBJECT_IDENTIFIER)?;
    let variant = ShaVariant::named(oid)?;
    Some(variant.hash())
}
