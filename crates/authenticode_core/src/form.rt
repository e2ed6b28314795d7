//! The form of signed data: its version, its one signer, its one digest algorithm, and its indirect
//! data. Nothing here allocates.

ghost use Rattle.std.specs.Prelude.{◌≡◌, ◌≢◌, List, [], ◌∷◌, length, Some, MatchOption, MatchResult};
ghost use Rattle.cms_types.specs.SignedView.{data_elements};
ghost use Rattle.cms_types.specs.SignerView.{signer_elements_at};
ghost use Rattle.der_core.specs.DerElement.{DerElement};
ghost use Rattle.der_core.specs.Elements.{sequence, octet_string};
ghost use Rattle.der_core.specs.Optional.{members_of};
ghost use Rattle.der_core.specs.Rules.{IsFirstBroken};
ghost use Rattle.authenticode_core.specs.FormRules.{IsOfOtherVersion, HasOtherSigners, HasOtherAlgorithms, LacksContent, HasOtherContent, form_rules};
ghost use Rattle.authenticode_core.specs.Inside.Form.{AreSpelled, IsIndirectContent, IsFormOf};
ghost use Rattle.authenticode_core.specs.SignedFields.{HasVersion, IndirectData, IsFirstSigner, digest_algorithms_of, signers_of, indirect_kids};

use crate::error::AuthenticodeError;
use asn1_types::oids::SPC_INDIRECT_DATA;
use cms_types::{SignedView, SignerView};
use der_core::tag::{OCTET_STRING, SEQUENCE};
use der_core::{Elem, Kids, is_same, leaf_at, two_kids};

/// The version of signed data (RFC 2315 9.1).
const VERSION: u8 = 1;

/// Indirect data, which is signed in place of a file: its element, and the digest algorithm and the
/// digest in it.
#[derive(Clone, Copy)]
pub(crate) struct Content<'a> {
    pub(crate) elem: Elem<'a>,
    pub(crate) algorithm: Elem<'a>,
    pub(crate) digest: &'a [u8],
}

/// The content and the signer of signed data of the form.
#[derive(Clone, Copy)]
pub(crate) struct Form<'a> {
    pub(crate) content: Content<'a>,
    pub(crate) signer: SignerView<'a>,
}

/// Checks that signed data has the form, and returns the first rule that it breaks.
pub(crate) fn expect_form<'a>(signed_data: &SignedView<'a>) -> Result<Form<'a>, AuthenticodeError>
    requires { AreSpelled (data_elements signed_data.now) }
    ensures { MatchResult result
        (IsFormOf (data_elements signed_data.now))
        (IsFirstBroken (form_rules (data_elements signed_data.now))) }
{
    expect_version(signed_data)?;
    let signer = one_signer(signed_data)?;
    let algorithm = one_algorithm(signed_data)?;
    let content = expect_content(signed_data)?;
    if !is_same(content.algorithm.whole, algorithm.whole) {
        return Err(AuthenticodeError::DigestAlgorithmMismatch);
    }
    if !is_same(signer.digest_algorithm(), algorithm.whole) {
        return Err(AuthenticodeError::DigestAlgorithmMismatch);
    }
    Ok(Form { content, signer })
}

/// Checks that the version is 1.
fn expect_version(signed_data: &SignedView<'_>) -> Result<(), AuthenticodeError>
    ensures { MatchResult result
        (λ _. HasVersion (data_elements signed_data.now) 1)
        (IsOfOtherVersion (data_elements signed_data.now)) }
{
    let got = signed_data.version();
    if got != VERSION {
        return Err(AuthenticodeError::IncorrectVersion {
            expected: VERSION,
            got,
        });
    }
    Ok(())
}

/// The one signer.
fn one_signer<'a>(signed_data: &SignedView<'a>) -> Result<SignerView<'a>, AuthenticodeError>
    requires { AreSpelled (data_elements signed_data.now) }
    ensures { MatchResult result
        (λ signer. (length (signers_of (data_elements signed_data.now)) ≡ 1)
        × IsFirstSigner (data_elements signed_data.now) (signer_elements_at signer))
        (HasOtherSigners (data_elements signed_data.now)) }
{
    let only = match only_within(signed_data.signers_infos()) {
        Ok(only) => only,
        Err(count) => return Err(AuthenticodeError::MultipleSignerInfo { count }),
    };
    match SignerView::read(only) {
        Some(signer) => Ok(signer),
        None => unreachable!(),
    }
}

/// The one digest algorithm.
fn one_algorithm<'a>(signed_data: &SignedView<'a>) -> Result<Elem<'a>, AuthenticodeError>
    ensures { MatchResult result
        (λ algorithm. digest_algorithms_of (data_elements signed_data.now) ≡ algorithm.is.0 ∷ [])
        (HasOtherAlgorithms (data_elements signed_data.now)) }
{
    match only_within(signed_data.digest_algorithm_identifiers()) {
        Ok(only) => Ok(only),
        Err(incorrect_count) => {
            Err(AuthenticodeError::IncorrectDigestAlgorithmsCount { incorrect_count })
        }
    }
}

/// Checks that the content is indirect data.
fn expect_content<'a>(signed_data: &SignedView<'a>) -> Result<Content<'a>, AuthenticodeError>
    requires { AreSpelled (data_elements signed_data.now) }
    ensures { MatchResult result
        (λ content. (d : IndirectData)
        × IsIndirectContent (data_elements signed_data.now) d content)
        (IsFirstBroken (LacksContent (data_elements signed_data.now) ∷
        HasOtherContent (data_elements signed_data.now) ∷ [])) }
{
    let Some(elem) = signed_data.content() else {
        return Err(AuthenticodeError::NoEncapsulatedContentInfo);
    };
    if !is_same(signed_data.content_type(), SPC_INDIRECT_DATA) {
        return Err(AuthenticodeError::NoSpcIndirectDataContent);
    }
    match indirect_data_in(elem) {
        Some(content) => Ok(content),
        None => unreachable!(),
    }
}

/// The digest algorithm and the digest in indirect data.
fn indirect_data_in<'a>(elem: Elem<'a>) -> Option<Content<'a>>
    ensures { MatchOption result ((d : IndirectData) → elem.entry.is.0 ≢ sequence (indirect_kids d))
        (λ content. (image : DerElement)
        × (elem.entry.is.0 ≡ sequence (image ∷
        sequence (content.algorithm.is.0 ∷ octet_string content.digest.now ∷ []) ∷ []))
        × (content.elem.is.0 ≡ elem.entry.is.0)) }
{
    let (_image, digest_info) = two_kids(elem, SEQUENCE)?;
    let (algorithm, digest) = two_kids(digest_info, SEQUENCE)?;
    let digest = leaf_at(digest, OCTET_STRING)?;
    Some(Content {
        elem,
        algorithm,
        digest,
    })
}

/// The only element in an element, or the number of elements in it.
fn only_within<'a>(elem: Elem<'a>) -> Result<Elem<'a>, usize>
    ensures { MatchResult result (λ only. members_of (Some elem.entry.is.0) ≡ only.is.0 ∷ [])
        (λ count. (length (members_of (Some elem.entry.is.0)) ≢ 1)
        × (count ≡ length (members_of (Some elem.entry.is.0)))) }
{
    let count = count_within(elem);
    match first_within(elem) {
        Some(only) if count == 1 => Ok(only),
        _ => Err(count),
    }
}

/// The first element in an element.
pub(crate) fn first_within<'a>(elem: Elem<'a>) -> Option<Elem<'a>>
    ensures { MatchOption result (members_of (Some elem.entry.is.0) ≡ [])
        (λ first. (others : List DerElement)
        × (members_of (Some elem.entry.is.0) ≡ first.is.0 ∷ others)) }
{
    let mut kids = Kids::within(elem)?;
    kids.next()
}

/// The number of elements in an element.
fn count_within(elem: Elem<'_>) -> usize
    ensures { result ≡ length (members_of (Some elem.entry.is.0)) }
{
    let Some(mut kids) = Kids::within(elem) else {
        return 0;
    };
    let mut count: usize = 0;
    while let Some(_kid) = kids.next() {
        count += 1;
    }
    count
}
