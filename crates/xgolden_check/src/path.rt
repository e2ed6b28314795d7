//! The indices of the certificates of signed data: the signer's and its issuers'.
//!
//! A vector is signed data in hexadecimal. The line has the number of certificates, the index of the
//! signer's as the check reports it, and the indices of the issuer walk, those that aren't on the
//! issuer path in parentheses.

ghost use Rattle.cms_types.specs.SignedView.{IsSignedView};
ghost use Rattle.der_core.specs.DerElement.{DerElement};

use anyhow::Result;
use authenticode_core::{
    BagCertificate, Policy, certificate_bag, check_signed_data, issuer_walk_of,
};
use cms_types::SignedView;
use der_core::{is_same, whole_element};
use sig_core::DemoScheme;
use std::alloc::Global;
use xgolden::octets_of;

/// The line for a vector.
pub fn answer(alloc: Global, row: &str) -> Result<String> {
    let octets = octets_of(alloc, row)?;
    answer_of(alloc, &octets)
}

fn answer_of(alloc: Global, octets: &[u8]) -> Result<String> {
    if let Some(elem) = whole_element(octets) {
        if let Some(signed_data) = SignedView::read(elem) {
            return places_of(alloc, &signed_data);
        }
    }
    Ok(format!(in alloc; "no signed data")?)
}

/// The line with the indices for signed data.
fn places_of(alloc: Global, signed_data: &SignedView<'_>) -> Result<String>
    requires { (element : DerElement) × IsSignedView element signed_data.now }
{
    let count = certificate_bag(signed_data).count();
    let Some(signer) = signer_of(alloc, signed_data) else {
        return Ok(format!(in alloc; "{count}")?);
    };
    let mut line = format!(in alloc; "{count} {}:", signer.place)?;
    let mut walk = issuer_walk_of(signed_data, &signer.certificate);
    while let Some(next) = walk.next() {
        let word = walk_word(alloc, &signer, &next)?;
        line.push_str(&word)?;
    }
    Ok(line)
}

/// The signer's certificate, if the check reports its index. Neither dates nor the chain are
/// checked.
fn signer_of<'a>(alloc: Global, signed_data: &SignedView<'a>) -> Option<BagCertificate<'a>>
    requires { (element : DerElement) × IsSignedView element signed_data.now }
{
    let mut policy = Policy::new(alloc);
    policy.basic = false;
    policy.not_before = false;
    policy.not_after = false;
    policy.chain = false;
    match check_signed_data(alloc, signed_data, &policy, &DemoScheme::new()) {
        Ok(accepted) => certificate_at(signed_data, accepted.signer),
        Err(_) => None,
    }
}

/// The certificate at an index of the bag.
fn certificate_at<'a>(
    signed_data: &SignedView<'a>,
    place: Option<usize>,
) -> Option<BagCertificate<'a>> {
    let mut bag = certificate_bag(signed_data);
    while let Some(next) = bag.next() {
        if Some(next.place) == place {
            return Some(next);
        }
    }
    None
}

/// The index of a certificate of the issuer walk, in parentheses if it isn't on the issuer path.
fn walk_word(
    alloc: Global,
    signer: &BagCertificate<'_>,
    next: &BagCertificate<'_>,
) -> Result<String> {
    let place = next.place;
    if is_same(next.certificate.subject(), signer.certificate.subject()) {
        Ok(format!(in alloc; " ({place})")?)
    } else {
        Ok(format!(in alloc; " {place}")?)
    }
}
