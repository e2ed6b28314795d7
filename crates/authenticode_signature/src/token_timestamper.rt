//! A timestamper with one token for everything.

ghost use Rattle.std.specs.Prelude.{◌≡◌, ◌≢◌, ◌⊎◌, ◌∷◌, ◌++◌, [], ℕ, Ok, Err, IfOk, IfErr, OnOk, OnErr, MatchResult};
ghost use Rattle.der_core.specs.DerElement.{DerElement};
ghost use Rattle.der_core.specs.Encoding.{encoding, IsDer};
ghost use Rattle.der_core.specs.Reading.{IsExactFault};
ghost use Rattle.der_core.specs.Refusals.{RefusesInner, RefusesOctets};
ghost use Rattle.der_core.specs.Structure.{IsWithin};
ghost use Rattle.der_core.specs.Rules.{OrMemory};
ghost use Rattle.der_core.specs.declared.error.DerError.TheVariants as der_errors;
ghost use Rattle.der_core.specs.declared.fault.DerFault.{DerFault};
ghost use Rattle.key_core.specs.declared.element.Element.TheVariants as elements;
ghost use Rattle.x509_core.specs.CertRefusals.{IsUnwrittenCert};
ghost use Rattle.cms_types.specs.Pkcs7.{pkcs7};
ghost use Rattle.cms_types.specs.declared.signed_data.pkcs7.Pkcs7Certificate.{Pkcs7Certificate};
ghost use Rattle.authenticode_core.specs.StampRefusal.{token_refusal};
ghost use Rattle.authenticode_core.specs.declared.timestamp_error.TimestampError.TheVariants as errors;
ghost use Rattle.authenticode_signature.specs.Pkcs7.{IsPkcs7Of, signer_infos_of};
ghost use Rattle.authenticode_signature.specs.Refusals.{IsUnreadPkcs7, unread};
ghost use Rattle.authenticode_signature.specs.RequestRefusals.{IsRefusedRequest, IsRefusedToken, IsTooLong};
ghost use Rattle.authenticode_signature.specs.TimestampRequest.{asking_for, requested};
ghost use Rattle.authenticode_signature.specs.TokenStamp.{AreStamped, CountersignsBy, RefusesCountersigner, RefusesTokenStamp, joined_lists, token_modifies, with_unsigned};

use crate::pkcs7::Pkcs7;
use crate::timestamp_request::TimestampRequest;
use crate::timestamper::Timestamper;
use authenticode_core::TimestampError;
use cms_types::{
    CertificateSet, SignedData, SignerInfo, SignerValues, SignersInfos, UnsignedAttribute,
};
use der_core::{ListOf, Structure};
use sig_core::HashAlgorithm;
use std::alloc::{AllocError, Global};
use x509_core::{CertError, Element};

/// A timestamper with a fixed token, which it issues for whatever is timestamped. Whether the token
/// is one for that isn't checked.
#[derive(Debug, Drop)]
pub struct TokenTimestamper {
    token: Pkcs7,
}

impl TokenTimestamper {
    /// Reads the token of the timestamper from exactly its octets (RFC 5652 3). The errors are
    /// those of `Pkcs7::from_der`.
    pub fn from_der(alloc: Global, der: &[u8]) -> Result<TokenTimestamper, TimestampError>
        ensures answer { MatchResult result
            (λ t. IsWithin IsPkcs7Of der.now t.token.signed)
            (IsRefusedToken (IsUnreadPkcs7 (RefusesOctets IsPkcs7Of der.now))) }
        // Octets with a fault are refused with it, even when memory runs out.
        ensures faulty { (at : ℕ) (fault : DerFault) → IsExactFault der.now at fault
            → result ≡ Err
            (token_refusal (unread (der_errors.Malformed (record { at = at; fault = fault })))) }
        // An element that is no signed data is refused as such, even when memory runs out.
        ensures shapeless { (element : DerElement) → IsDer element → der.now ≡ encoding element
            → ((value : Pkcs7Certificate) → element ≢ pkcs7 value)
            → result ≡ Err (token_refusal (unread der_errors.Shape)) }
    {
        match Pkcs7::from_der(alloc, der) {
            Ok(token) => Ok(TokenTimestamper { token }),
            Err(error) => Err(TimestampError::from(error)),
        }
    }

    /// The encoding of a timestamp request for these octets, to be sent to a timestamp authority.
    /// It is refused exactly where some contents would be longer than 4,294,967,295 octets.
    pub fn request(&self, alloc: Global, digest: &[u8]) -> Result<Vec<u8>, TimestampError>
        ensures { MatchResult result
            (λ octets. (octets.items ≡ encoding (asking_for digest.now))
            × IsDer (asking_for digest.now))
            (IsTooLong (asking_for digest.now)) }
    {
        let request = TimestampRequest::new(alloc, digest)?;
        written(alloc, &request)
    }

    /// A copy of the timestamper.
    pub fn try_clone(&self, alloc: Global) -> Result<TokenTimestamper, AllocError>
        ensures { IfOk result (λ copy. copy ≡ self.now) }
    {
        Ok(TokenTimestamper {
            token: self.token.try_clone(alloc)?,
        })
    }
}

/// The encoding of the request.
fn written(alloc: Global, request: &TimestampRequest) -> Result<Vec<u8>, TimestampError>
    ensures { MatchResult result
        (λ octets. (octets.items ≡ encoding (requested request.now))
        × IsDer (requested request.now))
        (IsRefusedRequest (IsUnwrittenCert elements.TimestampRequest
        (RefusesInner (requested request.now ∷ [])))) }
{
    match request.to_der(alloc) {
        Ok(octets) => Ok(octets),
        Err(error) => Err(TimestampError::from(error)),
    }
}

impl Timestamper for TokenTimestamper {
    ghost use Rattle.authenticode_signature.specs.Facts.TokenStamps.{one_token_outcome};

    ghost gives = { λ timestamper octets hash token. token ≡ timestamper.token };

    ghost modifies = { λ timestamper. token_modifies };

    ghost faults = { λ timestamper. 0 };

    ghost one_outcome = { λ timestamper. one_token_outcome };

    fn timestamp(
        &mut self,
        alloc: Global,
        _digest: &[u8],
        _hash_algo: HashAlgorithm,
    ) -> Result<Pkcs7, TimestampError>
        ensures copied { IfOk result (λ token. token ≡ self.old.token) }
        ensures memory { IfErr result (λ e. e ≡ errors.Memory) }
        ensures same { self.new ≡ self.old }
    {
        Ok(self.token.try_clone(alloc)?)
    }

    fn modify_signed_data(
        &self,
        token: Pkcs7,
        signed_data: &mut SignedData,
    ) -> Result<(), TimestampError>
        ensures modified { OnOk result (token_modifies token signed_data.old (Ok signed_data.new)) }
        ensures refused { IfErr result
            (OrMemory errors.Memory (λ e. token_modifies token signed_data.old (Err e))) }
        ensures unchanged { OnErr result (signed_data.new ≡ signed_data.old) }
        // A missing signer on either side is reported, even when memory runs out.
        ensures empty { (signed_data.old.signers_infos ≡ []) ⊎ (signer_infos_of token ≡ [])
            → result ≡ Err errors.TimestampTokenEmpty }
    {
        let alloc = signed_data.signers_infos.allocator();
        let own = signed_data.signers_infos.as_slice();
        let signers = stamped_signers(alloc, token.signer_infos(), own)?;
        let more = &token.signed.signed_data.certificates;
        let certificates = joined_certificates(alloc, &signed_data.certificates, more)?;
        signed_data.signers_infos = signers;
        signed_data.certificates = certificates;
        Ok(())
    }
}

/// The signers, with the first countersigner added as a counter-signature to the first of them.
fn stamped_signers(
    alloc: Global,
    countersigners: &[SignerInfo],
    signers: &[SignerInfo],
) -> Result<SignersInfos, TimestampError>
    ensures stamped { MatchResult result
        (AreStamped countersigners.now signers.now)
        (OrMemory errors.Memory (RefusesTokenStamp countersigners.now signers.now)) }
    ensures empty { (signers.now ≡ []) ⊎ (countersigners.now ≡ [])
        → result ≡ Err errors.TimestampTokenEmpty }
{
    let Some((first, others)) = signers.split_first() else {
        return Err(TimestampError::TimestampTokenEmpty);
    };
    let stamp = countersignature(alloc, countersigners)?;
    let mut stamped = ListOf::new(alloc);
    stamped.push(stamped_signer(alloc, first, stamp)?)?;
    Ok(with_copies(alloc, stamped, others)?)
}

/// The first of the signers as a counter-signature.
fn countersignature(
    alloc: Global,
    signers: &[SignerInfo],
) -> Result<UnsignedAttribute, TimestampError>
    ensures made { MatchResult result
        (CountersignsBy signers.now)
        (OrMemory errors.Memory (RefusesCountersigner signers.now)) }
    ensures empty { signers.now ≡ [] → result ≡ Err errors.TimestampTokenEmpty }
{
    let Some((_first, _others)) = signers.split_first() else {
        return Err(TimestampError::TimestampTokenEmpty);
    };
    match SignerValues::from_signers(alloc, &signers[..1]) {
        Ok(values) => Ok(UnsignedAttribute::CounterSign(values)),
        Err(source) => Err(TimestampError::from(CertError::unwritten(Element::Pkcs7, source))),
    }
}

/// A copy of the signer with one more unsigned attribute.
fn stamped_signer(
    alloc: Global,
    signer: &SignerInfo,
    stamp: UnsignedAttribute,
) -> Result<SignerInfo, AllocError>
    ensures { IfOk result (λ stamped. stamped ≡ with_unsigned signer.now stamp) }
{
    let mut attributes = match &signer.unsigned_attrs {
        Some(attributes) => attributes.try_clone(alloc)?,
        None => ListOf::new(alloc),
    };
    attributes.push(stamp)?;
    let mut stamped = signer.try_clone(alloc)?;
    stamped.unsigned_attrs = Some(attributes);
    Ok(stamped)
}

/// Copies of the certificates of both, absent exactly if both are.
fn joined_certificates(
    alloc: Global,
    own: &Option<CertificateSet>,
    more: &Option<CertificateSet>,
) -> Result<Option<CertificateSet>, AllocError>
    ensures { IfOk result (λ joined. joined ≡ joined_lists own.now more.now) }
{
    match (own, more) {
        (None, None) => Ok(None),
        (None, Some(more)) => Ok(Some(more.try_clone(alloc)?)),
        (Some(own), None) => Ok(Some(own.try_clone(alloc)?)),
        (Some(own), Some(more)) => {
            let copied = own.try_clone(alloc)?;
            Ok(Some(with_copies(alloc, copied, more.as_slice())?))
        }
    }
}

/// The list with copies of the values appended.
pub(crate) fn with_copies<T: Structure>(
    alloc: Global,
    mut list: ListOf<T>,
    values: &[T],
) -> Result<ListOf<T>, AllocError>
    ensures { IfOk result (λ all. all ≡ list ++ values.now) }
{
    for value in values {
        list.push(value.try_clone(alloc)?)?;
    }
    Ok(list)
}
