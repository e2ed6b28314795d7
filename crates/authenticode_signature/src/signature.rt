//! Owned Authenticode signatures.

ghost use Rattle.std.specs.Prelude.{◌≡◌, ◌≢◌, ◌∷◌, [], ℕ, IfOk, Err, MatchResult};
ghost use Rattle.std.specs.Option.{option_copied, option_map};
ghost use Rattle.der_core.specs.DerElement.{DerElement};
ghost use Rattle.der_core.specs.Encoding.{encoding, IsDer, IsPaddedEncoding};
ghost use Rattle.der_core.specs.Reading.{IsExactFault};
ghost use Rattle.der_core.specs.Refusals.{RefusesInner, RefusesOctets};
ghost use Rattle.der_core.specs.Structure.{IsWithin};
ghost use Rattle.der_core.specs.declared.error.DerError.{DerError};
ghost use Rattle.der_core.specs.declared.error.DerError.TheVariants as der_errors;
ghost use Rattle.der_core.specs.declared.fault.DerFault.{DerFault};
ghost use Rattle.cms_types.specs.Pkcs7.{pkcs7};
ghost use Rattle.cms_types.specs.declared.signed_data.pkcs7.Pkcs7Certificate.{Pkcs7Certificate};
ghost use Rattle.authenticode_signature.specs.Pkcs7.{IsPkcs7Of, signer_infos_of, written};
ghost use Rattle.authenticode_signature.specs.Refusals.{IsUnreadPkcs7, IsUnwrittenPkcs7, WrapsSignedData, of_signed_data, unread};
ghost use Rattle.authenticode_signature.specs.SignedFields.{file_hash_in, signed_attributes_in, unsigned_attributes_in};
ghost use Rattle.authenticode_signature.specs.SigningCertificate.{HasNoSigningCertificate, IsNamedOtherwise, IsSigningCertificate};
ghost use Rattle.authenticode_core.specs.Basic.{IsNoSignedData};
ghost use Rattle.authenticode_core.specs.declared.error.AuthenticodeError.{AuthenticodeError};
ghost use Rattle.authenticode_signature.specs.Unread.{RefusesPadded};

use crate::padded::read_padded;
use crate::pkcs7::Pkcs7;
use crate::refusing::{of_signature, unread};
use crate::signing_certificate::signing_certificate_of;
use authenticode_core::AuthenticodeError;
use cms_types::{ContentValue, UnsignedAttribute};
use std::alloc::{AllocError, Global};
use wincert_core::WinCertificate;
use x509_core::Cert;
use x509_types::Attribute;

/// The owned signature of a signed program (Windows Authenticode Portable Executable Signature
/// Format): signed data whose content is indirect data. Neither its form nor its validity is
/// checked when it is read.
#[derive(Debug, Drop)]
pub struct AuthenticodeSignature(pub Pkcs7);

impl AuthenticodeSignature {
    /// Reads a signature from exactly its octets (Windows Authenticode Portable Executable
    /// Signature Format). Octets that are no element, or another structure, are refused as
    /// `Asn1Deserialization`, even when memory runs out.
    pub fn from_der(alloc: Global, der: &[u8]) -> Result<AuthenticodeSignature, AuthenticodeError>
        ensures answer { MatchResult result
            (λ s. IsWithin IsPkcs7Of der.now s.0.signed)
            (WrapsSignedData (IsUnreadPkcs7 (RefusesOctets IsPkcs7Of der.now))) }
        // Octets with a fault are refused with it, even when memory runs out.
        ensures faulty { (at : ℕ) (fault : DerFault) → IsExactFault der.now at fault
            → result ≡ Err
            (of_signed_data (unread (der_errors.Malformed (record { at = at; fault = fault })))) }
        // An element that is no signed data is refused as such, even when memory runs out.
        ensures shapeless { (element : DerElement) → IsDer element → der.now ≡ encoding element
            → ((value : Pkcs7Certificate) → element ≢ pkcs7 value)
            → result ≡ Err (of_signed_data (unread der_errors.Shape)) }
    {
        match Pkcs7::from_der(alloc, der) {
            Ok(signed) => Ok(AuthenticodeSignature(signed)),
            Err(error) => Err(of_signature(error)),
        }
    }

    /// The encoding. `Asn1Serialization` exactly where `der_core::write` refuses its element.
    pub fn to_der(&self, alloc: Global) -> Result<Vec<u8>, AuthenticodeError>
        ensures { MatchResult result
            (λ octets. (octets.items ≡ encoding (written self.now.0)) × IsDer (written self.now.0))
            (WrapsSignedData (IsUnwrittenPkcs7 (RefusesInner (written self.now.0 ∷ [])))) }
    {
        match self.0.to_der(alloc) {
            Ok(octets) => Ok(octets),
            Err(error) => Err(of_signature(error)),
        }
    }

    /// The signature in a WIN_CERTIFICATE: its certificate is signed data with at most seven zeros
    /// after it. Other octets are refused as `Asn1Deserialization`, even when memory runs out.
    pub fn from_wincert(
        alloc: Global,
        cert: &WinCertificate,
    ) -> Result<AuthenticodeSignature, AuthenticodeError>
        ensures answer { MatchResult result
            (λ s. IsPaddedEncoding cert.now.certificate (written s.0))
            (WrapsSignedData (IsUnreadPkcs7 (RefusesPadded cert.now.certificate))) }
        // Octets that are no signed data are refused as such, even when memory runs out.
        ensures refused { (source : DerError) → IsNoSignedData cert.now.certificate source
            → result ≡ Err (of_signed_data (unread source)) }
    {
        match read_padded(alloc, cert.get_certificate()) {
            Ok(signed) => Ok(AuthenticodeSignature(Pkcs7::from(signed))),
            Err(source) => Err(of_signature(unread(source))),
        }
    }

    /// The signer's certificate: the first of the certificates with the issuer and the serial
    /// number of the first signer.
    pub fn signing_certificate<'a>(
        &self,
        alloc: Global,
        certificates: &'a [Cert],
    ) -> Result<&'a Cert, AuthenticodeError>
        ensures found { MatchResult result
            (λ c. IsSigningCertificate (signer_infos_of self.now.0) certificates.now c.now)
            (HasNoSigningCertificate (signer_infos_of self.now.0) certificates.now) }
        // A missing signer, and one that is identified by a key identifier, is reported, even when
        // memory runs out.
        ensures refused { (e : AuthenticodeError) → IsNamedOtherwise (signer_infos_of self.now.0) e
            → result ≡ Err e }
    {
        signing_certificate_of(alloc, self.0.signer_infos(), certificates)
    }

    /// The digest of the file, if the content is indirect data.
    pub fn file_hash(&self, alloc: Global) -> Result<Option<Vec<u8>>, AllocError>
        ensures { IfOk result (λ hash. option_map (λ octets. octets.items) hash
            ≡ file_hash_in self.now.0.signed.signed_data.content_info.content) }
    {
        match &self.0.encapsulated_content_info().content {
            Some(ContentValue::SpcIndirectDataContent(content)) => {
                let digest = content.message_digest.digest.as_slice();
                Ok(Some(Vec::from_slice(alloc, digest)?))
            }
            _ => Ok(None),
        }
    }

    /// The signed attributes of the first signer, an empty list if its field is absent; None only
    /// without a signer.
    pub fn authenticated_attributes(&self) -> Option<&[Attribute]>
        ensures { option_copied result ≡ signed_attributes_in (signer_infos_of self.now.0) }
    {
        match self.0.signer_infos().first() {
            Some(signer) => match &signer.signed_attrs {
                Some(attributes) => Some(attributes.list().as_slice()),
                None => Some(&[]),
            },
            None => None,
        }
    }

    /// The unsigned attributes of the first signer, an empty list if its field is absent; None only
    /// without a signer.
    pub fn unauthenticated_attributes(&self) -> Option<&[UnsignedAttribute]>
        ensures { option_copied result ≡ unsigned_attributes_in (signer_infos_of self.now.0) }
    {
        match self.0.signer_infos().first() {
            Some(signer) => match &signer.unsigned_attrs {
                Some(attributes) => Some(attributes.as_slice()),
                None => Some(&[]),
            },
            None => None,
        }
    }

    /// A copy of the signature.
    pub fn try_clone(&self, alloc: Global) -> Result<AuthenticodeSignature, AllocError>
        ensures { IfOk result (λ copy. copy ≡ self.now) }
    {
        Ok(AuthenticodeSignature(self.0.try_clone(alloc)?))
    }
}

impl From<Pkcs7> for AuthenticodeSignature {
    ghost from_gives = { λ signed s. s.0 ≡ signed };

    fn from(signed: Pkcs7) -> AuthenticodeSignature {
        AuthenticodeSignature(signed)
    }
}

impl From<AuthenticodeSignature> for Pkcs7 {
    ghost from_gives = { λ s signed. signed ≡ s.0 };

    fn from(s: AuthenticodeSignature) -> Pkcs7 {
        let AuthenticodeSignature(signed) = s;
        signed
    }
}
