//! Certificates stored with their octets.

ghost use Rattle.std.specs.Prelude.{◌≡◌, ◌↔◌, ℕ, false, IsTrue, IfOk, Err, MatchResult};
ghost use Rattle.der_core.specs.DerElement.{DerElement};
ghost use Rattle.der_core.specs.Encoding.{encoding, IsDer};
ghost use Rattle.der_core.specs.Equality.{same_octets};
ghost use Rattle.der_core.specs.Facts.Equality.{same_octets_per};
ghost use Rattle.der_core.specs.Reading.{IsExactFault};
ghost use Rattle.der_core.specs.Refusals.{RefusesInner, RefusesOctets, RefusesShape};
ghost use Rattle.der_core.specs.Structure.{Fits, IsWithin};
ghost use Rattle.der_core.specs.declared.error.DerError.TheVariants as der_errors;
ghost use Rattle.der_core.specs.declared.fault.DerFault.{DerFault};
ghost use Rattle.asn1_types.specs.Time.{generalized_fields};
ghost use Rattle.key_core.specs.Keys.{info_of};
ghost use Rattle.key_core.specs.declared.element.Element.TheVariants as elements;
ghost use Rattle.names_core.specs.UtcDate.{time_fields};
ghost use Rattle.names_core.specs.Names.{sets_of};
ghost use Rattle.x509_types.specs.Certificate.{IsCertificate};
ghost use Rattle.x509_types.specs.CertificateElements.{certificate_of};
ghost use Rattle.x509_types.specs.CertificateView.{IsKnownView, view_elements};
ghost use Rattle.x509_types.specs.FirstOfValue.{extensions_in};
ghost use Rattle.x509_types.specs.declared.certificate.Certificate.{Certificate};
ghost use Rattle.x509_core.specs.OwnedCertificate.{HasFields, KeptCertificate, kept_octets, written_elements, written_octets};
ghost use Rattle.x509_core.specs.Keyless.{joined};
ghost use Rattle.x509_core.specs.CertRefusals.{IsUnreadCert, IsUnwrittenCert};
ghost use Rattle.x509_core.specs.declared.error.CertError.TheVariants as errors;
ghost use Rattle.x509_core.specs.Facts.Certs.{HasFields-prop};

use crate::error::CertError;
use crate::keyless::Keyless;
use asn1_types::IntegerAsn1;
use der_core::{DerError, Elem, Raw, Structure, exact_elem};
use key_core::{Element, PublicKey};
use names_core::{DirectoryName, UtcDate};
use std::alloc::{AllocError, Global};
use std::marker::Model;
use x509_types::{AlgorithmIdentifier, CertView, Certificate, Extension, Time};

/// A certificate (RFC 5280 4.1), stored with its octets. Contracts see it as the elements of its
/// fields and the value that they encode. A `Cert` isn't verified or trusted by itself.
#[derive(Debug)]
pub struct Cert {
    kept: Raw,
    rest: Keyless,
    public_key: PublicKey,
    ghost fields: { HasFields kept.element (joined rest public_key) } by { HasFields-prop kept.element (joined rest public_key) },
}

/// By hand, so that dropping a certificate is a call: else each function that drops one is proved
/// through all its parts.
impl Drop for Cert {
    fn drop(self) {
        let Cert {
            kept: _kept,
            rest: _rest,
            public_key: _public_key,
        } = self;
    }
}

impl Model for Cert {
    ghost use Rattle.x509_core.specs.OwnedCertificate.{KeptCertificate};
    ghost use Rattle.x509_core.specs.Keyless.{joined};
    ghost use Rattle.x509_core.specs.Facts.Certs.{coded_certificates};

    ghost Value = { KeptCertificate };

    ghost coded = { coded_certificates };

    ghost view = { λ cert. record {
      elements = cert.fields.0;
      certificate = joined cert.rest cert.public_key;
      der = cert.fields.1.1;
      spelled = cert.fields.1.2;
    } };
}

impl Cert {
    /// Reads a certificate from exactly its octets (RFC 5280 4.1). Octets that are no element, or
    /// another structure, are refused as `Asn1Deserialization`, even when memory runs out.
    pub fn from_der(alloc: Global, der: &[u8]) -> Result<Cert, CertError>
        ensures kept { IfOk result (λ cert. kept_octets cert ≡ der.now) }
        ensures answer { MatchResult result
            (λ cert. IsWithin IsCertificate der.now cert.certificate)
            (IsUnreadCert elements.Certificate (RefusesOctets IsCertificate der.now)) }
        // Octets with a fault are refused with it, even when memory runs out.
        ensures faulty { (at : ℕ) (fault : DerFault) → IsExactFault der.now at fault
            → result ≡ Err (errors.Asn1Deserialization elements.Certificate
            (der_errors.Malformed (record { at = at; fault = fault }))) }
        // An element that is no certificate is refused as such, even when memory runs out.
        ensures shapeless { (element : DerElement) → IsDer element → der.now ≡ encoding element
            → ((c : Certificate) → IsCertificate element c → ⊥)
            → result ≡ Err (errors.Asn1Deserialization elements.Certificate der_errors.Shape) }
        // The octets of a known certificate are read as that certificate, or memory runs out.
        ensures reread { (cert : KeptCertificate) → der.now ≡ kept_octets cert
            → MatchResult result (λ read. read ≡ cert) (λ e. e ≡ errors.Memory) }
    {
        match Cert::read(alloc, der) {
            Ok(cert) => Ok(cert),
            Err(source) => Err(CertError::unread(Element::Certificate, source)),
        }
    }

    /// Reads a certificate. Its shape is tested as its fields are read.
    fn read(alloc: Global, der: &[u8]) -> Result<Cert, DerError>
        ensures kept { IfOk result (λ cert. kept_octets cert ≡ der.now) }
        ensures answer { MatchResult result
            (λ cert. IsWithin IsCertificate der.now cert.certificate)
            (RefusesOctets IsCertificate der.now) }
        ensures faulty { (at : ℕ) (fault : DerFault) → IsExactFault der.now at fault
            → result ≡ Err (der_errors.Malformed (record { at = at; fault = fault })) }
        ensures shapeless { (element : DerElement) → IsDer element → der.now ≡ encoding element
            → ((c : Certificate) → IsCertificate element c → ⊥) → result ≡ Err der_errors.Shape }
    {
        let elem = exact_elem(der)?;
        match Cert::from_elem(alloc, elem) {
            Ok(cert) => Ok(cert),
            Err(error) => Err(refusal(elem, error)),
        }
    }

    /// The certificate that a borrowed element encodes, with a copy of its octets, which are not
    /// tested again. Fails with `Shape`, if it encodes none, or `Memory`.
    pub fn from_elem(alloc: Global, elem: Elem<'_>) -> Result<Cert, DerError>
        ensures kept { IfOk result (λ cert. certificate_of cert.elements ≡ elem.entry.is.0) }
        ensures answer { MatchResult result
            (λ cert. IsCertificate elem.entry.is.0 cert.certificate)
            (RefusesShape (IsCertificate elem.entry.is.0)) }
    {
        let kept = Raw::from_elem(alloc, elem)?;
        let certificate = Certificate::read_at(alloc, elem)?;
        Ok(Cert::keep(kept, certificate))
    }

    /// The certificate that a raw element encodes.
    fn keep(kept: Raw, certificate: Certificate) -> Cert
        requires { IsCertificate kept.element certificate }
        ensures { (certificate_of result.elements ≡ kept.element)
            × (result.certificate ≡ certificate) }
    {
        let (rest, public_key) = Keyless::split(certificate);
        Cert::of_parts(kept, rest, public_key)
    }

    /// The certificate with these parts.
    fn of_parts(kept: Raw, rest: Keyless, public_key: PublicKey) -> Cert
        requires { HasFields kept.element (joined rest public_key) }
        ensures { (certificate_of result.elements ≡ kept.element)
            × (result.certificate ≡ joined rest public_key) }
    {
        Cert {
            kept,
            rest,
            public_key,
        }
    }

    /// A copy of the octets, as they were read or first written.
    pub fn to_der(&self, alloc: Global) -> Result<Vec<u8>, CertError>
        ensures { MatchResult result (λ octets. octets.items ≡ kept_octets self.now)
            (λ e. e ≡ errors.Memory) }
    {
        Ok(Vec::from_slice(alloc, self.kept.as_bytes())?)
    }

    /// The octets, as they were read or first written, borrowed. It doesn't allocate.
    pub fn as_bytes(&self) -> &[u8]
        ensures { result.now ≡ kept_octets self.now }
    {
        self.kept.as_bytes()
    }

    /// Makes a certificate from a value, with the value's encoding. A value without one is refused
    /// as `Asn1Serialization`.
    pub fn from_certificate(alloc: Global, certificate: Certificate) -> Result<Cert, CertError>
        ensures { MatchResult result
            (λ cert. (kept_octets cert ≡ written_octets certificate)
            × (cert.certificate ≡ certificate))
            (IsUnwrittenCert elements.Certificate (RefusesInner (written_elements certificate))) }
    {
        match written(alloc, &certificate) {
            Ok(kept) => Ok(Cert::keep(kept, certificate)),
            Err(source) => Err(CertError::unwritten(Element::Certificate, source)),
        }
    }

    /// The value of the certificate. It doesn't allocate.
    pub fn into_certificate(self) -> Certificate
        ensures { result ≡ self.certificate }
    {
        let Cert {
            kept: _kept,
            rest,
            public_key,
        } = self;
        rest.join(public_key)
    }

    /// A borrowed view of the certificate. It doesn't allocate, and reads only tags and lengths.
    pub fn view(&self) -> CertView<'_>
        ensures is { IsKnownView (certificate_of self.now.elements) result }
        ensures elements { view_elements result ≡ self.now.elements }
    {
        CertView::of_known(self.kept.elem())
    }

    /// The serial number (RFC 5280 4.1.2.2).
    pub fn serial_number(&self) -> &IntegerAsn1
        ensures { result.now ≡ self.now.certificate.tbs_certificate.serial_number }
    {
        &self.rest.issued.serial_number
    }

    /// The signature algorithm in the TBSCertificate (RFC 5280 4.1.2.3).
    pub fn signature_algorithm(&self) -> &AlgorithmIdentifier
        ensures { result.now ≡ self.now.certificate.tbs_certificate.signature }
    {
        &self.rest.issued.signature
    }

    /// The issuer's name (RFC 5280 4.1.2.4).
    pub fn issuer_name(&self, alloc: Global) -> Result<DirectoryName, AllocError>
        ensures { IfOk result (λ copy. sets_of copy ≡ self.now.certificate.tbs_certificate.issuer) }
    {
        Ok(DirectoryName::from(self.rest.issued.issuer.try_clone(alloc)?))
    }

    /// The first second of the validity (RFC 5280 4.1.2.5).
    pub fn valid_not_before(&self) -> UtcDate
        ensures { generalized_fields result
            ≡ time_fields self.now.certificate.tbs_certificate.validity.not_before }
    {
        date_of(&self.rest.issued.validity.not_before)
    }

    /// The last second of the validity (RFC 5280 4.1.2.5).
    pub fn valid_not_after(&self) -> UtcDate
        ensures { generalized_fields result
            ≡ time_fields self.now.certificate.tbs_certificate.validity.not_after }
    {
        date_of(&self.rest.issued.validity.not_after)
    }

    /// The subject's name (RFC 5280 4.1.2.6).
    pub fn subject_name(&self, alloc: Global) -> Result<DirectoryName, AllocError>
        ensures { IfOk result
            (λ copy. sets_of copy ≡ self.now.certificate.tbs_certificate.subject) }
    {
        Ok(DirectoryName::from(self.rest.issued.subject.try_clone(alloc)?))
    }

    /// The subject's key with its algorithm (RFC 5280 4.1.2.7).
    pub fn public_key(&self) -> &PublicKey
        ensures { info_of result.now
            ≡ self.now.certificate.tbs_certificate.subject_public_key_info }
    {
        &self.public_key
    }

    /// The subject's key with its algorithm (RFC 5280 4.1.2.7). It doesn't allocate.
    pub fn into_public_key(self) -> PublicKey
        ensures { info_of result ≡ self.certificate.tbs_certificate.subject_public_key_info }
    {
        let Cert {
            kept: _kept,
            rest: _rest,
            public_key,
        } = self;
        public_key
    }

    /// The extensions in order, empty if the field is absent (RFC 5280 4.1.2.9).
    pub fn extensions(&self) -> &[Extension]
        ensures { result.now ≡ extensions_in self.now.certificate.tbs_certificate.extensions }
    {
        match &self.rest.later.extensions {
            Some(extensions) => extensions.as_slice(),
            None => &[],
        }
    }

    /// The signature algorithm outside the TBSCertificate (RFC 5280 4.1.1.2).
    pub(crate) fn outer_algorithm(&self) -> &AlgorithmIdentifier
        ensures { result.now ≡ self.now.certificate.signature_algorithm }
    {
        &self.rest.later.signature_algorithm
    }

    /// A copy of the certificate.
    pub fn try_clone(&self, alloc: Global) -> Result<Cert, AllocError>
        ensures { IfOk result (λ copy. copy ≡ self.now) }
    {
        let kept = self.kept.try_clone(alloc)?;
        let public_key = self.public_key.try_clone(alloc)?;
        let rest = self.rest.try_clone(alloc)?;
        Ok(Cert::of_parts(kept, rest, public_key))
    }
}

/// Whether the element encodes a certificate.
fn is_certificate(elem: Elem<'_>) -> bool
    ensures fits { IsTrue result → Fits IsCertificate elem.entry.is.0 }
    ensures unfit { result ≡ false → (c : Certificate) → IsCertificate elem.entry.is.0 c → ⊥ }
{
    CertView::read(elem).is_some()
}

/// Why an element wasn't read: if it encodes no certificate, for its shape, even when memory ran
/// out first.
fn refusal(elem: Elem<'_>, error: DerError) -> DerError
    requires { RefusesShape (IsCertificate elem.is.0) error }
    ensures answer { RefusesShape (IsCertificate elem.entry.is.0) result }
    ensures shapeless { ((c : Certificate) → IsCertificate elem.entry.is.0 c → ⊥)
        → result ≡ der_errors.Shape }
{
    if is_certificate(elem) {
        return error;
    }
    DerError::Shape
}

/// The encoding of a certificate.
fn written(alloc: Global, certificate: &Certificate) -> Result<Raw, DerError>
    ensures { MatchResult result
        (λ raw. (encoding raw.element ≡ written_octets certificate.now)
        × IsCertificate raw.element certificate.now)
        (RefusesInner (written_elements certificate.now)) }
{
    let tree = certificate.write(alloc)?;
    Raw::from_tree(alloc, &tree)
}

/// The date of a Time in either form.
fn date_of(time: &Time) -> UtcDate
    ensures { generalized_fields result ≡ time_fields time.now }
{
    match time {
        Time::Utc(time) => UtcDate::from(*time),
        Time::Generalized(time) => UtcDate::from(*time),
    }
}

/// Certificates are equal exactly where their octets are.
impl PartialEq for Cert {
    ghost eq = { same_octets (λ kept. certificate_of kept.elements) };

    ghost laws = { same_octets_per (λ kept. certificate_of kept.elements) };

    fn eq(&self, other: &Cert) -> bool
        ensures octets { result ≡ same_octets (λ kept. certificate_of kept.elements) self.now
            other.now }
        ensures same { IsTrue result ↔ (self.now ≡ other.now) }
    {
        self.kept == other.kept
    }
}
