//! Builder settings for a certificate.

ghost use Rattle.std.specs.Prelude.{◌≡◌, ℕ, List, Some, None, true, false, OnOk, OnErr, MatchOption};
ghost use Rattle.asn1_types.specs.declared.oids.TheConstants.{CE_SUBJECT_KEY_IDENTIFIER};
ghost use Rattle.sig_core.specs.declared.hash.HashAlgorithm.TheVariants as hashes;
ghost use Rattle.key_core.specs.declared.key_id.KeyIdGenMethod.TheVariants as methods;
ghost use Rattle.key_core.specs.declared.signature_algorithm.SignatureAlgorithm.TheVariants as algorithms;
ghost use Rattle.x509_types.specs.ExtensionParts.{HasSubjectKey};
ghost use Rattle.x509_types.specs.FirstOfValue.{extensions_in, NoneHas};
ghost use Rattle.x509_types.specs.declared.extension.view.ExtensionView.TheVariants as views;
ghost use Rattle.x509_core.specs.FirstValue.{HasFirst};
ghost use Rattle.x509_issuing.specs.IssuedUnder.{IsIssuedUnder};
ghost use Rattle.x509_issuing.specs.declared.builder.SubjectInfos.TheVariants as subjects;

mod building;
mod extensions;
mod inheriting;
mod refusing;
mod signing;
mod subject;

use crate::csr::Csr;
use der_core::Octets;
use key_core::{KeyIdGenMethod, PrivateKey, PublicKey, SignatureAlgorithm};
use names_core::{DirectoryName, GeneralNames, UtcDate};
use sig_core::HashAlgorithm;
use std::alloc::{AllocError, Global};
use x509_core::Cert;
use x509_types::{ExtendedKeyUsage, KeyUsage};

/// The issuer, who signs the certificate.
#[derive(Drop)]
pub struct IssuerInfos<'a> {
    name: DirectoryName,
    key: &'a PrivateKey,
    /// Whether the issuer is also the subject.
    self_signed: bool,
}

/// The subject of the certificate, if it isn't the issuer.
pub enum SubjectInfos {
    /// A subject with this name and key.
    Named(DirectoryName, PublicKey),
    /// The subject of a certification request.
    Request(Csr),
}

/// By hand, so that dropping one is a call: else each function that drops one is proved through all
/// its parts.
impl Drop for SubjectInfos {
    fn drop(self) {
        match self {
            SubjectInfos::Named(_held, _other) => {}
            SubjectInfos::Request(_held) => {}
        }
    }
}

/// Builds a certificate (RFC 5280 4.1). Of the calls that set one thing the last counts.
pub struct CertificateBuilder<'a> {
    alloc: Global,
    valid_from: Option<UtcDate>,
    valid_to: Option<UtcDate>,
    issuer_infos: Option<IssuerInfos<'a>>,
    subject_infos: Option<SubjectInfos>,
    authority_key_identifier: Option<Octets>,
    serial_number: Option<Octets>,
    signature_hash_type: SignatureAlgorithm,
    key_id_gen_method: KeyIdGenMethod,
    ca: bool,
    pathlen: Option<u8>,
    key_usage: Option<KeyUsage>,
    extended_key_usage: Option<ExtendedKeyUsage>,
    subject_alt_name: Option<GeneralNames>,
    issuer_alt_name: Option<GeneralNames>,
    inherits: bool,
}

/// By hand, so that dropping a builder is a call: else each function that drops one is proved
/// through all its parts.
impl Drop for CertificateBuilder<'_> {
    fn drop(self) {
        let CertificateBuilder {
            alloc: _alloc,
            valid_from: _valid_from,
            valid_to: _valid_to,
            issuer_infos: _issuer_infos,
            subject_infos: _subject_infos,
            authority_key_identifier: _authority_key_identifier,
            serial_number: _serial_number,
            signature_hash_type: _signature_hash_type,
            key_id_gen_method: _key_id_gen_method,
            ca: _ca,
            pathlen: _pathlen,
            key_usage: _key_usage,
            extended_key_usage: _extended_key_usage,
            subject_alt_name: _subject_alt_name,
            issuer_alt_name: _issuer_alt_name,
            inherits: _inherits,
        } = self;
    }
}

impl<'a> CertificateBuilder<'a> {
    /// An empty builder: it signs with RSA and SHA-256, key identifiers are the SHA-256 of the
    /// SubjectPublicKeyInfo, and the certificate isn't a CA certificate.
    pub fn new(alloc: Global) -> CertificateBuilder<'a>
        ensures { result ≡ record {
          alloc = alloc;
          valid_from = None;
          valid_to = None;
          issuer_infos = None;
          subject_infos = None;
          authority_key_identifier = None;
          serial_number = None;
          signature_hash_type = algorithms.RsaPkcs1v15 hashes.SHA2_256;
          key_id_gen_method = methods.SPKFullDER hashes.SHA2_256;
          ca = false;
          pathlen = None;
          key_usage = None;
          extended_key_usage = None;
          subject_alt_name = None;
          issuer_alt_name = None;
          inherits = false;
        } }
    {
        CertificateBuilder {
            alloc,
            valid_from: None,
            valid_to: None,
            issuer_infos: None,
            subject_infos: None,
            authority_key_identifier: None,
            serial_number: None,
            signature_hash_type: SignatureAlgorithm::RsaPkcs1v15(HashAlgorithm::SHA2_256),
            key_id_gen_method: KeyIdGenMethod::SPKFullDER(HashAlgorithm::SHA2_256),
            ca: false,
            pathlen: None,
            key_usage: None,
            extended_key_usage: None,
            subject_alt_name: None,
            issuer_alt_name: None,
            inherits: false,
        }
    }

    /// The first and the last second of the validity (RFC 5280 4.1.2.5).
    pub fn validity(mut self, valid_from: UtcDate, valid_to: UtcDate) -> Self
        ensures { result ≡ record self.entry
            { valid_from = Some valid_from; valid_to = Some valid_to } }
    {
        self.valid_from = Some(valid_from);
        self.valid_to = Some(valid_to);
        self
    }

    /// The subject's name and key. They replace a request.
    pub fn subject(mut self, name: DirectoryName, public_key: PublicKey) -> Self
        ensures { result ≡ record self.entry
            { subject_infos = Some (subjects.Named name public_key) } }
    {
        self.subject_infos = Some(SubjectInfos::Named(name, public_key));
        self
    }

    /// The subject's request. It replaces a name and a key.
    pub fn subject_from_csr(mut self, csr: Csr) -> Self
        ensures { result ≡ record self.entry { subject_infos = Some (subjects.Request csr) } }
    {
        self.subject_infos = Some(SubjectInfos::Request(csr));
        self
    }

    /// The name and the key of an issuer that isn't the subject.
    pub fn issuer(mut self, name: DirectoryName, key: &'a PrivateKey) -> Self
        ensures { result ≡ record self.entry
            { issuer_infos = Some (record { name = name; key = key.entry; self_signed = false }) } }
    {
        self.issuer_infos = Some(IssuerInfos {
            name,
            key,
            self_signed: false,
        });
        self
    }

    /// The name and the key of an issuer that is also the subject.
    pub fn self_signed(mut self, name: DirectoryName, key: &'a PrivateKey) -> Self
        ensures { result ≡ record self.entry
            { issuer_infos = Some (record { name = name; key = key.entry; self_signed = true }) } }
    {
        self.issuer_infos = Some(IssuerInfos {
            name,
            key,
            self_signed: true,
        });
        self
    }

    /// An issuer that isn't the subject: its name is the subject of its certificate, and the
    /// subject key identifier there, if any, becomes the authority key identifier. A refusal
    /// changes nothing.
    pub fn issuer_cert(
        &mut self,
        issuer_cert: &Cert,
        issuer_key: &'a PrivateKey,
    ) -> Result<(), AllocError>
        ensures ok { OnOk result
            (IsIssuedUnder issuer_cert.now issuer_key.entry self.old self.new) }
        ensures identified { OnOk result ((key : List ℕ)
            → HasSubjectKey issuer_cert.now.elements key
            → self.new.authority_key_identifier ≡ Some key) }
        ensures err { OnErr result (self.new ≡ self.old) }
    {
        let name = issuer_cert.subject_name(self.alloc)?;
        match key_identifier_of(issuer_cert) {
            Some(key) => {
                self.authority_key_identifier = Some(Octets::from_slice(self.alloc, key)?);
                self.set_issuer(name, issuer_key);
                Ok(())
            }
            None => {
                self.set_issuer(name, issuer_key);
                Ok(())
            }
        }
    }

    /// Sets an issuer that isn't the subject.
    fn set_issuer(&mut self, name: DirectoryName, key: &'a PrivateKey)
        ensures { self.new ≡ record self.old
            { issuer_infos = Some (record { name = name; key = key.entry; self_signed = false }) } }
    {
        self.issuer_infos = Some(IssuerInfos {
            name,
            key,
            self_signed: false,
        });
    }

    /// The authority key identifier (RFC 5280 4.2.1.1). If the issuer is also the subject, the
    /// generated identifier of its key replaces it.
    pub fn authority_key_identifier(mut self, key: Octets) -> Self
        ensures { result ≡ record self.entry { authority_key_identifier = Some key } }
    {
        self.authority_key_identifier = Some(key);
        self
    }

    /// Whether the certificate is a CA certificate (RFC 5280 4.2.1.9).
    pub fn ca(mut self, ca: bool) -> Self
        ensures { result ≡ record self.entry { ca = ca } }
    {
        self.ca = ca;
        self
    }

    /// How many certificates may be between it and the end of a path (RFC 5280 4.2.1.9).
    pub fn pathlen(mut self, pathlen: u8) -> Self
        ensures { result ≡ record self.entry { pathlen = Some pathlen } }
    {
        self.pathlen = Some(pathlen);
        self
    }

    /// The signature algorithm.
    pub fn signature_hash_type(mut self, algorithm: SignatureAlgorithm) -> Self
        ensures { result ≡ record self.entry { signature_hash_type = algorithm } }
    {
        self.signature_hash_type = algorithm;
        self
    }

    /// How key identifiers are generated.
    pub fn key_id_gen_method(mut self, method: KeyIdGenMethod) -> Self
        ensures { result ≡ record self.entry { key_id_gen_method = method } }
    {
        self.key_id_gen_method = method;
        self
    }

    /// The key usage (RFC 5280 4.2.1.3).
    pub fn key_usage(mut self, usage: KeyUsage) -> Self
        ensures { result ≡ record self.entry { key_usage = Some usage } }
    {
        self.key_usage = Some(usage);
        self
    }

    /// The extended key usage (RFC 5280 4.2.1.12).
    pub fn extended_key_usage(mut self, usage: ExtendedKeyUsage) -> Self
        ensures { result ≡ record self.entry { extended_key_usage = Some usage } }
    {
        self.extended_key_usage = Some(usage);
        self
    }

    /// The subject alternative names (RFC 5280 4.2.1.6).
    pub fn subject_alt_name(mut self, names: GeneralNames) -> Self
        ensures { result ≡ record self.entry { subject_alt_name = Some names } }
    {
        self.subject_alt_name = Some(names);
        self
    }

    /// The issuer alternative names (RFC 5280 4.2.1.7).
    pub fn issuer_alt_name(mut self, names: GeneralNames) -> Self
        ensures { result ≡ record self.entry { issuer_alt_name = Some names } }
    {
        self.issuer_alt_name = Some(names);
        self
    }

    /// The serial number in big-endian order (RFC 5280 4.1.2.2).
    pub fn serial_number(mut self, serial_number: Octets) -> Self
        ensures { result ≡ record self.entry { serial_number = Some serial_number } }
    {
        self.serial_number = Some(serial_number);
        self
    }

    /// Whether the certificate has the extensions that its request asks for, except those with an
    /// OID that it already has. Each is compared with all others, so the time is quadratic in their
    /// number: limit the size of untrusted requests.
    pub fn inherit_extensions_from_csr_attributes(mut self, inherits: bool) -> Self
        ensures { result ≡ record self.entry { inherits = inherits } }
    {
        self.inherits = inherits;
        self
    }
}

/// The subject key identifier of a certificate, if any.
fn key_identifier_of(cert: &Cert) -> Option<&[u8]>
    ensures { MatchOption result
        (NoneHas CE_SUBJECT_KEY_IDENTIFIER.now
        (extensions_in cert.now.certificate.tbs_certificate.extensions))
        (λ key. HasFirst CE_SUBJECT_KEY_IDENTIFIER.now
        (extensions_in cert.now.certificate.tbs_certificate.extensions)
        (views.SubjectKeyIdentifier key.now)) }
{
    match cert.subject_key_identifier() {
        Ok(key) => Some(key),
        Err(_) => None,
    }
}
