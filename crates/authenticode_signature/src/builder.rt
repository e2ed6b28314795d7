//! Signatures over any content, from a caller's parts.

ghost use Rattle.std.specs.Prelude.{◌≡◌, Some, None};
ghost use Rattle.names_core.specs.Names.{sets_of};
ghost use Rattle.authenticode_signature.specs.Building.{no_parts};

mod building;

use asn1_types::IntegerAsn1;
use cms_types::{EncapsulatedContentInfo, IssuerAndSerialNumber, UnsignedAttributeList};
use key_core::PrivateKey;
use name_types::Name;
use names_core::DirectoryName;
use sig_core::HashAlgorithm;
use x509_core::Cert;
use x509_types::AttributeList;

/// Builds a signature from its content, its attributes and its signer (RFC 2315 9.1, 9.2).
pub struct AuthenticodeSignatureBuilder<'a> {
    certs: Option<Vec<Cert>>,
    digest_algorithm: Option<HashAlgorithm>,
    content_info: Option<EncapsulatedContentInfo>,
    signing_key: Option<&'a PrivateKey>,
    authenticated_attributes: Option<AttributeList>,
    unsigned_attributes: Option<UnsignedAttributeList>,
    named: Option<IssuerAndSerialNumber>,
}

/// By hand, so that dropping a builder is a call: else each function that drops one is proved
/// through all its parts.
impl Drop for AuthenticodeSignatureBuilder<'_> {
    fn drop(self) {
        let AuthenticodeSignatureBuilder {
            certs: _certs,
            digest_algorithm: _digest_algorithm,
            content_info: _content_info,
            signing_key: _signing_key,
            authenticated_attributes: _authenticated_attributes,
            unsigned_attributes: _unsigned_attributes,
            named: _named,
        } = self;
    }
}

impl<'a> AuthenticodeSignatureBuilder<'a> {
    /// An empty builder.
    pub fn new() -> Self
        ensures { result ≡ no_parts }
    {
        AuthenticodeSignatureBuilder {
            certs: None,
            digest_algorithm: None,
            content_info: None,
            signing_key: None,
            authenticated_attributes: None,
            unsigned_attributes: None,
            named: None,
        }
    }

    /// The certificates, the signer's among them. The signature contains those that aren't roots.
    pub fn certs(mut self, certs: Vec<Cert>) -> Self
        ensures { result ≡ record self.entry { certs = Some certs } }
    {
        self.certs = Some(certs);
        self
    }

    /// The digest algorithm.
    pub fn digest_algorithm(mut self, digest_algorithm: HashAlgorithm) -> Self
        ensures { result ≡ record self.entry { digest_algorithm = Some digest_algorithm } }
    {
        self.digest_algorithm = Some(digest_algorithm);
        self
    }

    /// The content with its type.
    pub fn content_info(mut self, content_info: EncapsulatedContentInfo) -> Self
        ensures { result ≡ record self.entry { content_info = Some content_info } }
    {
        self.content_info = Some(content_info);
        self
    }

    /// The private key that signs.
    pub fn signing_key(mut self, signing_key: &'a PrivateKey) -> Self
        ensures { result ≡ record self.entry { signing_key = Some signing_key.entry } }
    {
        self.signing_key = Some(signing_key);
        self
    }

    /// The attributes that are signed instead of the content, in this order.
    pub fn authenticated_attributes(mut self, attributes: AttributeList) -> Self
        ensures { result ≡ record self.entry { authenticated_attributes = Some attributes } }
    {
        self.authenticated_attributes = Some(attributes);
        self
    }

    /// The unsigned attributes, in this order.
    pub fn unsigned_attributes(mut self, attributes: UnsignedAttributeList) -> Self
        ensures { result ≡ record self.entry { unsigned_attributes = Some attributes } }
    {
        self.unsigned_attributes = Some(attributes);
        self
    }

    /// The issuer and the serial number of the signer's certificate.
    pub fn issuer_and_serial_number(
        mut self,
        issuer: DirectoryName,
        serial_number: IntegerAsn1,
    ) -> Self
        ensures { result ≡ record self.entry
            { named = Some (record { issuer = sets_of issuer; serial_number = serial_number }) } }
    {
        self.named = Some(IssuerAndSerialNumber {
            issuer: Name::from(issuer),
            serial_number,
        });
        self
    }
}

/// An empty builder.
impl Default for AuthenticodeSignatureBuilder<'_> {
    ghost use Rattle.authenticode_signature.specs.Building.{no_parts};

    ghost is_default = { λ builder. builder ≡ no_parts };

    fn default() -> Self {
        AuthenticodeSignatureBuilder::new()
    }
}
