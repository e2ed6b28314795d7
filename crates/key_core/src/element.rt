//! The structures that errors name.

ghost use Rattle.std.specs.Prelude.{◌≡◌, Some, string_bytes};
ghost use Rattle.key_core.specs.ErrorText.{element_text};

use std::fmt;

/// The structure that was being read or written.
#[derive(Clone, Copy, Debug, PartialEq, Eq)]
pub enum Element {
    Certificate,
    TbsCertificate,
    Request,
    RequestInfo,
    Pkcs7,
    TimestampRequest,
    PrivateKeyInfo,
    RsaPrivateKey,
    EcPrivateKey,
    SubjectPublicKeyInfo,
    RsaPublicKey,
}

impl Element {
    /// The name of the structure.
    fn name(self) -> &'static str
        ensures { result.now ≡ element_text self }
    {
        match self {
            Element::Certificate => "x509 certificate",
            Element::TbsCertificate => "tbs certificate",
            Element::Request => "certification request",
            Element::RequestInfo => "certification request info",
            Element::Pkcs7 => "pkcs7 certificate",
            Element::TimestampRequest => "TimestampRequest",
            Element::PrivateKeyInfo => "private key info (pkcs8)",
            Element::RsaPrivateKey => "rsa private key",
            Element::EcPrivateKey => "ec private key",
            Element::SubjectPublicKeyInfo => "subject public key info",
            Element::RsaPublicKey => "rsa public key",
        }
    }
}

impl fmt::Display for Element {
    ghost output = { λ element. Some (element_text element) };

    fn fmt<W: fmt::Write>(&self, f: &mut fmt::Formatter<W>) -> fmt::Result {
        f.write_str(self.name())
    }
}
