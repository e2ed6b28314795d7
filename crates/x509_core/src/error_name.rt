//! The names of certificate errors, as a program prints them.

ghost use Rattle.std.specs.Prelude.{◌≡◌, ◌++◌, IfOk, codes, string_bytes};
ghost use Rattle.x509_core.specs.ErrorName.{cause_name, cert_error_name, chain_error_name};

use crate::error::{CaChainError, CertCause, CertError};
use std::alloc::{AllocError, Global};

impl CertError {
    /// The name of the variant. For `InvalidCertificate` and `InvalidChain` a colon and the name of
    /// the wrapped error follow.
    pub fn name(&self, alloc: Global) -> Result<String, AllocError>
        ensures { IfOk result (λ name. string_bytes name ≡ cert_error_name self.now) }
    {
        match self {
            CertError::CertGeneration { .. } => String::from_str(alloc, "CertGeneration"),
            CertError::InvalidCertificate { source, .. } => named_certificate(alloc, source),
            CertError::Asn1Serialization { .. } => String::from_str(alloc, "Asn1Serialization"),
            CertError::Asn1Deserialization { .. } => String::from_str(alloc, "Asn1Deserialization"),
            CertError::Signature { .. } => String::from_str(alloc, "Signature"),
            CertError::KeyIdGen { .. } => String::from_str(alloc, "KeyIdGen"),
            CertError::InvalidChain { source } => named_chain(alloc, source),
            CertError::InvalidCsr { .. } => String::from_str(alloc, "InvalidCsr"),
            CertError::ExtensionNotFound { .. } => String::from_str(alloc, "ExtensionNotFound"),
            CertError::MissingBuilderArgument { .. } => {
                String::from_str(alloc, "MissingBuilderArgument")
            }
            CertError::CertificateNotYetValid { .. } => {
                String::from_str(alloc, "CertificateNotYetValid")
            }
            CertError::CertificateExpired { .. } => String::from_str(alloc, "CertificateExpired"),
            CertError::PrivateKeyToPublicKey { .. } => {
                String::from_str(alloc, "PrivateKeyToPublicKey")
            }
            CertError::Memory => String::from_str(alloc, "Memory"),
        }
    }
}

/// The name of `InvalidCertificate` with that of its cause.
fn named_certificate(alloc: Global, cause: &CertCause) -> Result<String, AllocError>
    ensures { IfOk result
        (λ name. string_bytes name ≡ codes "InvalidCertificate:" ++ cause_name cause.now) }
{
    format!(in alloc; "InvalidCertificate:{}", cause.name(alloc)?)
}

/// The name of `InvalidChain` with that of its cause.
fn named_chain(alloc: Global, error: &CaChainError) -> Result<String, AllocError>
    ensures { IfOk result
        (λ name. string_bytes name ≡ codes "InvalidChain:" ++ chain_error_name error.now) }
{
    format!(in alloc; "InvalidChain:{}", error.name())
}

impl CertCause {
    /// The name of the variant, for `InvalidChain` with that of its cause.
    fn name(&self, alloc: Global) -> Result<String, AllocError>
        ensures { IfOk result (λ name. string_bytes name ≡ cause_name self.now) }
    {
        match self {
            CertCause::Asn1Serialization { .. } => String::from_str(alloc, "Asn1Serialization"),
            CertCause::Signature { .. } => String::from_str(alloc, "Signature"),
            CertCause::KeyIdGen { .. } => String::from_str(alloc, "KeyIdGen"),
            CertCause::InvalidChain { source } => named_chain(alloc, source),
            CertCause::ExtensionNotFound { .. } => String::from_str(alloc, "ExtensionNotFound"),
            CertCause::CertificateNotYetValid { .. } => {
                String::from_str(alloc, "CertificateNotYetValid")
            }
            CertCause::CertificateExpired { .. } => String::from_str(alloc, "CertificateExpired"),
        }
    }
}

impl CaChainError {
    /// The name of the variant.
    fn name(&self) -> &'static str
        ensures { result.now ≡ chain_error_name self.now }
    {
        match self {
            CaChainError::TooDeep { .. } => "TooDeep",
            CaChainError::NoRoot => "NoRoot",
            CaChainError::IssuerIsNotCA { .. } => "IssuerIsNotCA",
            CaChainError::AuthorityKeyIdMismatch { .. } => "AuthorityKeyIdMismatch",
            CaChainError::IssuerNameMismatch { .. } => "IssuerNameMismatch",
        }
    }
}
