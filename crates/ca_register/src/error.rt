//! Errors of issuing.

ghost use Rattle.std.specs.Prelude.{◌≡◌, Some};
ghost use Rattle.ca_register.specs.ErrorText.{issue_error_text};
ghost use Rattle.ca_register.specs.Refusals.{unbuilt, unread_request, wrong_key};
ghost use Rattle.ca_register.specs.declared.error.IssueError.TheVariants.{Memory};

use key_core::SignatureError;
use std::alloc::{AllocError, AllocFailed};
use std::fmt;
use thiserror::Error;
use x509_core::{CertError, CsrError};

/// Why a certificate isn't issued. The first that applies is returned; out of memory is always
/// `Memory`.
#[derive(Debug, Error)]
pub enum IssueError {
    /// The register has no certificate at this index, but so many.
    NoIssuer { issuer: usize, len: usize },
    /// The issuer isn't a CA, or a root is to be none.
    NotCa,
    /// The path length of this ancestor, counted from 0, the nearest, is less than its number.
    TooDeep { ancestor: usize },
    /// The octets are no request. Never wraps `Memory`.
    Request(#[source] CsrError),
    /// The certificate isn't built. Never wraps `Memory`.
    Build(#[source] CertError),
    /// The signature isn't one by the key of the issuer's certificate. Never wraps `Memory`.
    WrongKey(#[source] SignatureError),
    /// Out of memory.
    Memory,
}

/// By hand, so that dropping an error is a call: else each function that drops one is proved
/// through all its parts.
impl Drop for IssueError {
    fn drop(self) {
        match self {
            IssueError::NoIssuer {
                issuer: _issuer,
                len: _len,
            } => {}
            IssueError::NotCa => {}
            IssueError::TooDeep {
                ancestor: _ancestor,
            } => {}
            IssueError::Request(_source) => {}
            IssueError::Build(_source) => {}
            IssueError::WrongKey(_source) => {}
            IssueError::Memory => {}
        }
    }
}

impl fmt::Display for IssueError {
    ghost output = { λ error. Some (issue_error_text error) };

    fn fmt<W: fmt::Write>(&self, f: &mut fmt::Formatter<W>) -> fmt::Result {
        match self {
            IssueError::NoIssuer { issuer, len } => write!(f, "no issuer {issuer} among {len}"),
            IssueError::NotCa => write!(f, "the issuer is not a CA"),
            IssueError::TooDeep { ancestor } => write!(
                f,
                "the path length of ancestor {ancestor} is too short"
            ),
            IssueError::Request(source) => write!(f, "invalid request: {source}"),
            IssueError::Build(source) => write!(f, "couldn't build the certificate: {source}"),
            IssueError::WrongKey(source) => write!(
                f,
                "the key is not that of the issuer's certificate: {source}"
            ),
            IssueError::Memory => write!(f, "out of memory"),
        }
    }
}

impl From<AllocError> for IssueError {
    ghost from_gives = { λ _ e. e ≡ Memory };

    fn from(_refused: AllocError) -> IssueError {
        IssueError::Memory
    }
}

impl<T: Drop> From<AllocFailed<T>> for IssueError {
    ghost from_gives = { λ _ e. e ≡ Memory };

    fn from(_refused: AllocFailed<T>) -> IssueError {
        IssueError::Memory
    }
}

/// The error for octets that aren't read as a request.
pub(crate) fn unread_request(source: CsrError) -> IssueError
    ensures { result ≡ unread_request source }
{
    match source {
        CsrError::Memory => IssueError::Memory,
        source => IssueError::Request(source),
    }
}

/// The error for a certificate that isn't built.
pub(crate) fn unbuilt(source: CertError) -> IssueError
    ensures { result ≡ unbuilt source }
{
    match &source {
        CertError::Memory => IssueError::Memory,
        _ => IssueError::Build(source),
    }
}

/// The error for a signature that isn't accepted.
pub(crate) fn wrong_key(source: SignatureError) -> IssueError
    ensures { result ≡ wrong_key source }
{
    match source {
        SignatureError::Memory => IssueError::Memory,
        source => IssueError::WrongKey(source),
    }
}
