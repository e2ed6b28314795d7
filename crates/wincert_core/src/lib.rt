//! WIN_CERTIFICATE, the structure that contains the signature of a signed file (PE Format, "The
//! Attribute Certificate Table").
#![tactic(auto)]

mod error;
mod header;
mod kinds;
mod laws;
mod wincert;

pub use error::{WinCertificateError, WinCertificateResult};
pub use kinds::{CertificateType, RevisionType};
pub use laws::lists_have_each_kind;
pub use wincert::{WinCertificate, certificate_of};
