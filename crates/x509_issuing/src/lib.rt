//! A CA's work. Certification requests (RFC 2986): as values, and stored with their octets, verified
//! and generated. Certificates: building them for a request, or for a name and a key.
#![tactic(auto)]

mod builder;
mod csr;
mod request;
mod request_info;

pub use builder::CertificateBuilder;
pub use csr::Csr;
pub use request::CertificationRequest;
pub use request_info::CertificationRequestInfo;
