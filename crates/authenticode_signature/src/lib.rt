//! Owned signed data and Authenticode signatures: reading and writing them, access to their
//! certificates, the signer's among them, and to what is signed, and timestamping them. Laws
//! on signatures by the certificates of a CA.
#![tactic(auto)]

mod alone;
mod bag;
mod builder;
mod builder_error;
mod certificates;
mod history_laws;
mod made_files;
mod making;
mod padded;
mod pkcs7;
mod refusing;
mod signature;
mod signing_certificate;
mod stamping;
mod timestamp_request;
mod timestamper;
mod token_timestamper;
mod validator;

pub use authenticode_core::{CertificateTrustList, CtlError, Pkcs7Error};
pub use builder::AuthenticodeSignatureBuilder;
pub use builder_error::AuthenticodeSignatureBuilderError;
pub use certificates::SignatureCertificatesIterator;
pub use history_laws::{histories_decide_made_signatures, histories_decide_signatures};
pub use made_files::{check_made, decode_signature, encode_signature};
pub use pkcs7::Pkcs7;
pub use signature::AuthenticodeSignature;
pub use timestamp_request::TimestampRequest;
pub use timestamper::Timestamper;
pub use token_timestamper::TokenTimestamper;
pub use validator::AuthenticodeValidator;
