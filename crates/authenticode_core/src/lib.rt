//! Authenticode signatures: whether a signature file is trusted under a policy, and at which
//! indices the signer's certificate and those of its issuers are.
//!
//! The modules follow the steps of the check: `value`, `form`, `signature`, `signer`, `excuse`,
//! `path`, `listing`. `steps` has their order; `basic` has the order in basic validation, and
//! compares the digest of the file. Under them `bag` finds certificates.
#![tactic(auto)]

mod accepted;
mod authority;
mod bag;
mod basic;
mod ctl;
mod ctl_error;
mod digest;
mod error;
mod excuse;
mod form;
mod laws;
mod listing;
mod path;
mod pkcs7_error;
mod policy;
mod signature;
mod signer;
mod steps;
mod timestamp_error;
mod value;

pub use accepted::{Accepted, Excuse};
pub use bag::certificates::{certificate_bag, issuer_walk_of};
pub use bag::issuer_walk::IssuerWalk;
pub use bag::naming::signer_certificate;
pub use bag::others::Others;
pub use bag::{Bag, BagCertificate};
pub use ctl::CertificateTrustList;
pub use ctl_error::CtlError;
pub use digest::digest_named;
pub use error::{AuthenticodeError, CheckError};
pub use excuse::first_of_stamping;
pub use excuse::token::{first_signer_of, token_of};
pub use laws::{one_acceptance, one_bag, one_issuer_walk, one_signed_data, plain_form_is_judged};
pub use pkcs7_error::Pkcs7Error;
pub use policy::Policy;
pub use steps::{check_signed_data, check_wincert};
pub use timestamp_error::TimestampError;
pub use value::{padded_element, read_signed_data};
pub use x509_core::{DateCheck, Places};
