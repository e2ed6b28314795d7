//! Certificates: reading them, one or several, stored with their octets, and access to their fields; whether one
//! may be the parent of another, and whether some are a chain. Laws on issuing histories. The errors
//! of certification requests.
#![tactic(auto)]

mod cert;
mod cert_extensions;
mod cert_type;
mod chain_laws;
mod csr_error;
mod error;
mod error_name;
mod history_laws;
mod key_link;
mod keyless;
mod laws;
mod link;
mod parent;
mod places;
mod reading;
mod validator;
mod viewed;
mod window;

pub use cert::Cert;
pub use cert_type::CertType;
pub use chain_laws::{chains_break_no_rule, chains_have_one_answer};
pub use csr_error::CsrError;
pub use error::{Arg, CaChainError, CertCause, CertError, ExtName};
pub use history_laws::{
    histories_decide_acceptance, histories_grow_by_steps, sealed_histories_accept_no_others,
    steps_have_one_list_of_ancestors,
};
pub use key_core::Element;
pub use laws::{certificates_are_written_as_read, elements_and_values_say_the_same};
pub use parent::names_agree;
pub use places::Places;
pub use reading::read_certificates;
pub use validator::{CertValidator, ChainChecks};
pub use window::{DateCheck, Window};
