//! The parts of Authenticode signatures (RFC 2315 9.1, 9.2; Windows Authenticode Portable
//! Executable Signature Format): the content that represents a file and its digest, the signed
//! attributes and the signature over them, the certificates, and the signed data around them.
#![tactic(auto)]

mod attributes;
mod carrying;
mod content;
mod frame;
mod program;
mod roots;
mod signing;

pub use attributes::{attributes_of, keep_attributes, message_of, opus_of};
pub use carrying::kept_certificates;
pub use content::{content_of, digest_of_content, indirect_of};
pub use frame::{digests_of, framed, signer_info_of, signers_of};
pub use program::program_signature;
pub use roots::{carried_of, without_roots};
pub use signing::signature_of;
