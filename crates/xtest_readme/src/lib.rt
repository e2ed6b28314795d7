//! The callers in the READMEs of the libraries, a module each, with tests; and callers of two
//! libraries over the certificates of one of them.
#![tactic(auto)]

#[cfg(test)]
mod asking;
#[cfg(test)]
mod citing;
#[cfg(test)]
mod counting;
#[cfg(test)]
mod of_asn1_types;
#[cfg(test)]
mod of_authenticode_core;
#[cfg(test)]
mod of_authenticode_parts;
#[cfg(test)]
mod of_authenticode_signature;
#[cfg(test)]
mod of_ca_register;
#[cfg(test)]
mod of_cms_content;
#[cfg(test)]
mod of_cms_types;
#[cfg(test)]
mod of_demo_core;
#[cfg(test)]
mod of_der_core;
#[cfg(test)]
mod of_door_frame;
#[cfg(test)]
mod of_extension_types;
#[cfg(test)]
mod of_key_core;
#[cfg(test)]
mod of_key_types;
#[cfg(test)]
mod of_name_types;
#[cfg(test)]
mod of_names_core;
#[cfg(test)]
mod of_pe_core;
#[cfg(test)]
mod of_pe_image;
#[cfg(test)]
mod of_picky_check;
#[cfg(test)]
mod of_program_frame;
#[cfg(test)]
mod of_sig_core;
#[cfg(test)]
mod of_signature_questions;
#[cfg(test)]
mod of_trust_anchors;
#[cfg(test)]
mod of_wincert_core;
#[cfg(test)]
mod of_x509_core;
#[cfg(test)]
mod of_x509_issuing;
#[cfg(test)]
mod of_x509_types;
#[cfg(test)]
mod private_keys;
#[cfg(test)]
mod registers;
#[cfg(test)]
mod requests;
#[cfg(test)]
mod trust_lists;
