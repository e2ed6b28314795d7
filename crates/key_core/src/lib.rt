//! Public and private keys with their algorithms (RFC 5280 4.1.2.7, RFC 5208 5, RFC 5958 2), read
//! from octets or trees and written as either; signature algorithms; key identifiers. The
//! structures that keys consist of have crates of their own and are exported again here.
#![tactic(auto)]

mod ec_curve;
mod ec_views;
mod ed_algorithm;
mod ed_views;
mod element;
mod error;
mod key_algorithm;
mod key_id;
mod laws;
mod named_ec_curve;
mod named_ed_algorithm;
mod private_key;
mod private_key_fields;
mod private_key_info;
mod private_key_value;
mod private_key_version;
mod public_key;
mod scheme_names;
mod signature_algorithm;
mod signature_error;
mod signature_laws;

pub use ec_curve::EcCurve;
pub use ec_views::{EcdsaKeypair, EcdsaPublicKey};
pub use ed_algorithm::EdAlgorithm;
pub use ed_views::{EdKeypair, EdPublicKey};
pub use element::Element;
pub use error::{KeyContext, KeyError};
pub use key_id::{KeyIdGenError, KeyIdGenMethod};
pub use key_types::{
    AlgorithmIdentifier, ECPrivateKey, KeyKind, RsaPrivateKey, RsaPublicKey, SubjectKey,
    SubjectPublicKeyInfo,
};
pub use laws::{
    keys_of_rsa_are_secrets, lists_have_each_curve, one_identifier_each, pkcs1_comes_back,
    pkcs8_comes_back, public_keys_come_back,
};
pub use named_ec_curve::NamedEcCurve;
pub use named_ed_algorithm::NamedEdAlgorithm;
pub use private_key::PrivateKey;
pub use private_key_info::PrivateKeyInfo;
pub use private_key_value::PrivateKeyValue;
pub use private_key_version::PrivateKeyVersion;
pub use public_key::PublicKey;
pub use scheme_names::{curve_for, ecdsa_alg, rsa_alg};
pub use signature_algorithm::SignatureAlgorithm;
pub use signature_error::{SigContext, SignatureError, Unsupported};
pub use signature_laws::{
    key_identifiers_are_of_keys, signature_algorithms_are_read_as_written,
    signatures_have_one_answer, signing_has_one_answer,
};
